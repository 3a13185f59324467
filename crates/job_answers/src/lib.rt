//! What commands answer of a job that is ready, or of marks files, without threads or areas; and how a job is made ready.
//! A status is 0 where the text was written whole, 6 where the sink failed, 7 where memory was wanting, or that of a refusal.
#![tactic(auto)]

mod asked;
mod combining;
mod ending;
mod playing;
mod proving;
mod ready;
mod showing;
mod verifying;

pub use asked::{Asked, Wanted};
pub use combining::write_union;
pub use ending::write_job_ends;
pub use playing::write_schedule;
pub use proving::write_evidence;
pub use ready::{Ready, make_ready};
pub use showing::write_shown;
pub use verifying::write_verdict;
