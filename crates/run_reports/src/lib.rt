//! What a run of a job's tasks over areas tells: its report, the marks of a session, the report with drains, a summary. No
//! function refuses: its status is 0 where the text was written whole, 6 where the sink failed, and 7 where memory was wanting.
#![tactic(auto)]

mod early;
mod host;
mod running;
mod trial;

pub use early::write_drained;
pub use host::Host;
pub use running::{write_marks, write_report};
pub use trial::write_trial;
