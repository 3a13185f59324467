//! The commands of the coverage utility: what each asks of its input, and its answer over a source, a sink and areas.
#![tactic(auto)]

mod answering;
mod combine;
mod count;
mod early;
mod ends;
mod exits;
mod marks;
mod prove;
mod refusing;
mod replay;
mod run;
mod show;
mod table;
mod trial;
mod verify;
mod ways;

pub use answering::{cover, cover_one};
pub use refusals::{Reason, Status};
