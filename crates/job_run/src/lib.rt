//! The run of a job: its phases one after the other, and in each phase its tasks at once, each on a thread of its own.
#![tactic(auto)]

mod area;
mod crew;
mod outcome;
mod phase;
mod slots;

pub use crew::{Crew, run_crew};
pub use outcome::{Done, Outcome, Sets};
pub use phase::{run_job, run_job_with};
pub use slots::{Slot, make_slots};
