//! Counting sessions: breakpoints that stay, and how often each fact was met.
#![tactic(auto)]

mod begin;
mod cells;
mod counting;
mod counts;
mod forks;
mod job;
mod pass;
mod phase;
mod rule;
mod run;
mod steps;
mod words;

pub use cells::CountCells;
pub use counts::{Counts, PlaceCount};
pub use job::{Counted, JobCounts, count_job};
pub use pass::{CountPass, CountSlot};
pub use run::run_counted;
