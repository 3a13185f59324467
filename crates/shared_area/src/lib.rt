//! The area that threads share: a word for each place, one for the sets of each session at 32 places, and one for each
//! task.
#![tactic(auto)]

mod areas;
mod cells;
mod drains;
mod fetches;
mod forks;
mod marks;
mod pass;
mod rule;
mod sets;
mod steps;
mod words;

pub use areas::SharedAreas;
pub use cells::SharedCells;
pub use pass::SharedPass;
