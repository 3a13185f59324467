//! One instruction of a task: its halfwords, its effect, the subject of EX, the order of tests around it, and the step
//! of a task alone.
#![tactic(auto)]

mod calls;
mod fetch;
mod fields;
mod instruction;
mod solo;
mod stored;
mod subject;

pub use fetch::{fetch_first, fetch_rest};
pub use instruction::{Told, execute, execute_frequent, next_of};
pub use solo::{has_returned, instruction_went, step, subject_seen, supervisor_call};
pub use subject::{fetch_subject, is_execute, merge, subject_address};
