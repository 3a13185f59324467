//! Makes jobs to try the program on: one module of drawn blocks, and tasks that go through it together.
#![tactic(auto)]

mod code;
mod instruction;
mod jobs;
mod listing;
mod tasks;

pub use jobs::trial;
