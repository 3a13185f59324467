//! A task's run: one instruction as an observer sees it, which is shown each visit and each supervisor call; the course with a
//! hook behind each instruction; the observer that marks over cells in which breakpoints stand; and what runs a task over these.
#![tactic(auto)]

mod bench;
mod calls;
mod hook;
mod instruction;
mod observer;
mod planted;
mod planted_run;
mod runner;
mod sessions;
mod task;
mod tasks;
mod trap;
mod turns;

pub use bench::Bench;
pub use calls::behind_call;
pub use hook::{Hook, NoHook};
pub use instruction::step;
pub use observer::{Known, Observer, Sight, Watch};
pub use planted::Planted;
pub use planted_run::run_task;
pub use runner::{NoExtra, PlainRunner, Runner};
pub use task::{TaskEnd, run};
pub use tasks::Task;
