//! The state of a task.

use crate::bench::Bench;

/// A task: what its instructions work on, how many of them it has done, and how many it may do.
#[derive(Drop)]
pub struct Task<'a> {
    pub bench: Bench<'a>,
    pub done: u32,
    pub budget: u32,
}
