//! Where tasks wait before they run.

use cov_base::TaskNo;

/// A gate that every task passes.
pub trait Gate {
    /// Called once by each task, before its run and its first call on the area. It tells nothing.
    fn arrive(&self, task: TaskNo);
}

/// A gate that holds no task.
#[derive(Drop)]
pub struct OpenGate;

impl Gate for OpenGate {
    fn arrive(&self, _task: TaskNo) {}
}
