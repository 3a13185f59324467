//! The names of a job that is read.

use names::NameList;

/// The names of a job's modules, phases, sessions and tasks, each in the order of their cards.
#[derive(Drop)]
pub(crate) struct JobNames {
    pub modules: NameList,
    pub phases: NameList,
    pub sessions: NameList,
    pub tasks: NameList,
}
