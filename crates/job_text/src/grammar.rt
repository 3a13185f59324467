//! The grammars of jobs.

/// Which cards a job may have.
#[derive(Clone, Copy)]
pub enum Grammar {
    /// All but SERVICE.
    Plain,
    /// SERVICE too, behind the modules.
    Services,
}
