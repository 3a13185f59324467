//! What is limited.

/// A quantity with a limit, in the order in which limits are told. cov_base has the limits, as `MODULE_LIMIT`.
#[derive(Clone, Copy)]
pub enum Limit {
    /// Bytes of input.
    Input,
    /// Modules.
    Modules,
    /// Bytes of a module.
    Size,
    /// Bytes of a line of a listing.
    Line,
    /// Places.
    Places,
    /// Phases.
    Phases,
    /// Sessions.
    Sessions,
    /// Tasks.
    Tasks,
    /// Bytes of a task's private storage.
    Private,
    /// A task's budget in instructions.
    Budget,
    /// Bytes of a task's output.
    Room,
}
