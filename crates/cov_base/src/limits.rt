//! The limits of a job.

/// The most modules of a job.
pub const MODULE_LIMIT: usize = 16;

/// The most bytes of a module.
pub const SIZE_LIMIT: u32 = 262_144;

/// The most bytes of a line of a listing.
pub const LINE_LIMIT: usize = 150;

/// The most places of a job.
pub const PLACE_LIMIT: u32 = 65_536;

/// The most phases of a job.
pub const PHASE_LIMIT: usize = 16;

/// The most sessions of a job.
pub const SESSION_LIMIT: usize = 16;

/// The most tasks of a job.
pub const TASK_LIMIT: usize = 64;

/// The most bytes of a task's private storage.
pub const PRIVATE_LIMIT: u32 = 1_048_576;

/// The most instructions of a task's budget.
pub const BUDGET_LIMIT: u32 = 50_000_000;

/// The most bytes of a task's output.
pub const ROOM_LIMIT: u32 = 65_536;
