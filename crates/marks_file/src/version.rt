//! The versions of a marks file.

/// Both have a session's modules; name and runs stand in the second alone, in which every file is written.
#[derive(Clone, Copy)]
pub enum Version {
    First,
    Second,
}
