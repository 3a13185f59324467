//! How often an area was worked on.

/// The counts of one area's calls; `lifts` are those that took a breakpoint out.
#[derive(Clone, Copy)]
pub struct Tally {
    pub plants: u64,
    pub fetches: u64,
    pub marks: u64,
    pub lifts: u64,
    pub closes: u64,
}
