//! Places: the instructions that are observed.

use cov_base::{Addr, Kind};

/// An instruction of a listing: the index of its module among the job's, its address, which is even, its length
/// (2, 4 or 6), its first halfword as the module has it, and that halfword's kind.
#[derive(Clone, Copy)]
pub struct Place {
    pub module: u32,
    pub at: Addr,
    pub len: u8,
    pub original: u16,
    pub kind: Kind,
}
