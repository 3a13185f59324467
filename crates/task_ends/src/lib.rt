//! Where each task of a job ends in its own run, and what ran where no place begins.
#![tactic(auto)]

mod running;
mod text;
mod unlisted;

pub use running::{Ends, find_ends};
pub use text::write_ends;
