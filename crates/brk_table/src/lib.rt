//! The breakpoint table: the places of a listing, and all places of a job.
#![tactic(auto)]

mod builder;
mod codes;
mod cover;
mod decoding;
mod fault;
mod faults;
mod kept;
mod line_places;
mod map;
mod places;
mod tables;

pub use builder::build;
pub use faults::BuildFault;
pub use kept::Kept;
pub use line_places::LinePlaces;
pub use tables::{Table, Tables};
