//! The lines of an assembler listing, their columns of either width and the heading; the instruction lines among them.
#![tactic(auto)]

mod buffer;
mod columns;
mod fields;
mod heading;
mod lines;
mod listing;
mod object;
mod operation;
mod reader;

pub use buffer::ListingLines;
pub use columns::{Columns, Width, column};
pub use heading::heading_of;
pub use lines::{Line, ListFault};
pub use listing::Listing;
pub use reader::read_listing;
