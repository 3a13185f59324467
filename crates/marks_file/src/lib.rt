//! Marks files: what the places of a session's modules have shown, as bytes, and the union of files of one table.
#![tactic(auto)]

mod difference;
mod fault;
mod files;
mod heading;
mod marks;
mod modules;
mod numbers;
mod reading;
mod rows;
mod rules;
mod union;
mod version;
mod writing;

pub use difference::OtherTable;
pub use fault::MarksFault;
pub use files::{CombineFault, combine_files};
pub use marks::{MarkedModule, MarkedPlace, Marks};
pub use reading::read;
pub use rows::place_row;
pub use union::combine;
pub use version::Version;
pub use writing::write;
