//! The marks of a job's session: as values for a marks file, and read back from one.
#![tactic(auto)]

mod filling;
mod from_file;
mod marking;
mod no_sets;

pub use filling::fill_marks;
pub use from_file::{FileSets, SetsFault, file_sets};
pub use marking::marks_of;
pub use no_sets::NoSets;
