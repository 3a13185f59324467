//! Operations on fields in storage, and loads and stores of several registers: the effect of each on registers, condition code
//! and private storage.
#![tactic(auto)]

mod long;
mod moves;
mod multiple;
mod packing;
mod table;
mod translate;

pub use moves::{move_characters, move_characters_own};
pub use multiple::{load_multiple, load_multiple_own, store_multiple, store_multiple_own};
pub use table::storage;
