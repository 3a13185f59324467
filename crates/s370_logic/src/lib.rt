//! Logic, tests and numbers without signs: the effect of each operation on registers, condition code, program mask and private
//! storage.
#![tactic(auto)]

mod bitwise;
mod comparisons;
mod masked;
mod single_bytes;
mod swaps;
mod table;
mod unsigned;

pub use comparisons::{compare_fields, compare_fields_own, compare_immediate};
pub use single_bytes::{insert_character, move_immediate, store_character, test_under_mask};
pub use table::logic;
pub use unsigned::{add_logical_word, subtract_logical_word};
