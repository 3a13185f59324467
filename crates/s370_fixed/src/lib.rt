//! Signed fixed-point operations, and loads and stores of one register: the effect of each on registers, condition code and
//! private storage.
#![tactic(auto)]

mod conversions;
mod loads;
mod operands;
mod products;
mod shifts;
mod sums;
mod table;
mod words;

pub use loads::{
    load_address, load_and_test, load_complement, load_half, load_register, load_word, store_half,
    store_word,
};
pub use sums::{
    add_half, add_register, add_word, compare_half, compare_register, compare_word, subtract_half,
    subtract_register, subtract_word,
};
pub use table::fixed;
