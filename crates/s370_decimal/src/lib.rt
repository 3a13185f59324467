//! Decimal operations: the effect of each on condition code and private storage. Editing is one: packed decimal digits are
//! put into the form of a pattern.
#![tactic(auto)]

mod editing;
mod fields;
mod operands;
mod pattern;
mod products;
mod results;
mod shifts;
mod sums;
mod table;
mod working;

pub use editing::edit;
pub use table::decimal;
