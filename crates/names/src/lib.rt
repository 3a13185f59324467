//! Names in order, each found by a map.
#![tactic(auto)]

mod list;

pub use list::NameList;
