//! Instructions: their lengths, kinds, operations and fields.
#![tactic(auto)]

mod code;
mod decoded;
mod group;
mod halfword;
mod mnemonics;
mod op;
mod table;

pub use code::Code;
pub use decoded::Decoded;
pub use group::{Group, group_of};
pub use halfword::{kind, length};
pub use mnemonics::is_mnemonic;
pub use op::Op;
pub use table::op_of;
