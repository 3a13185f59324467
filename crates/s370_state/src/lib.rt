//! A task's state and its storage, and the order of tests that each instruction stands under.
#![tactic(auto)]

mod cpu;
mod endings;
mod io;
mod operands;
mod packed;
mod space;
mod words;

pub use cpu::Cpu;
pub use endings::{Ending, Next, next_after};
pub use io::TaskIo;
pub use operands::{
    byte_of, ending_of, put_into, put_word, read_word, reads_both_own, reads_own, stores_own,
    stores_reads_own, test_read, test_read_both, test_store, test_store_read, word_of,
};
pub use packed::{Field, field_at, is_digit, is_minus, is_sign, number, put_field};
pub use space::{Refused, Space};
pub use words::{doubleword, order_code, signed};
