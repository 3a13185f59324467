//! How a command tells what it answers: a text with its status, and each refusal, where it has nothing to write, by a line.
//! Faults come as values from the stages below; which of them comes is decided above.
#![tactic(auto)]

mod faults;
mod lines;
mod status;

pub use faults::{
    Refusal, bad_marks, input_refusal, no_memory, other_table, read_refusal, tables_refusal,
};
pub use lines::{
    USAGE, bad_evidence_line, bad_schedule_line, controlled_line, no_session_line, refuted_line,
    verified_line,
};
pub use status::{Reason, Status, status_of, told, told_no_memory};
