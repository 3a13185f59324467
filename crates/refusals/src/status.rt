//! The exit status, and the lines that go with it.
ghost use Rattle.std.specs.Prelude.{◌≡◌, ℕ, OnOk, OnErr};
ghost use Rattle.refusals.specs.Codes.{exit_code};
ghost use Rattle.refusals.specs.Meaning.{IsWritten, no_memory_line, sink_change};

use crate::lines::NO_MEMORY;
use cov_outside::{Failed, Sink, write_all};
use std::marker::Model;

/// Why the program ends as it does, in the order of the exit codes: 0, for a command that was served, to 16.
#[derive(Clone, Copy)]
pub enum Reason {
    Served,
    Usage,
    BadJob,
    Mismatch,
    TooLarge,
    ReadFault,
    WriteFault,
    NoMemory,
    OwnSvc,
    BadSchedule,
    BadMarks,
    OtherTable,
    BadListing,
    NoSession,
    Controlled,
    BadEvidence,
    Refuted,
}

/// How the program ends; a contract sees the exit code.
#[derive(Drop)]
pub struct Status(u8);

impl Model for Status {
    ghost Value = { ℕ };

    ghost view = { λ s. s.0 };
}

impl Status {
    /// The status by which a reason is told.
    pub fn of(reason: Reason) -> Status
        ensures { result ≡ exit_code reason }
    {
        Status(reason as u8)
    }

    /// The exit code.
    pub fn code(&self) -> u8
        ensures { result ≡ self.now }
    {
        self.0
    }
}

/// The status of a text: that the command was served if the text was written whole, and else that the sink failed.
pub fn status_of(written: Result<(), Failed>) -> Status
    ensures whole { OnOk written (result ≡ 0) }
    ensures failed { OnErr written (result ≡ 6) }
{
    match written {
        Ok(()) => Status::of(Reason::Served),
        Err(_) => Status::of(Reason::WriteFault),
    }
}

/// Writes the line that tells why; the answer is the status of that, unless the sink fails.
pub fn told<K: Sink>(sink: &mut K, line: &[u8], why: Reason) -> Status
    ensures { IsWritten (exit_code why) line.now (sink_change K.written K.faults sink.old sink.new) result }
{
    match write_all(sink, line) {
        Ok(()) => Status::of(why),
        Err(_) => Status::of(Reason::WriteFault),
    }
}

/// Tells want of memory.
pub fn told_no_memory<K: Sink>(sink: &mut K) -> Status
    ensures { IsWritten 7 no_memory_line (sink_change K.written K.faults sink.old sink.new) result }
{
    told(sink, NO_MEMORY, Reason::NoMemory)
}
