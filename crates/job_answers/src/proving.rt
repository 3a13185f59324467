//! The evidence of a session's facts.
ghost use Rattle.std.specs.Prelude.{◌≡◌, ◌<◌, ◌≤◌, None, length};
ghost use Rattle.evidence_check.specs.Meaning.{evidence};
ghost use Rattle.job_input.specs.Tables.{IsReadyJob};
ghost use Rattle.session_book.specs.Meaning.{session_of};
ghost use Rattle.refusals.specs.Told.{IsText, Tells};

use brk_table::Tables;
use cov_base::SessNo;
use cov_outside::Sink;
use evidence_check::{ProveFault, prove};
use refusals::{Reason, Status, told_no_memory};
use session_book::Job;
use std::alloc::Global;

/// Writes the evidence of session s of a job, which has no controller. No refusal.
pub fn write_evidence<K: Sink>(
    alloc: Global,
    job: &Job,
    tables: &Tables,
    s: SessNo,
    sink: &mut K,
) -> Status
    requires from { 0 < s.0 }
    requires to { s.0 ≤ length job.now.sessions }
    requires whole { (session_of job.now s.0).by ≡ None }
    requires job { IsReadyJob job.now tables.now }
    ensures { Tells K.Sink (IsText (evidence job.now tables.now s.0)) sink.old sink.new result }
{
    match prove(alloc, sink, job, tables, s) {
        Ok(()) => Status::of(Reason::Served),
        Err(ProveFault::Failed) => Status::of(Reason::WriteFault),
        Err(ProveFault::NoMemory) => told_no_memory(sink),
    }
}
