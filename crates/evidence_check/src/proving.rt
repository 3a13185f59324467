//! Evidence from one run of each task.
ghost use Rattle.std.specs.Prelude.{◌≡◌, ◌<◌, ◌≤◌, length, OnOk, IfErr, None};
ghost use Rattle.std.specs.Io.KnownBytes.{Appends};
ghost use Rattle.brk_table.specs.Kept.{AreCodes};
ghost use Rattle.session_book.specs.Meaning.{session_of};
ghost use Rattle.evidence_check.specs.Meaning.{evidence};
ghost use Rattle.evidence_check.specs.Proved.{IsProveFault, HaveFirsts};

use crate::runs::find_firsts;
use crate::writing::write_evidence;
use brk_table::Tables;
use cov_base::{NoMemory, SessNo};
use cov_outside::Sink;
use session_book::Job;
use std::alloc::Global;

/// Why no whole evidence was written.
#[derive(Clone, Copy)]
pub enum ProveFault {
    /// The sink failed, and its count of faults has it.
    Failed,
    NoMemory,
}

/// Writes evidence of the facts of a whole session of the job: for each place of its marks, in the order of its marks
/// files, and each fact of its set in the order Ran, Went, Stayed, which visit of which task was the first to show it.
/// The tables are those of the job's listings. Each task of the session's phase is run once, alone and without services, also
/// where the job has some. Memory is linear in the places, beside one task's storage at a time, and all of it is taken before
/// the first byte is written, so NoMemory leaves the sink as it was. Failed comes only where the sink's count of faults rose;
/// the sink has then taken a first part of the evidence.
pub fn prove<K: Sink>(
    alloc: Global,
    sink: &mut K,
    job: &Job,
    tables: &Tables,
    s: SessNo,
) -> Result<(), ProveFault>
    requires from { 0 < s.0 }
    requires to { s.0 ≤ length job.now.sessions }
    requires whole { (session_of job.now s.0).by ≡ None }
    requires tables { AreCodes job.now.images tables.now }
    ensures whole { OnOk result (Appends (K.written sink.old) (K.written sink.new) (evidence job.now tables.now s.0)) }
    ensures fault { IfErr result (IsProveFault K.written K.faults sink.old sink.new (evidence job.now tables.now s.0)) }
    ensures later { K.faults sink.old ≤ K.faults sink.new }
    ensures facts { HaveFirsts job.now tables.now.places s.0 }
{
    let session = job.session(s);
    // For what it says of the tables: their places are all places, one table after the other.
    let _ = tables.range(0);
    let found = match find_firsts(alloc, job, tables, session.phase) {
        Ok(found) => found,
        Err(NoMemory) => return Err(ProveFault::NoMemory),
    };
    match write_evidence(sink, tables, &found, &session.modules) {
        Ok(()) => Ok(()),
        Err(_) => Err(ProveFault::Failed),
    }
}
