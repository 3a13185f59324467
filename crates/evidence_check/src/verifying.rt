//! Marks and evidence checked by another run of each task.
ghost use Rattle.std.specs.Prelude.{◌≡◌, ◌<◌, ◌≤◌, length, OnOk, IfOk, IfErr, None};
ghost use Rattle.brk_table.specs.Kept.{AreCodes};
ghost use Rattle.session_book.specs.Meaning.{session_of};
ghost use Rattle.session_marks.specs.FromFile.{IsOwn};
ghost use Rattle.evidence_check.specs.Meaning.{facts_of_modules, IsVerified};
ghost use Rattle.evidence_check.specs.Verified.{PassesVerified, IsVerifyFault};

use crate::claims::check_modules;
use crate::counting::facts_of_modules;
use crate::fields::bad_field;
use crate::runs::find_firsts;
use brk_table::Tables;
use cov_base::{Fact, NoMemory, SessNo};
use marks_file::Marks;
use session_book::Job;
use std::alloc::Global;

/// Why marks and evidence were not verified.
#[derive(Clone, Copy)]
pub enum VerifyFault {
    /// The offset, from the evidence's first byte, of the first field that breaks its rule or is cut short by the end,
    /// or of what stands behind the last entry.
    BadEvidence { offset: usize },
    /// The first row of the table, from 0, and the first fact in the order Ran, Went, Stayed, of which the set says
    /// other than the session's executions, or the entry other than the first visit that shows it.
    Refuted { row: u32, fact: Fact },
    NoMemory,
}

/// Verifies that the marks have the sets of a whole session of the job, and that the bytes are their evidence as `prove`
/// writes it; the answer is the number of facts. The marks have the table of the session, whatever their name and runs.
/// Evidence is read as so many entries as the marks have facts, and BadEvidence comes before Refuted. Each task of the
/// session's phase is run once, as `prove` runs it, and nothing is kept of its trace: memory is linear in the places,
/// beside one task's storage at a time.
pub fn verify(
    alloc: Global,
    job: &Job,
    tables: &Tables,
    s: SessNo,
    marks: &Marks,
    evidence: &[u8],
) -> Result<u32, VerifyFault>
    requires from { 0 < s.0 }
    requires to { s.0 ≤ length job.now.sessions }
    requires whole { (session_of job.now s.0).by ≡ None }
    requires tables { AreCodes job.now.images tables.now }
    requires own { IsOwn job.now tables.now s.0 marks.now.modules }
    ensures facts { IfOk result (λ n. n ≡ facts_of_modules marks.now.modules) }
    ensures verified { OnOk result (IsVerified job.now tables.now s.0 marks.now.modules evidence.now) }
    ensures fault { IfErr result (IsVerifyFault job.now tables.now s.0 marks.now.modules evidence.now) }
    ensures passes { PassesVerified job.now tables.now s.0 marks.now.modules evidence.now }
{
    let facts = facts_of_modules(&marks.modules);
    if let Some(offset) = bad_field(evidence, facts, job.task_count()) {
        return Err(VerifyFault::BadEvidence { offset });
    }
    let session = job.session(s);
    // For what it says of the tables: their places are all places, one table after the other.
    let _ = tables.range(0);
    let found = match find_firsts(alloc, job, tables, session.phase) {
        Ok(found) => found,
        Err(NoMemory) => return Err(VerifyFault::NoMemory),
    };
    match check_modules(evidence, tables, &marks.modules, &session.modules, &found) {
        Some((row, fact)) => Err(VerifyFault::Refuted { row, fact }),
        None => Ok(facts),
    }
}
