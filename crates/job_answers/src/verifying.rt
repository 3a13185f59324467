//! Marks and evidence of a session, checked by another run of its tasks.
ghost use Rattle.std.specs.Prelude.{◌≡◌, ◌<◌, ◌≤◌, None, length, OnOk, IfOk, IfErr};
ghost use Rattle.job_input.specs.Tables.{IsReadyJob};
ghost use Rattle.job_answers.specs.Meaning.{HasVerified};
ghost use Rattle.job_answers.specs.Checked.{verify_refusal, IsStartRefusal, IsCheckRefusal, IsPassed};
ghost use Rattle.marks_file.specs.Meaning.{HasFile};
ghost use Rattle.session_book.specs.Meaning.{session_of};
ghost use Rattle.job_answers.specs.Calls.{IsChecked};
ghost use Rattle.refusals.specs.Told.{Tells};

use brk_table::Tables;
use cov_base::{Name, SessNo};
use cov_outside::Sink;
use evidence_check::{VerifyFault, verify};
use marks_file::{Marks, MarksFault, read};
use refusals::{
    Reason, Refusal, Status, bad_evidence_line, bad_marks, no_memory, other_table, refuted_line,
    told, verified_line,
};
use session_book::Job;
use session_marks::{SetsFault, file_sets};
use std::alloc::Global;

/// How marks and evidence that are not verified are told.
fn verify_refusal(fault: VerifyFault) -> Refusal
    ensures { result ≡ verify_refusal fault }
{
    match fault {
        VerifyFault::BadEvidence { offset } => Refusal {
            reason: Reason::BadEvidence,
            line: bad_evidence_line(offset),
        },
        VerifyFault::Refuted { row, fact } => Refusal {
            reason: Reason::Refuted,
            line: refuted_line(row, fact),
        },
        VerifyFault::NoMemory => no_memory(),
    }
}

/// The marks file that the bytes begin with, and the offset past it.
fn first_file(alloc: Global, rest: &[u8]) -> Result<(Marks, usize), Refusal>
    ensures file { IfOk result (λ r. HasFile 0 rest.now r.0 r.1) }
    ensures inside { IfOk result (λ r. r.1 ≤ length rest.now) }
    ensures refused { IfErr result (IsStartRefusal rest.now) }
{
    match read(alloc, rest, 0) {
        Ok(first) => Ok(first),
        Err(MarksFault::BadMarks { offset }) => Err(bad_marks(offset)),
        Err(MarksFault::NoMemory) => Err(no_memory()),
    }
}

/// The number of facts of which the marks and the evidence behind a job are true for session s of it, or why they are not.
fn facts_behind(
    alloc: Global,
    job: &Job,
    tables: &Tables,
    s: SessNo,
    rest: &[u8],
) -> Result<u32, Refusal>
    requires from { 0 < s.0 }
    requires to { s.0 ≤ length job.now.sessions }
    requires whole { (session_of job.now s.0).by ≡ None }
    requires ready { IsReadyJob job.now tables.now }
    ensures verdict { IfOk result (IsPassed job.now tables.now s.0 rest.now) }
    ensures verified { OnOk result (HasVerified job.now tables.now s.0 rest.now) }
    ensures refused { IfErr result (IsCheckRefusal job.now tables.now s.0 rest.now) }
{
    let (marks, end) = first_file(alloc, rest)?;
    // For the rules of a file, which its type keeps.
    let _modules = &marks.modules;
    match file_sets(alloc, job, tables, s, &marks) {
        Ok(_) => (),
        Err(SetsFault::Other(other)) => return Err(other_table(&other)),
        Err(SetsFault::NoMemory) => return Err(no_memory()),
    }
    match verify(alloc, job, tables, s, &marks, &rest[end..]) {
        Ok(facts) => Ok(facts),
        Err(fault) => Err(verify_refusal(fault)),
    }
}

/// Says whether the marks and the evidence that stand behind a job are those of session s of it, of that name, which has no
/// controller. Refused by 10 where no marks file begins there, by 11 where its table isn't the session's, by 15 at the evidence's
/// first bad field, and by 16 at the first claim that the session's executions refute.
pub fn write_verdict<K: Sink>(
    alloc: Global,
    name: &Name,
    job: &Job,
    tables: &Tables,
    s: SessNo,
    rest: &[u8],
    sink: &mut K,
) -> Status
    requires from { 0 < s.0 }
    requires to { s.0 ≤ length job.now.sessions }
    requires whole { (session_of job.now s.0).by ≡ None }
    requires job { IsReadyJob job.now tables.now }
    ensures { Tells K.Sink (IsChecked name.now job.now tables.now s.0 rest.now) sink.old sink.new result }
{
    match facts_behind(alloc, job, tables, s, rest) {
        Ok(facts) => told(sink, &verified_line(name, facts), Reason::Served),
        Err(refusal) => told(sink, &refusal.line, refusal.reason),
    }
}
