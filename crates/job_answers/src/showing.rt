//! A session's listings, marked by a marks file.
ghost use Rattle.std.specs.Prelude.{◌<◌, ◌≤◌, length, IfOk, IfErr};
ghost use Rattle.job_input.specs.Tables.{IsReadyJob};
ghost use Rattle.job_answers.specs.Meaning.{BeginsWith, IsShown, show_text};
ghost use Rattle.job_answers.specs.Ready.{view_of};
ghost use Rattle.refusals.specs.Meaning.{refusal};
ghost use Rattle.job_answers.specs.Files.{IsFileOf, IsFileRefusal, IsShowRefusal};
ghost use Rattle.report_text.specs.Conditions.{AreTablesOf};
ghost use Rattle.report_text.specs.Writes.{PrintsText};
ghost use Rattle.phase_plan.specs.Sets.{HasSetsOf};
ghost use Rattle.session_marks.specs.FromFile.{set_at, sets_of_one};
ghost use Rattle.refusals.specs.Told.{Tells};

use crate::ready::Ready;
use brk_table::Tables;
use cov_base::SessNo;
use cov_outside::{Failed, Sink};
use marks_file::{Marks, MarksFault, read};
use refusals::{Refusal, Status, bad_marks, no_memory, other_table, status_of, told};
use report_text::{put, session_part, words_line};
use session_book::{FactSets, Job};
use session_marks::{FileSets, SetsFault, file_sets};
use std::alloc::Global;

/// The one marks file that the bytes are.
fn one_file(alloc: Global, rest: &[u8]) -> Result<Marks, Refusal>
    ensures file { IfOk result (λ m. BeginsWith rest.now m.modules (length rest.now)) }
    ensures refused { IfErr result (IsFileRefusal rest.now) }
{
    match read(alloc, rest, 0) {
        Ok((marks, end)) => {
            if end < rest.len() {
                return Err(bad_marks(end));
            }
            // For the rules of a file, which its type keeps.
            let _modules = &marks.modules;
            Ok(marks)
        }
        Err(MarksFault::BadMarks { offset }) => Err(bad_marks(offset)),
        Err(MarksFault::NoMemory) => Err(no_memory()),
    }
}

/// The sets that the bytes behind a job have for session s of it, or why they have none.
fn sets_behind(
    alloc: Global,
    job: &Job,
    tables: &Tables,
    s: SessNo,
    rest: &[u8],
) -> Result<FileSets, Refusal>
    requires from { 0 < s.0 }
    requires to { s.0 ≤ length job.now.sessions }
    requires ready { IsReadyJob job.now tables.now }
    ensures file { IfOk result (λ f. IsFileOf job.now tables.now s.0 rest.now (set_at f.sets)) }
    ensures sets { IfOk result (λ f. HasSetsOf job.now tables.now f.session (length f.sets) (sets_of_one f) s.0) }
    ensures refused { IfErr result (IsShowRefusal job.now tables.now s.0 rest.now) }
{
    let marks = one_file(alloc, rest)?;
    match file_sets(alloc, job, tables, s, &marks) {
        Ok(sets) => Ok(sets),
        Err(SetsFault::Other(other)) => Err(other_table(&other)),
        Err(SetsFault::NoMemory) => Err(no_memory()),
    }
}

/// Writes the listings of session s of the job by these sets.
fn show_text<K: Sink, R: FactSets>(
    sink: &mut K,
    job: &Job,
    tables: &Tables,
    sets: &R,
    s: SessNo,
) -> Result<(), Failed>
    requires from { 0 < s.0 }
    requires to { s.0 ≤ length job.now.sessions }
    requires tables { AreTablesOf job.now tables.now }
    requires sets { HasSetsOf job.now tables.now (R.sessions sets.now) (R.places sets.now) (R.set_of sets.now) s.0 }
    ensures { PrintsText K.Sink sink.old sink.new result (show_text job.now tables.now (R.set_of sets.now s.0) s.0) }
{
    put(sink, words_line(b"COVERAGE SHOW"))?;
    session_part(sink, job, tables, sets, s)?;
    put(sink, words_line(b"END"))
}

/// Writes the listings of the session that is named, marked by the file that stands behind a job. Refused by 10 where what stands
/// there isn't one marks file, and by 11 where the file's table isn't the session's.
pub fn write_shown<K: Sink>(alloc: Global, ready: &Ready, sink: &mut K) -> Status
    requires from { 0 < ready.now.session.0 }
    requires to { ready.now.session.0 ≤ length ready.now.input.job.sessions }
    requires job { IsReadyJob ready.now.input.job ready.now.tables }
    ensures { Tells K.Sink (IsShown (view_of ready.now)) sink.old sink.new result }
{
    let job = &ready.input.job;
    let tables = &ready.tables;
    match sets_behind(alloc, job, tables, ready.session, &ready.input.rest) {
        Ok(sets) => status_of(show_text(sink, job, tables, &sets, ready.session)),
        Err(refusal) => told(sink, &refusal.line, refusal.reason),
    }
}
