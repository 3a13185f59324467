//! The whole report.
ghost use Rattle.std.specs.Prelude.{◌≡◌, ◌≤◌, ◌++◌, ◌∷◌, [], length};
ghost use Rattle.report_text.specs.Conditions.{AreTablesOf, AreResultsOf, AreSetsOf};
ghost use Rattle.report_text.specs.Meaning.{task_parts};
ghost use Rattle.report_text.specs.Sessions.{session_parts};
ghost use Rattle.report_text.specs.Told.{results_by, report_by};
ghost use Rattle.report_text.specs.Writes.{Prints, PrintsText};

use crate::sessions::session_part;
use crate::tasks::task_text;
use crate::writing::put;
use annotator::text::add_text;
use arrayvec::ArrayVec;
use brk_table::Tables;
use cov_base::{SessNo, TaskNo};
use cov_outside::{Failed, Sink};
use session_book::{FactSets, Job, Results};

/// A line of these words, at most 100 bytes, and its LF.
pub fn words_line(words: &[u8]) -> ArrayVec<u8, 160>
    requires { length words.now ≤ 100 }
    ensures { result.items ≡ words.now ++ 10 ∷ [] }
{
    let mut line = ArrayVec::new();
    add_text(&mut line, words);
    line.push(b'\n');
    line
}

/// The tasks' parts, in job order. Failed only where the sink's count of faults rose; the sink has then taken a first part
/// of them. Takes no memory.
pub fn tasks_text<K: Sink, R: Results>(sink: &mut K, job: &Job, results: &R) -> Result<(), Failed>
    requires { AreResultsOf job.now (R.tasks results.now) (R.result_of results.now) }
    ensures { Prints K.Sink sink.old sink.new result (task_parts job.now (R.result_of results.now)) }
{
    for t in 0..job.tasks.len() {
        task_text(sink, job, results, TaskNo(t as u32))?;
    }
    Ok(())
}

/// The sessions' parts.
fn sessions_text<K: Sink, R: FactSets>(
    sink: &mut K,
    job: &Job,
    tables: &Tables,
    sets: &R,
) -> Result<(), Failed>
    requires tables { AreTablesOf job.now tables.now }
    requires sets { AreSetsOf job.now tables.now (R.sessions sets.now) (R.places sets.now) (R.set_of sets.now) }
    ensures { Prints K.Sink sink.old sink.new result (session_parts job.now tables.now (R.set_of sets.now)) }
{
    for i in 0..job.sessions.len() {
        session_part(sink, job, tables, sets, SessNo(i as u32 + 1))?;
    }
    Ok(())
}

/// The report from its second line on: the tasks' parts, the sessions' parts and the last line. Failed only where the
/// sink's count of faults rose; the sink has then taken a first part of these lines. Takes no memory.
pub fn results_part<K: Sink, R: Results + FactSets>(
    sink: &mut K,
    job: &Job,
    tables: &Tables,
    results: &R,
) -> Result<(), Failed>
    requires tables { AreTablesOf job.now tables.now }
    requires results { AreResultsOf job.now (R.tasks results.now) (R.result_of results.now) }
    requires sets { AreSetsOf job.now tables.now (R.sessions results.now) (R.places results.now) (R.set_of results.now) }
    ensures { Prints K.Sink sink.old sink.new result (results_by R.Results R.FactSets job.now tables.now results.now) }
{
    tasks_text(sink, job, results)?;
    sessions_text(sink, job, tables, results)?;
    put(sink, words_line(b"END"))
}

/// The report of a job's tasks and sessions, line by line. Failed only where the sink's count of faults rose; the
/// sink has then taken a first part of the report. Takes no memory.
pub fn report<K: Sink, R: Results + FactSets>(
    sink: &mut K,
    job: &Job,
    tables: &Tables,
    results: &R,
) -> Result<(), Failed>
    requires tables { AreTablesOf job.now tables.now }
    requires results { AreResultsOf job.now (R.tasks results.now) (R.result_of results.now) }
    requires sets { AreSetsOf job.now tables.now (R.sessions results.now) (R.places results.now) (R.set_of results.now) }
    ensures { PrintsText K.Sink sink.old sink.new result (report_by R.Results R.FactSets job.now tables.now results.now) }
{
    put(sink, words_line(b"COVERAGE REPORT"))?;
    results_part(sink, job, tables, results)
}
