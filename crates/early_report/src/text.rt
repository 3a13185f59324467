//! The text of an early report: behind each controlled session's part, whether and when its sets were taken.
ghost use Rattle.std.specs.Prelude.{◌≡◌, ◌<◌, ◌≤◌, ◌++◌, ◌∷◌, [], length, is_some, if◌then◌else◌};
ghost use Rattle.phase_plan.specs.Sets.{HasSetsOf};
ghost use Rattle.report_text.specs.Conditions.{AreTablesOf, AreResultsOf, AreSetsOf};
ghost use Rattle.report_text.specs.Writes.{Prints};
ghost use Rattle.early_report.specs.Meaning.{drain_line};
ghost use Rattle.early_report.specs.Text.{taken_at, drained_in, drained_by, drains_of, early_lines, early_parts, PrintsEarly};

use crate::drains::{Drain, Stage};
use annotator::text::{add_number, add_text};
use arrayvec::ArrayVec;
use brk_table::Tables;
use cov_base::SessNo;
use cov_outside::{Failed, Sink};
use report_text::{put, session_part, tasks_text, words_line};
use session_book::{FactSets, Job, Results};

/// The count at which a drain's sets were taken.
fn taken_at(drain: &Drain) -> Option<u32>
    ensures { result ≡ taken_at drain.now.stage drain.now.at }
{
    match drain.stage {
        Stage::Taken => Some(drain.at),
        Stage::Unused | Stage::Begun | Stage::Drained => None,
    }
}

/// What the session's drain among these tells of it.
fn drained_in(drains: &[Drain], s: SessNo) -> Option<u32>
    ensures { result ≡ drained_in drains.now s.0 }
{
    for drain in drains {
        if drain.session.0 == s.0 {
            return taken_at(drain);
        }
    }
    None
}

/// What the drains of the session's controller tell of it.
fn drained_by(lists: &[Vec<Drain>], by: Option<u32>, s: SessNo) -> Option<u32>
    ensures { result ≡ drained_by (drains_of lists.now) by s.0 }
{
    match by {
        Some(t) => match lists.get(t as usize) {
            Some(drains) => drained_in(drains, s),
            None => None,
        },
        None => None,
    }
}

/// The line of a session with a controller.
#[tactic(auto, unfolding(crate::specs::Meaning::drain_line))]
fn drain_line(drained: Option<u32>) -> ArrayVec<u8, 160>
    ensures { result.items ≡ drain_line drained ++ 10 ∷ [] }
{
    let mut line = ArrayVec::new();
    match drained {
        Some(count) => {
            add_text(&mut line, b"DRAINED COUNT ");
            add_number(&mut line, u64::from(count));
        }
        None => add_text(&mut line, b"NOT DRAINED"),
    }
    line.push(b'\n');
    line
}

/// That line, where the session has a controller.
fn drain_text<K: Sink>(sink: &mut K, by: Option<u32>, drained: Option<u32>) -> Result<(), Failed>
    ensures { Prints K.Sink sink.old sink.new result (if is_some by then drain_line drained ∷ [] else []) }
{
    match by {
        Some(_) => put(sink, drain_line(drained)),
        None => Ok(()),
    }
}

/// A session's part, and what its drain tells.
fn early_part<K: Sink, R: FactSets>(
    sink: &mut K,
    job: &Job,
    tables: &Tables,
    sets: &R,
    lists: &[Vec<Drain>],
    s: SessNo,
) -> Result<(), Failed>
    requires from { 0 < s.0 }
    requires to { s.0 ≤ length job.now.sessions }
    requires tables { AreTablesOf job.now tables.now }
    requires sets { HasSetsOf job.now tables.now (R.sessions sets.now) (R.places sets.now) (R.set_of sets.now) s.0 }
    ensures { Prints K.Sink sink.old sink.new result (early_lines job.now tables.now (R.set_of sets.now) lists.now s.0) }
{
    let session = job.session(s);
    session_part(sink, job, tables, sets, s)?;
    drain_text(sink, session.by, drained_by(lists, session.by, s))
}

/// The sessions' parts.
fn early_parts<K: Sink, R: FactSets>(
    sink: &mut K,
    job: &Job,
    tables: &Tables,
    sets: &R,
    lists: &[Vec<Drain>],
) -> Result<(), Failed>
    requires tables { AreTablesOf job.now tables.now }
    requires sets { AreSetsOf job.now tables.now (R.sessions sets.now) (R.places sets.now) (R.set_of sets.now) }
    ensures { Prints K.Sink sink.old sink.new result (early_parts job.now tables.now (R.set_of sets.now) lists.now) }
{
    for i in 0..job.sessions.len() {
        early_part(sink, job, tables, sets, lists, SessNo(i as u32 + 1))?;
    }
    Ok(())
}

/// The report of a job's tasks and sessions, line by line, and behind the part of each session with a controller the count
/// of the controller's instructions when the session's sets were taken, or that they weren't. The lists are the drains of
/// each task of the job, in job order. Failed only where the sink's count of faults rose; the sink has then taken a first
/// part of the text. Takes no memory.
pub fn early<K: Sink, R: Results + FactSets>(
    sink: &mut K,
    job: &Job,
    tables: &Tables,
    results: &R,
    lists: &[Vec<Drain>],
) -> Result<(), Failed>
    requires tables { AreTablesOf job.now tables.now }
    requires results { AreResultsOf job.now (R.tasks results.now) (R.result_of results.now) }
    requires sets { AreSetsOf job.now tables.now (R.sessions results.now) (R.places results.now) (R.set_of results.now) }
    ensures { PrintsEarly K.Sink R.Results R.FactSets job.now tables.now results.now lists.now sink.old sink.new result }
{
    put(sink, words_line(b"COVERAGE REPORT"))?;
    tasks_text(sink, job, results)?;
    early_parts(sink, job, tables, results, lists)?;
    put(sink, words_line(b"END"))
}
