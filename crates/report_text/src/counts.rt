//! The text of a count: what each task has come to, and how often each session's executions gave each fact.
ghost use Rattle.std.specs.Prelude.{◌≡◌, ◌+◌, ◌<◌, ◌≤◌, ◌++◌, ◌∷◌, [], length, codes, decimal, All};
ghost use Rattle.arrayvec.specs.ArrayVec.{array_vec_len};
ghost use Rattle.report_text.specs.Conditions.{AreTablesOf, AreResultsOf, HasSession};
ghost use Rattle.report_text.specs.Meaning.{fact_counts, count_line, module_counts, session_counts};
ghost use Rattle.report_text.specs.Sessions.{lines_by, count_parts};
ghost use Rattle.report_text.specs.Told.{counts_by};
ghost use Rattle.report_text.specs.Writes.{Prints, PrintsText};

use crate::places::module_line;
use crate::sessions::{location, module_name, phase_name, session_line};
use crate::whole::{tasks_text, words_line};
use crate::writing::put;
use annotator::text::{add_hex, add_number, add_text};
use arrayvec::ArrayVec;
use brk_table::Tables;
use cov_base::{Fact, Kind, PlaceNo, SessNo};
use cov_outside::{Failed, Sink};
use session_book::{FactCounts, Job, Results};

/// Adds a blank and a number.
fn add_count(line: &mut ArrayVec<u8, 160>, count: u64)
    requires { array_vec_len line.old ≤ 80 }
    ensures items { line.new.items ≡ line.old.items ++ (codes " " ++ decimal count) }
    ensures short { array_vec_len line.new ≤ array_vec_len line.old + 21 }
{
    add_text(line, b" ");
    add_number(line, count);
}

/// Adds the counts of the facts of the place's kind.
#[tactic(auto, unfolding(crate::specs::Meaning::fact_counts))]
fn add_facts<R: FactCounts>(
    line: &mut ArrayVec<u8, 160>,
    kind: Kind,
    counts: &R,
    s: SessNo,
    n: PlaceNo,
)
    requires line { array_vec_len line.old ≤ 40 }
    requires from { 0 < s.0 }
    requires to { s.0 < R.sessions counts.now + 1 }
    requires place { n.0 < R.places counts.now }
    ensures items { line.new.items ≡ line.old.items ++ fact_counts kind (R.count_of counts.now s.0 n.0) }
    ensures short { array_vec_len line.new ≤ array_vec_len line.old + 42 }
{
    match kind {
        Kind::Straight => add_count(line, counts.count(s, n, Fact::Ran)),
        Kind::Conditional => {
            add_count(line, counts.count(s, n, Fact::Went));
            add_count(line, counts.count(s, n, Fact::Stayed));
        }
    }
}

/// A place's line by its location, below 2^24, with its counts in session s: how often it ran, or how often it branched and
/// fell through.
#[tactic(auto, unfolding(crate::specs::Meaning::count_line))]
pub fn count_line<R: FactCounts>(
    location: u32,
    kind: Kind,
    counts: &R,
    s: SessNo,
    n: PlaceNo,
) -> ArrayVec<u8, 160>
    requires location { location < 16777216 }
    requires from { 0 < s.0 }
    requires to { s.0 < R.sessions counts.now + 1 }
    requires place { n.0 < R.places counts.now }
    ensures { result.items ≡ count_line location kind (R.count_of counts.now s.0 n.0) ++ 10 ∷ [] }
{
    let mut line = ArrayVec::new();
    add_text(&mut line, b"COUNT ");
    add_hex(&mut line, location, 6);
    add_facts(&mut line, kind, counts, s, n);
    line.push(b'\n');
    line
}

/// A module's name and places, with their counts.
fn module_counts<K: Sink, R: FactCounts>(
    sink: &mut K,
    job: &Job,
    tables: &Tables,
    counts: &R,
    s: SessNo,
    m: u32,
) -> Result<(), Failed>
    requires module { m < length job.now.images }
    requires tables { AreTablesOf job.now tables.now }
    requires session { HasSession tables.now (R.sessions counts.now) (R.places counts.now) s.0 }
    ensures { Prints K.Sink sink.old sink.new result (module_counts job.now tables.now (R.count_of counts.now s.0) m) }
{
    let (first, past) = tables.range(m);
    put(sink, module_line(module_name(job, m), past - first))?;
    for n in first..past {
        let place = tables.place(PlaceNo(n));
        put(
            sink,
            count_line(location(job, place), place.kind, counts, s, PlaceNo(n)),
        )?;
    }
    Ok(())
}

/// The modules' counts, in the order of the session's card.
fn modules_counts<K: Sink, R: FactCounts>(
    sink: &mut K,
    job: &Job,
    tables: &Tables,
    counts: &R,
    s: SessNo,
    modules: &[u32],
) -> Result<(), Failed>
    requires modules { All (λ m. m < length job.now.images) modules.now }
    requires tables { AreTablesOf job.now tables.now }
    requires session { HasSession tables.now (R.sessions counts.now) (R.places counts.now) s.0 }
    ensures { Prints K.Sink sink.old sink.new result
        (lines_by job.now tables.now (R.count_of counts.now s.0) modules.now) }
{
    for m in modules {
        module_counts(sink, job, tables, counts, s, *m)?;
    }
    Ok(())
}

/// A session's counts.
fn session_counts<K: Sink, R: FactCounts>(
    sink: &mut K,
    job: &Job,
    tables: &Tables,
    counts: &R,
    s: SessNo,
) -> Result<(), Failed>
    requires from { 0 < s.0 }
    requires to { s.0 ≤ length job.now.sessions }
    requires tables { AreTablesOf job.now tables.now }
    requires count { R.sessions counts.now ≡ length job.now.sessions }
    requires size { R.places counts.now ≡ length tables.now.places }
    ensures { Prints K.Sink sink.old sink.new result (session_counts job.now tables.now (R.count_of counts.now) s.0) }
{
    let session = job.session(s);
    put(
        sink,
        session_line(&session.name, phase_name(job, session.phase)),
    )?;
    modules_counts(sink, job, tables, counts, s, &session.modules)
}

/// The sessions' counts.
fn sessions_counts<K: Sink, R: FactCounts>(
    sink: &mut K,
    job: &Job,
    tables: &Tables,
    counts: &R,
) -> Result<(), Failed>
    requires tables { AreTablesOf job.now tables.now }
    requires count { R.sessions counts.now ≡ length job.now.sessions }
    requires size { R.places counts.now ≡ length tables.now.places }
    ensures { Prints K.Sink sink.old sink.new result (count_parts job.now tables.now (R.count_of counts.now)) }
{
    for i in 0..job.sessions.len() {
        session_counts(sink, job, tables, counts, SessNo(i as u32 + 1))?;
    }
    Ok(())
}

/// The counts of a job's sessions behind its tasks: for each place of a session's modules how often it ran, or how often
/// it branched and how often it fell through. Failed only where the sink's count of faults rose; the sink has then taken
/// a first part of the text. Takes no memory.
pub fn count_text<K: Sink, R: Results + FactCounts>(
    sink: &mut K,
    job: &Job,
    tables: &Tables,
    results: &R,
) -> Result<(), Failed>
    requires tables { AreTablesOf job.now tables.now }
    requires results { AreResultsOf job.now (R.tasks results.now) (R.result_of results.now) }
    requires count { R.sessions results.now ≡ length job.now.sessions }
    requires size { R.places results.now ≡ length tables.now.places }
    ensures { PrintsText K.Sink sink.old sink.new result
        (counts_by R.Results R.FactCounts job.now tables.now results.now) }
{
    put(sink, words_line(b"COVERAGE COUNT"))?;
    tasks_text(sink, job, results)?;
    sessions_counts(sink, job, tables, results)?;
    put(sink, words_line(b"END"))
}
