//! What is said of a generated job that was run.
ghost use Rattle.std.specs.Prelude.{◌≡◌, ◌<◌, ◌≤◌, ◌++◌, ◌∷◌, [], length, nat_eq, if◌then◌else◌};
ghost use Rattle.annotator.specs.Meaning.{mark_byte};
ghost use Rattle.cov_base.specs.declared.marks.Mark.TheVariants.{Not, Done, Branched, Fell, Both};
ghost use Rattle.report_text.specs.Conditions.{AreOfKinds};
ghost use Rattle.report_text.specs.Meaning.{mark_count, trial_line, amount_line, mark_line, sum_from};
ghost use Rattle.report_text.specs.Told.{trial};
ghost use Rattle.report_text.specs.Writes.{PrintsText};

use crate::writing::put;
use annotator::text::{add_number, add_text};
use arrayvec::ArrayVec;
use brk_table::Tables;
use cov_base::{Mark, PlaceNo, SessNo, TaskNo, mark_of};
use cov_outside::{Failed, Sink};
use session_book::{FactSets, Results};

/// How many places bear each mark.
#[derive(Clone, Copy)]
struct MarkCounts {
    not: u32,
    executed: u32,
    branched: u32,
    fell: u32,
    both: u32,
}

/// 1 where these are the same.
fn count_same(wanted: Mark, mark: Mark) -> u32
    ensures value { result ≡ (if nat_eq (mark_byte wanted) (mark_byte mark) then 1 else 0) }
    ensures most { result ≤ 1 }
{
    if wanted == mark { 1 } else { 0 }
}

/// The marks of all places by the sets of session 1.
fn count_marks<R: FactSets>(tables: &Tables, sets: &R) -> MarkCounts
    requires session { 0 < R.sessions sets.now }
    requires size { R.places sets.now ≡ length tables.now.places }
    requires within { AreOfKinds tables.now.places (R.set_of sets.now 1) }
    ensures not { result.not ≡ mark_count Not tables.now.places (R.set_of sets.now 1) }
    ensures executed { result.executed ≡ mark_count Done tables.now.places (R.set_of sets.now 1) }
    ensures branched { result.branched ≡ mark_count Branched tables.now.places (R.set_of sets.now 1) }
    ensures fell { result.fell ≡ mark_count Fell tables.now.places (R.set_of sets.now 1) }
    ensures both { result.both ≡ mark_count Both tables.now.places (R.set_of sets.now 1) }
{
    let mut counts = MarkCounts {
        not: 0,
        executed: 0,
        branched: 0,
        fell: 0,
        both: 0,
    };
    for n in 0..tables.len() {
        let set = sets.set(SessNo(1), PlaceNo(n));
        let mark = mark_of(tables.place(PlaceNo(n)).kind, set);
        counts.not += count_same(Mark::Not, mark);
        counts.executed += count_same(Mark::Done, mark);
        counts.branched += count_same(Mark::Branched, mark);
        counts.fell += count_same(Mark::Fell, mark);
        counts.both += count_same(Mark::Both, mark);
    }
    counts
}

/// The instructions that the first so many tasks have done together.
fn count_done<R: Results>(results: &R, tasks: u32) -> u64
    requires { tasks ≤ R.tasks results.now }
    ensures { result ≡ sum_from (λ t. (R.result_of results.now t).done) 0 tasks }
{
    let mut total: u64 = 0;
    for t in 0..tasks {
        total += u64::from(results.done(TaskNo(t)));
    }
    total
}

#[tactic(auto, unfolding(crate::specs::Meaning::trial_line))]
fn trial_line(number: u32, tasks: u32) -> ArrayVec<u8, 160>
    ensures { result.items ≡ trial_line number tasks ++ 10 ∷ [] }
{
    let mut line = ArrayVec::new();
    add_text(&mut line, b"COVERAGE TRIAL ");
    add_number(&mut line, u64::from(number));
    add_text(&mut line, b" TASKS ");
    add_number(&mut line, u64::from(tasks));
    line.push(b'\n');
    line
}

#[tactic(auto, unfolding(crate::specs::Meaning::amount_line))]
fn amount_line(places: u32, instructions: u64) -> ArrayVec<u8, 160>
    ensures { result.items ≡ amount_line places instructions ++ 10 ∷ [] }
{
    let mut line = ArrayVec::new();
    add_text(&mut line, b"PLACES ");
    add_number(&mut line, u64::from(places));
    add_text(&mut line, b" INSTRUCTIONS ");
    add_number(&mut line, instructions);
    line.push(b'\n');
    line
}

#[tactic(auto, unfolding(crate::specs::Meaning::mark_line))]
fn mark_line(counts: MarkCounts) -> ArrayVec<u8, 160>
    ensures { result.items ≡ mark_line counts.not counts.executed counts.branched counts.fell counts.both ++ 10 ∷ [] }
{
    let mut line = ArrayVec::new();
    add_text(&mut line, b"MARKS NOT ");
    add_number(&mut line, u64::from(counts.not));
    add_text(&mut line, b" EXECUTED ");
    add_number(&mut line, u64::from(counts.executed));
    add_text(&mut line, b" BRANCHED ");
    add_number(&mut line, u64::from(counts.branched));
    add_text(&mut line, b" FELL ");
    add_number(&mut line, u64::from(counts.fell));
    add_text(&mut line, b" BOTH ");
    add_number(&mut line, u64::from(counts.both));
    line.push(b'\n');
    line
}

/// What is said of the generated job of a number, of so many tasks, that was run: its number, its places and the
/// instructions of all its tasks, and how many places bear each mark. Failed only where the sink's count of faults rose;
/// the sink has then taken a first part of the lines. Takes no memory.
pub fn trial_text<K: Sink, R: Results + FactSets>(
    sink: &mut K,
    number: u32,
    tasks: u32,
    tables: &Tables,
    results: &R,
) -> Result<(), Failed>
    requires tasks { tasks ≤ R.tasks results.now }
    requires session { 0 < R.sessions results.now }
    requires size { R.places results.now ≡ length tables.now.places }
    requires within { AreOfKinds tables.now.places (R.set_of results.now 1) }
    ensures { PrintsText K.Sink sink.old sink.new result
        (trial R.Results R.FactSets number tasks tables.now results.now) }
{
    let done = count_done(results, tasks);
    let counts = count_marks(tables, results);
    put(sink, trial_line(number, tasks))?;
    put(sink, amount_line(tables.len(), done))?;
    put(sink, mark_line(counts))
}
