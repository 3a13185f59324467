//! What a report says of a session.
ghost use Rattle.std.specs.Prelude.{◌≡◌, ◌+◌, ◌-◌, ◌<◌, ◌≤◌, ◌++◌, ◌∷◌, [], length, All, IfSome, unwrap_or, option_map, if◌then◌else◌, get_or};
ghost use Rattle.annotator.specs.Meaning.{annotated};
ghost use Rattle.cov_base.specs.Meaning.{full_of};
ghost use Rattle.module_area.specs.Meaning.{fact_count};
ghost use Rattle.brk_table.specs.Places.{IsIn, IsPlace};
ghost use Rattle.report_text.specs.Conditions.{AreTablesOf, HasModule, HasSession};
ghost use Rattle.report_text.specs.Meaning.{lacks, location_of, last_byte_of, line_mark, marked_lines, marked_listing, run_line, executed_count, shown_count, possible_count, totals_line, session_line, module_lines};
ghost use Rattle.report_text.specs.Sessions.{open_run, runs_from, lines_of, session_text};
ghost use Rattle.session_book.specs.Meaning.{module_of};
ghost use Rattle.phase_plan.specs.Sets.{HasSetsOf, AreWithin};
ghost use Rattle.report_text.specs.declared.sessions.Run.{Run};
ghost use Rattle.report_text.specs.Writes.{Prints, PrintsText};

use crate::words::add_name;
use crate::writing::put;
use annotator::annotate;
use annotator::text::{add_hex, add_number, add_text};
use arrayvec::ArrayVec;
use brk_table::Tables;
use cov_base::{Bits, Fact, INPUT_LIMIT, Kind, LINE_LIMIT, Mark, Name, PlaceNo, SessNo, mark_of};
use cov_outside::{Failed, Sink};
use listing_reader::ListingLines;
use module_area::Place;
use session_book::{FactSets, Job};

/// The names of a session and of its phase.
#[tactic(auto, unfolding(crate::specs::Meaning::session_line))]
pub(crate) fn session_line(name: &Name, phase: &Name) -> ArrayVec<u8, 160>
    ensures { result.items ≡ session_line name.now phase.now ++ 10 ∷ [] }
{
    let mut line = ArrayVec::new();
    add_text(&mut line, b"SESSION ");
    add_name(&mut line, name);
    add_text(&mut line, b" PHASE ");
    add_name(&mut line, phase);
    line.push(b'\n');
    line
}

/// Locations, each below 2^24.
#[tactic(auto, unfolding(crate::specs::Meaning::run_line))]
fn run_line(run: Run) -> ArrayVec<u8, 160>
    requires from { run.from < 16777216 }
    requires last { run.last < 16777216 }
    ensures { result.items ≡ run_line run.from run.last ++ 10 ∷ [] }
{
    let mut line = ArrayVec::new();
    add_text(&mut line, b"NOT EXECUTED ");
    add_hex(&mut line, run.from, 6);
    add_text(&mut line, b"-");
    add_hex(&mut line, run.last, 6);
    line.push(b'\n');
    line
}

/// What the sets of a module's places come to.
#[tactic(auto, unfolding(crate::specs::Meaning::totals_line))]
fn totals_line(name: &Name, places: u32, counts: Counts) -> ArrayVec<u8, 160>
    ensures { result.items ≡ totals_line name.now places counts.executed counts.facts counts.possible ++ 10 ∷ [] }
{
    let mut line = ArrayVec::new();
    add_text(&mut line, b"MODULE ");
    add_name(&mut line, name);
    add_text(&mut line, b" PLACES ");
    add_number(&mut line, u64::from(places));
    add_text(&mut line, b" EXECUTED ");
    add_number(&mut line, u64::from(counts.executed));
    add_text(&mut line, b" FACTS ");
    add_number(&mut line, u64::from(counts.facts));
    add_text(&mut line, b" OF ");
    add_number(&mut line, u64::from(counts.possible));
    line.push(b'\n');
    line
}

/// A listing line with its mark.
fn marked_line(line: &[u8], mark: Mark) -> ArrayVec<u8, 160>
    requires { length line.now ≤ LINE_LIMIT }
    ensures { result.items ≡ annotated mark line.now ++ 10 ∷ [] }
{
    let mut marked = annotate(line, mark);
    marked.push(b'\n');
    marked
}

/// Places that follow each other without a fact: the location of the first, and of the last one's last byte.
#[derive(Clone, Copy)]
struct Run {
    from: u32,
    last: u32,
}

/// Places with a fact, facts, and facts that there can be.
#[derive(Clone, Copy)]
struct Counts {
    executed: u32,
    facts: u32,
    possible: u32,
}

/// Whether the set has no fact.
fn lacks(set: Bits) -> bool
    ensures { result ≡ lacks set }
{
    !set.has(Fact::Ran) && (!set.has(Fact::Went) && !set.has(Fact::Stayed))
}

/// 1 where the set has a fact.
fn count_executed(set: Bits) -> u32
    ensures value { result ≡ (if lacks set then 0 else 1) }
    ensures most { result ≤ 1 }
{
    if lacks(set) { 0 } else { 1 }
}

/// The number of facts.
fn count_facts(set: Bits) -> u32
    ensures value { result ≡ fact_count set }
    ensures most { result ≤ 3 }
{
    u32::from(set.has(Fact::Ran))
        + u32::from(set.has(Fact::Went))
        + u32::from(set.has(Fact::Stayed))
}

/// The number of facts that there can be.
fn count_possible(kind: Kind) -> u32
    ensures value { result ≡ fact_count (full_of kind) }
    ensures most { result ≤ 3 }
{
    match kind {
        Kind::Straight => 1,
        Kind::Conditional => 2,
    }
}

/// A place's location in its module.
pub fn location(job: &Job, place: &Place) -> u32
    requires { IsIn job.now.images place.now }
    ensures value { result ≡ location_of job.now place.now }
    ensures below { result < 16777216 }
{
    place.at.get() - job.images.0[place.module as usize].base.get()
}

/// The location of a place's last byte.
#[tactic(auto, using(crate::proofs::PlaceFacts::some_length))]
fn last_byte(job: &Job, place: &Place) -> u32
    requires within { IsIn job.now.images place.now }
    requires place { IsPlace place.now }
    ensures value { result ≡ last_byte_of job.now place.now }
    ensures below { result < 16777216 }
{
    location(job, place) + u32::from(place.len) - 1
}

/// What the sets of the session come to at the places from `first` on, below `past`.
fn count<R: FactSets>(tables: &Tables, sets: &R, s: SessNo, first: u32, past: u32) -> Counts
    requires session { HasSession tables.now (R.sessions sets.now) (R.places sets.now) s.0 }
    requires range { first ≤ past }
    requires exist { past ≤ length tables.now.places }
    ensures executed { result.executed ≡ executed_count (R.set_of sets.now s.0) first (past - first) }
    ensures facts { result.facts ≡ shown_count (R.set_of sets.now s.0) first (past - first) }
    ensures possible { result.possible ≡ possible_count tables.now.places first (past - first) }
{
    let mut counts = Counts {
        executed: 0,
        facts: 0,
        possible: 0,
    };
    for n in first..past {
        let kind = tables.place(PlaceNo(n)).kind;
        let set = sets.set(s, PlaceNo(n));
        counts.executed += count_executed(set);
        counts.facts += count_facts(set);
        counts.possible += count_possible(kind);
    }
    counts
}

/// The mark of line k of module m's listing.
fn mark_at<R: FactSets>(tables: &Tables, sets: &R, s: SessNo, m: u32, k: u32) -> Mark
    requires { HasModule tables.now (R.sessions sets.now) (R.places sets.now) (R.set_of sets.now s.0) s.0 m }
    ensures { result ≡ line_mark tables.now (R.set_of sets.now s.0) m k }
{
    match tables.line(m, k) {
        Some(n) => mark_of(tables.place(n).kind, sets.set(s, n)),
        None => Mark::Text,
    }
}

/// A listing with marks.
fn listing_part<K: Sink, R: FactSets>(
    sink: &mut K,
    lines: &ListingLines,
    tables: &Tables,
    sets: &R,
    s: SessNo,
    m: u32,
) -> Result<(), Failed>
    requires lines { length lines.now ≤ INPUT_LIMIT }
    requires short { All (λ line. length line ≤ LINE_LIMIT) lines.now }
    requires sets { HasModule tables.now (R.sessions sets.now) (R.places sets.now) (R.set_of sets.now s.0) s.0 m }
    ensures { Prints K.Sink sink.old sink.new result (marked_lines tables.now (R.set_of sets.now s.0) m lines.now) }
{
    for i in 0..lines.len() {
        let mark = mark_at(tables, sets, s, m, i as u32 + 1);
        put(sink, marked_line(lines.line(i), mark))?;
    }
    Ok(())
}

/// The run that goes on with a place, or begins there.
fn with_place(run: Option<Run>, job: &Job, place: &Place) -> Run
    requires within { IsIn job.now.images place.now }
    requires place { IsPlace place.now }
    requires run { IfSome run (λ r. r.from < 16777216) }
    ensures from { result.from ≡ unwrap_or (option_map (λ (r : Run). r.from) run) (location_of job.now place.now) }
    ensures last { result.last ≡ last_byte_of job.now place.now }
    ensures low { result.from < 16777216 }
    ensures high { result.last < 16777216 }
{
    let from = match run {
        Some(begun) => begun.from,
        None => location(job, place),
    };
    Run {
        from,
        last: last_byte(job, place),
    }
}

/// The run that has come to its end, if there is one.
fn run_part<K: Sink>(sink: &mut K, run: Option<Run>) -> Result<(), Failed>
    requires from { IfSome run (λ r. r.from < 16777216) }
    requires last { IfSome run (λ r. r.last < 16777216) }
    ensures { Prints K.Sink sink.old sink.new result (open_run run) }
{
    match run {
        Some(done) => put(sink, run_line(done)),
        None => Ok(()),
    }
}

/// The runs of places without facts.
fn runs_part<K: Sink, R: FactSets>(
    sink: &mut K,
    job: &Job,
    tables: &Tables,
    sets: &R,
    s: SessNo,
    first: u32,
    past: u32,
) -> Result<(), Failed>
    requires tables { AreTablesOf job.now tables.now }
    requires session { HasSession tables.now (R.sessions sets.now) (R.places sets.now) s.0 }
    requires range { first ≤ past }
    requires exist { past ≤ length tables.now.places }
    ensures { Prints K.Sink sink.old sink.new result (runs_from job.now tables.now (R.set_of sets.now s.0) first past) }
{
    let mut run = None;
    for n in first..past {
        if lacks(sets.set(s, PlaceNo(n))) {
            run = Some(with_place(run, job, tables.place(PlaceNo(n))));
        } else {
            run_part(sink, run)?;
            run = None;
        }
    }
    run_part(sink, run)
}

/// A module's name.
pub fn module_name(job: &Job, m: u32) -> &Name
    requires { m < length job.now.images }
    ensures { result.now ≡ (module_of job.now m).name }
{
    &job.images.0[m as usize].name
}

/// The listing of a module with marks, where it has one.
fn listing_text<K: Sink, R: FactSets>(
    sink: &mut K,
    job: &Job,
    tables: &Tables,
    sets: &R,
    s: SessNo,
    m: u32,
) -> Result<(), Failed>
    requires module { m < length job.now.images }
    requires tables { AreTablesOf job.now tables.now }
    requires sets { HasModule tables.now (R.sessions sets.now) (R.places sets.now) (R.set_of sets.now s.0) s.0 m }
    ensures { Prints K.Sink sink.old sink.new result (marked_listing job.now tables.now (R.set_of sets.now s.0) m) }
{
    match &job.listings[m as usize] {
        Some(lines) => listing_part(sink, lines, tables, sets, s, m),
        None => Ok(()),
    }
}

/// A module's part: counts, listing and runs.
fn module_text<K: Sink, R: FactSets>(
    sink: &mut K,
    job: &Job,
    tables: &Tables,
    sets: &R,
    s: SessNo,
    m: u32,
) -> Result<(), Failed>
    requires module { m < length job.now.images }
    requires tables { AreTablesOf job.now tables.now }
    requires session { HasSession tables.now (R.sessions sets.now) (R.places sets.now) s.0 }
    requires within { AreWithin tables.now (R.set_of sets.now s.0) m }
    ensures { Prints K.Sink sink.old sink.new result (module_lines job.now tables.now (R.set_of sets.now s.0) m) }
{
    let (first, past) = tables.range(m);
    let counts = count(tables, sets, s, first, past);
    put(sink, totals_line(module_name(job, m), past - first, counts))?;
    listing_text(sink, job, tables, sets, s, m)?;
    runs_part(sink, job, tables, sets, s, first, past)
}

/// The modules' parts, in the order of the session's card.
fn modules_text<K: Sink, R: FactSets>(
    sink: &mut K,
    job: &Job,
    tables: &Tables,
    sets: &R,
    s: SessNo,
    modules: &[u32],
) -> Result<(), Failed>
    requires modules { All (λ m. m < length job.now.images) modules.now }
    requires tables { AreTablesOf job.now tables.now }
    requires session { HasSession tables.now (R.sessions sets.now) (R.places sets.now) s.0 }
    requires within { All (AreWithin tables.now (R.set_of sets.now s.0)) modules.now }
    ensures { Prints K.Sink sink.old sink.new result (lines_of job.now tables.now (R.set_of sets.now s.0) modules.now) }
{
    for m in modules {
        module_text(sink, job, tables, sets, s, *m)?;
    }
    Ok(())
}

/// A phase's name.
pub(crate) fn phase_name(job: &Job, n: u32) -> &Name
    requires { n < length job.now.phases }
    ensures { result.now ≡ get_or job.now.phases n [] }
{
    &job.phases[n as usize]
}

/// A session's part of the report: its name and its phase's, and for each of its modules the counts, the listing with
/// marks and the runs of places without facts. Needs the sets of this session alone. Failed only where the sink's count
/// of faults rose; the sink has then taken a first part of it. Takes no memory.
pub fn session_part<K: Sink, R: FactSets>(
    sink: &mut K,
    job: &Job,
    tables: &Tables,
    sets: &R,
    s: SessNo,
) -> Result<(), Failed>
    requires from { 0 < s.0 }
    requires to { s.0 ≤ length job.now.sessions }
    requires tables { AreTablesOf job.now tables.now }
    requires sets { HasSetsOf job.now tables.now (R.sessions sets.now) (R.places sets.now) (R.set_of sets.now) s.0 }
    ensures { PrintsText K.Sink sink.old sink.new result (session_text job.now tables.now (R.set_of sets.now) s.0) }
{
    let session = job.session(s);
    put(
        sink,
        session_line(&session.name, phase_name(job, session.phase)),
    )?;
    modules_text(sink, job, tables, sets, s, &session.modules)
}
