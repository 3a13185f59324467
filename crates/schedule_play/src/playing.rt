//! A schedule behind a job, played on the core.
ghost use Rattle.std.specs.Prelude.{◌≡◌, ◌≢◌, ℕ, [], ◌+◌, ◌<◌, ◌^◌, nat_eq, length, None, Some, IfOk, IfErr, OnErr, All};
ghost use Rattle.brk_table.specs.Places.{IsIn};
ghost use Rattle.job_text.specs.Meaning.{lines_of};
ghost use Rattle.module_area.specs.Meaning.{word_at, window_at};
ghost use Rattle.interleave_core.specs.Meaning.{plan_in, first_parts, run_on};
ghost use Rattle.interleave_core.specs.World.{IsWorld, world_of};
ghost use Rattle.interleave_core.specs.Results.{Fits};
ghost use Rattle.interleave_core.specs.Views.{Leaves};
ghost use Rattle.schedule_play.specs.Meaning.{plant_at, plants, if_plants, if_closes, item_event, IsRun};
ghost use Rattle.schedule_play.specs.Play.{Stays, event_step, item_step, play_bytes, play_behind, PlaysTo, IsLineOf, IsBadLine, IsUnplayed};

use brk_table::Tables;
use cov_base::{NoMemory, PlaceNo, SessNo};
use interleave_core::{Core, Event, NotPossible, Shown, start};
use job_text::{Item, first_line, item_of};
use phase_plan::plan_of;
use session_book::Job;
use std::alloc::{AllocFailed, Global};

/// An item of a schedule, the event that it stood for, if it was one, and what it has shown.
#[derive(Clone, Copy)]
pub struct Played {
    pub item: Item,
    pub event: Option<Event>,
    pub shown: Shown,
}

/// A core that a schedule was played on, and the schedule's items.
#[derive(Drop)]
pub struct Replayed<'a> {
    pub core: Core<'a>,
    pub played: Vec<Played>,
}

/// Why a schedule isn't played.
#[derive(Clone, Copy)]
pub enum ScheduleFault {
    /// The first line of the input, counted from 1, that is no item, is not possible there or stands behind ENDSCHED; one
    /// more than the number of lines where ENDSCHED is missing; 0 where the job hasn't one phase.
    Bad { line: u32 },
    NoMemory,
}

impl<T: Drop> From<AllocFailed<T>> for ScheduleFault {
    ghost use Rattle.std.specs.Prelude.{◌≡◌};
    ghost use Rattle.schedule_play.specs.declared.playing.ScheduleFault.TheVariants.{NoMemory};

    ghost from_gives = { λ _ e. e ≡ NoMemory };

    fn from(_: AllocFailed<T>) -> Self {
        ScheduleFault::NoMemory
    }
}

impl From<NoMemory> for ScheduleFault {
    ghost use Rattle.std.specs.Prelude.{◌≡◌};
    ghost use Rattle.schedule_play.specs.declared.playing.ScheduleFault.TheVariants.{NoMemory as Wanting};

    ghost from_gives = { λ _ e. e ≡ Wanting };

    fn from(_: NoMemory) -> Self {
        ScheduleFault::NoMemory
    }
}

/// The event that is next of a task, where it plants a session at a place.
fn if_plants(next: Option<Event>) -> Option<Event>
    ensures { result ≡ if_plants next }
{
    match next {
        Some(Event::Plant(s, p)) => Some(Event::Plant(s, p)),
        _ => None,
    }
}

/// The event that is next of a task, where it closes a session at a place.
fn if_closes(next: Option<Event>) -> Option<Event>
    ensures { result ≡ if_closes next }
{
    match next {
        Some(Event::Close(s, p)) => Some(Event::Close(s, p)),
        _ => None,
    }
}

/// The event that an item stands for, if it is one.
fn item_event<'a>(core: &Core<'a>, item: Item) -> Option<Event>
    ensures { result ≡ item_event core.now.world core.now.parts item }
{
    match item {
        Item::Fetch(t) => Some(Event::Fetch(t)),
        Item::Mark(t) => Some(Event::Mark(t)),
        Item::Lift(t) => Some(Event::Lift(t)),
        Item::Do(t) => Some(Event::Do(t)),
        Item::Plant(t) => if_plants(core.next(t)),
        Item::Close(t) => if_closes(core.next(t)),
        _ => None,
    }
}

/// Makes the event, where there is one.
fn play_event<'a>(core: &mut Core<'a>, event: Option<Event>) -> Result<Shown, NotPossible>
    ensures possible { IfOk result (Leaves (event_step core.old event) core.new.parts) }
    ensures refused { OnErr result (event_step core.old event ≡ None) }
    ensures stays { Stays core.old core.new }
{
    match event {
        Some(event) => core.apply(event),
        None => Err(NotPossible),
    }
}

/// Makes the event of an item, or all of a task that hasn't ended.
fn play_item<'a>(
    core: &mut Core<'a>,
    item: Item,
    event: Option<Event>,
) -> Result<Shown, NotPossible>
    requires { event ≡ item_event core.old.world core.old.parts item }
    ensures possible { IfOk result (Leaves (item_step core.old item) core.new.parts) }
    ensures refused { OnErr result (item_step core.old item ≡ None) }
    ensures stays { Stays core.old core.new }
{
    match item {
        Item::Go(t) => match core.go(t) {
            Ok(()) => Ok(Shown::Done),
            Err(NotPossible) => Err(NotPossible),
        },
        _ => play_event(core, event),
    }
}

/// Plants the place for the whole session that observes it, where one does.
fn plant<'a>(core: &mut Core<'a>, s: u32, p: u32)
    requires window { s ≡ window_at (plan_in core.old.world) p }
    requires place { p < length core.old.world.places }
    requires is_world { IsWorld core.old.world }
    requires fresh { (word_at core.old.parts.cells p).tag ≡ 0 }
    ensures stays { Stays core.old core.new }
    ensures planted { run_on core.old.world core.old.parts (plant_at core.old.world p) ≡ Some core.new.parts }
    ensures others { (q : ℕ) → p < q → word_at core.new.parts.cells q ≡ word_at core.old.parts.cells q }
{
    if s == 0 {
        return;
    }
    let Ok(_) = core.apply(Event::Plant(SessNo(s), PlaceNo(p))) else {
        unreachable!()
    };
}

/// Plants the places that a whole session observes, each for its session.
fn plant_all<'a>(core: &mut Core<'a>, windows: &[u32])
    requires windows { windows.now ≡ (plan_in core.old.world).windows }
    requires is_world { IsWorld core.old.world }
    requires fresh { (p : ℕ) → (word_at core.old.parts.cells p).tag ≡ 0 }
    ensures stays { Stays core.old core.new }
    ensures planted { run_on core.old.world core.old.parts (plants core.old.world) ≡ Some core.new.parts }
{
    for p in 0..windows.len() {
        plant(core, windows[p], p as u32);
    }
}

/// The core of a job of one phase, in which the places that a whole session observes are planted.
fn begin<'a>(alloc: Global, job: &'a Job, tables: &'a Tables) -> Result<Core<'a>, NoMemory>
    requires phase { length job.now.phases ≡ 1 }
    requires places { All (IsIn job.now.images) tables.now.places }
    ensures world { IfOk result (λ c. c.world ≡ world_of job.now tables.now) }
    ensures planted { IfOk result (λ c. run_on c.world (first_parts c.world) (plants c.world) ≡ Some c.parts) }
    ensures fits { IfOk result (λ c. Fits c.world c.parts) }
    ensures is_world { IfOk result (λ c. IsWorld c.world) }
{
    let plan = plan_of(alloc, job, tables, 0)?;
    let mut core = start(alloc, job, tables)?;
    plant_all(&mut core, &plan.windows);
    Ok(core)
}

fn has_one_phase(job: &Job) -> bool
    ensures { result ≡ nat_eq (length job.now.phases) 1 }
{
    job.phases.len() == 1
}

/// Plays one line; none where it ends the schedule.
fn play_line<'a>(core: &mut Core<'a>, job: &Job, line: &[u8]) -> Result<Option<Played>, NotPossible>
    requires { core.old.world.job ≡ job.now }
    ensures played { IfOk result (IsLineOf job.now line.now core.old core.new) }
    ensures refused { OnErr result (IsBadLine job.now line.now core.old) }
    ensures stays { Stays core.old core.new }
{
    let item = item_of(job, line).ok_or(NotPossible)?;
    if let Item::End = item {
        return Ok(None);
    }
    let event = item_event(core, item);
    let shown = play_item(core, item, event)?;
    Ok(Some(Played { item, event, shown }))
}

/// The items of a schedule that has ended, behind which nothing may stand.
fn ended(played: Vec<Played>, rest: &[u8], n: u32) -> Result<Vec<Played>, ScheduleFault>
    ensures whole { IfOk result (λ v. (v.items ≡ played.items) × (lines_of rest.now ≡ [])) }
    ensures bad { IfErr result (λ e. (e ≡ ScheduleFault.Bad n) × (lines_of rest.now ≢ [])) }
{
    if rest.is_empty() {
        Ok(played)
    } else {
        Err(ScheduleFault::Bad { line: n })
    }
}

/// Plays the lines of a schedule, the first of which is line n of the input.
fn play<'a>(
    alloc: Global,
    core: &mut Core<'a>,
    job: &Job,
    lines: &[u8],
    first: u32,
) -> Result<Vec<Played>, ScheduleFault>
    requires job { core.old.world.job ≡ job.now }
    requires numbers { first + length lines.now < 2 ^ 32 }
    ensures whole { IfOk result (λ v. PlaysTo (play_bytes core.old first lines.now) core.new v.items) }
    ensures few { IfOk result (λ v. length v.items < 2 ^ 32) }
    ensures stays { Stays core.old core.new }
    ensures bad { IfErr result (IsUnplayed (play_bytes core.old first lines.now)) }
{
    let mut played = Vec::new(alloc);
    let mut rest = lines;
    let mut n = first;
    while !rest.is_empty() {
        let line = first_line(rest);
        rest = line.rest;
        match play_line(core, job, line.bytes) {
            Ok(Some(item)) => played.push(item)?,
            Ok(None) => return ended(played, rest, n + 1),
            Err(NotPossible) => return Err(ScheduleFault::Bad { line: n }),
        }
        n += 1;
    }
    Err(ScheduleFault::Bad { line: n })
}

/// Plays the schedule behind the first lines of an input, so many, which spell the job: all windows are planted first, and
/// then each line is an item, up to ENDSCHED. The core then stands as after any list of events. Bad exactly where a line has
/// that fault, or the job hasn't one phase.
pub fn replay<'a>(
    alloc: Global,
    job: &'a Job,
    tables: &'a Tables,
    count: u32,
    schedule: &[u8],
) -> Result<Replayed<'a>, ScheduleFault>
    requires numbers { count + 1 + length schedule.now < 2 ^ 32 }
    requires places { All (IsIn job.now.images) tables.now.places }
    ensures whole { IfOk result (λ r. PlaysTo (play_behind job.now tables.now count schedule.now) r.core r.played.items) }
    ensures few { IfOk result (λ r. length r.played.items < 2 ^ 32) }
    ensures world { IfOk result (λ r. r.core.world ≡ world_of job.now tables.now) }
    ensures fits { IfOk result (λ r. Fits r.core.world r.core.parts) }
    ensures run { IfOk result (λ r. IsRun (world_of job.now tables.now) r.core.parts) }
    ensures bad { IfErr result (IsUnplayed (play_behind job.now tables.now count schedule.now)) }
{
    if !has_one_phase(job) {
        return Err(ScheduleFault::Bad { line: 0 });
    }
    let mut core = begin(alloc, job, tables)?;
    let played = play(alloc, &mut core, job, schedule, count + 1)?;
    Ok(Replayed { core, played })
}
