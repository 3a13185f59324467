//! The run of a task under an observer and a hook.
ghost use Rattle.std.specs.Prelude.{◌≡◌, ◌≢◌, ℕ, ◌==◌, ◌<◌, ◌≤◌, true, false, if◌then◌else◌, length, All, IsNone, IsSome, IfSome};
ghost use Rattle.std.specs.declared.option.Option.TheVariants.{Some};
ghost use Rattle.cov_base.specs.declared.constants.TheConstants.{RETURN_ADDRESS};
ghost use Rattle.s370_exec.specs.Meaning.{return_address};
ghost use Rattle.s370_state.specs.declared.endings.Ending.TheVariants.{Returned, Spent};
ghost use Rattle.brk_table.specs.Places.{ArePlaces};
ghost use Rattle.brk_table.specs.Decoded.{AreAtPlaces};
ghost use Rattle.task_run.specs.Sights.{IsPlaced};
ghost use Rattle.task_run.specs.Position.{IsPosition, IsPositionAt};
ghost use Rattle.task_run.specs.Runs.{EndsAs, GoesAs};
ghost use Rattle.task_run.specs.Steps.{CanStep, memory_at};

use crate::bench::Bench;
use crate::hook::Hook;
use crate::instruction::step;
use crate::observer::{Observer, Watch};
use crate::turns::{Turns, guess, keep, no_turns};
use brk_table::{Kept, Tables};
use cov_base::{Addr, PlaceNo};
use s370_exec::has_returned;
use s370_state::{Cpu, Ending, Next};

/// How a task has ended, after how many instructions, and where: the instruction address before the step that ended it,
/// or, where none did, as it stands.
#[derive(Clone, Copy)]
pub struct TaskEnd {
    pub ending: Ending,
    pub done: u32,
    pub at: Addr,
}

/// How a task ends that has done as many instructions as its budget.
fn spent(cpu: &Cpu) -> Ending
    ensures { result ≡ (if cpu.now.ia == return_address then Returned else Spent) }
{
    if has_returned(cpu) {
        Ending::Returned
    } else {
        Ending::Spent
    }
}

/// The place at which the task has stood last, or the first one, and the instructions from there on.
#[derive(Drop)]
struct Position<'a> {
    place: u32,
    kept: &'a [Kept],
}

/// The place that begins at the address, if one does, by a look at the map. From then on it is guessed behind the last.
#[inline(always)]
fn look_up(tables: &Tables, last: u32, turns: &mut Turns, at: Addr) -> Option<PlaceNo>
    requires places { ArePlaces tables.now.places }
    requires turns { All (λ t. t ≤ length tables.now.places) turns.old }
    ensures turns { All (λ t. t ≤ length tables.now.places) turns.new }
    ensures placed { IsPlaced tables.now.places at result }
{
    let place = tables.at(at)?;
    keep(turns, last, place);
    Some(place)
}

/// Moves to the place that is guessed, where that begins at the address and no task returns there.
#[inline(always)]
fn go_as_before<'a>(
    tables: &'a Tables,
    position: &mut Position<'a>,
    turns: &Turns,
    at: Addr,
) -> Option<PlaceNo>
    requires codes { AreAtPlaces tables.now }
    requires position { IsPosition tables.now position.old }
    requires turns { All (λ t. t ≤ length tables.now.places) turns.now }
    ensures position { IsPosition tables.now position.new }
    ensures placed { IfSome result (λ p. IsPositionAt tables.now.places at (Some p) position.new) }
    ensures goes_on { IsSome result → at ≢ RETURN_ADDRESS }
{
    let guessed = guess(turns, position.place);
    match tables.kept_at(guessed, at) {
        Some(kept) => {
            position.place = guessed;
            position.kept = kept;
            Some(PlaceNo(guessed))
        }
        None => None,
    }
}

/// Moves to the place that begins at the instruction address, if one does: mostly the one behind the last, or the one where the
/// task has gone on behind that before, so that what the next instruction waits for is no look-up. None exactly where the task has
/// returned.
#[inline(always)]
fn comes_to<'a>(
    tables: &'a Tables,
    position: &mut Position<'a>,
    turns: &mut Turns,
    cpu: &Cpu,
) -> Option<Option<PlaceNo>>
    requires codes { AreAtPlaces tables.now }
    requires position { IsPosition tables.now position.old }
    requires turns { All (λ t. t ≤ length tables.now.places) turns.old }
    ensures turns { All (λ t. t ≤ length tables.now.places) turns.new }
    ensures position { IsPosition tables.now position.new }
    ensures returned { IsNone result → (cpu.now.ia == return_address) ≡ true }
    ensures goes_on { IsSome result → (cpu.now.ia == return_address) ≡ false }
    ensures placed { IfSome result (λ p. IsPositionAt tables.now.places cpu.now.ia p position.new) }
{
    let at = cpu.at();
    if tables.comes_next(position.place, position.kept, at) {
        position.place += 1;
        position.kept = &position.kept[1..];
        return Some(Some(PlaceNo(position.place)));
    }
    if let Some(place) = go_as_before(tables, position, turns, at) {
        return Some(Some(place));
    }
    if has_returned(cpu) {
        return None;
    }
    let place = look_up(tables, position.place, turns, at);
    if let Some(p) = place {
        position.place = p.0;
        position.kept = tables.kept_from(p.0);
    }
    Some(place)
}

/// Runs the task until it ends: before each instruction it ends Returned at X'FFFFFE', else Spent where it has done as
/// many instructions as its budget. The observer is shown each instruction, and behind that the hook does what it does.
/// Ending, state and count are those of the task's course over modules that were never planted.
pub fn run<O: Observer, H: Hook<O>>(
    watch: &Watch<'_, O>,
    pass: &mut O::Pass,
    hook: &mut H,
    bench: &mut Bench<'_>,
    budget: u32,
) -> TaskEnd
    requires can { CanStep O.IsReady O.IsTied watch.now.observer.now watch.now.tables.now pass.old bench.old 0 0 }
    requires set { H.way.IsSet hook.old watch.now.observer.now pass.old bench.old.control 0 }
    ensures can { CanStep O.IsReady O.IsTied watch.now.observer.now watch.now.tables.now pass.new bench.new result.done 0 }
    ensures set { H.way.IsSet hook.new watch.now.observer.now pass.new bench.new.control result.done }
    ensures memory { memory_at bench.new ≡ memory_at bench.old }
    ensures ends { EndsAs H.way hook.old budget bench.old bench.new result }
    ensures goes { GoesAs O.Observer H.way watch.now budget hook.old pass.old bench.old hook.new pass.new bench.new }
{
    let Watch { observer, tables } = *watch;
    let mut position = Position {
        place: 0,
        kept: tables.kept_from(0),
    };
    let mut turns = no_turns(tables.len());
    let mut end = Ending::Spent;
    for done in 0..budget {
        let at = bench.cpu.at();
        let Some(place) = comes_to(tables, &mut position, &mut turns, &bench.cpu) else {
            return TaskEnd {
                ending: Ending::Returned,
                done,
                at,
            };
        };
        let kept = &position.kept[0];
        let next = step::<O, (O, H)>(observer, pass, tables, bench, done, place, kept, &mut end);
        if let Next::Ended(ending) = hook.behind(observer, pass, tables, bench, done + 1, next) {
            return TaskEnd {
                ending,
                done: done + 1,
                at,
            };
        }
    }
    TaskEnd {
        ending: spent(&bench.cpu),
        done: budget,
        at: bench.cpu.at(),
    }
}
