//! Three instructions under two sessions that task 1 opens and closes, and traps of tasks 0 and 2 that are settled late.
ghost use Rattle.std.specs.Prelude.{◌≡◌, ℕ, ◌+◌, ◌-◌, ◌*◌, ◌<◌, ◌≤◌, ◌^◌, true, length, [], ◌∷◌, IfOk, IfSome};
ghost use Rattle.std.specs.declared.option.Option.TheVariants.{Some};
ghost use Rattle.cov_base.specs.declared.facts.Kind.TheVariants.{Straight};
ghost use Rattle.module_area.specs.Meaning.{kind_at};
ghost use Rattle.module_area.specs.Rule.{has_task};
ghost use Rattle.shared_area_tests.specs.Late.{IsTwice, HasKind, IsPassFor, IsAtWork, IsLater, OfThree};
ghost use Rattle.module_area.specs.Notes.{calls, is_working};

use cov_base::{Addr, Fact, Kind, NoMemory, PlaceNo, SessNo, TaskNo};
use module_area::{Cell, Cells, Controlled, Place, Plan};
use std::alloc::Global;
use std::test::Fail;

/// The three places.
fn three(alloc: Global) -> Result<Vec<PlaceNo>, NoMemory>
    ensures { IfOk result (λ v. v.items ≡ record { 0 = 0 } ∷ record { 0 = 1 } ∷ record { 0 = 2 } ∷ []) }
{
    Ok(vec![in alloc; PlaceNo(0), PlaceNo(1), PlaceNo(2)]?)
}

/// The plan of three places, with sessions 1 and 2 of task 1 over them.
fn with_sessions(alloc: Global, plan: Plan) -> Result<Plan, NoMemory>
    requires places { length plan.places ≡ 3 }
    requires free { plan.windows ≡ 0 ∷ 0 ∷ 0 ∷ [] }
    requires task { has_task plan.tasks 1 ≡ true }
    requires sessions { 2 ≤ plan.sessions }
    ensures over { IfOk result (λ p. (q : ℕ) → q < 3 → IsTwice p q) }
    ensures places { IfOk result (λ p. p.places ≡ plan.places) }
    ensures tasks { IfOk result (λ p. p.tasks ≡ plan.tasks) }
    ensures sessions { IfOk result (λ p. p.sessions ≡ plan.sessions) }
{
    let first = Controlled {
        session: SessNo(1),
        by: TaskNo(1),
        places: three(alloc)?,
    };
    let second = Controlled {
        session: SessNo(2),
        by: TaskNo(1),
        places: three(alloc)?,
    };
    let Plan {
        places,
        windows,
        controlled: _,
        tasks,
        sessions,
    } = plan;
    Ok(Plan {
        places,
        windows,
        controlled: vec![in alloc; first, second]?,
        tasks,
        sessions,
    })
}

/// Whether the pass meets the breakpoint under the tag at the place.
pub(crate) fn traps<C: Cells>(cells: &C, pass: &mut C::Pass, place: PlaceNo, tag: u32) -> bool
    requires area { C.is_pass cells.now pass.old }
    requires room { calls (C.notes pass.old) < 2 ^ 60 }
    requires working { is_working (C.notes pass.old) ≡ true }
    requires place { place.0 < length (C.plan cells.now).places }
    ensures area { C.is_pass cells.now pass.new }
    ensures pending { result ≡ true → (C.notes pass.new).pending ≡ Some (place.0, tag) }
    ensures numbers { (C.notes pass.new).numbers ≡ (C.notes pass.old).numbers }
    ensures working { is_working (C.notes pass.new) ≡ true }
    ensures room { calls (C.notes pass.new) ≤ calls (C.notes pass.old) + 1 }
    ensures bears { (C.notes pass.new).bears ≡ (C.notes pass.old).bears }
{
    let cell = cells.fetch(pass, place);
    cell.tag == tag && cell.half == 0x0AFF
}

/// Marks the run of the place: whether it was there; none where the set isn't full with it.
pub(crate) fn marks<C: Cells>(
    cells: &C,
    pass: &mut C::Pass,
    s: SessNo,
    place: PlaceNo,
) -> Option<bool>
    requires area { C.is_pass cells.now pass.old }
    requires room { calls (C.notes pass.old) < 2 ^ 61 }
    requires working { is_working (C.notes pass.old) ≡ true }
    requires place { HasKind (C.plan cells.now) place.0 Straight }
    requires session { 0 < s.0 }
    requires pending { (C.notes pass.old).pending ≡ Some (place.0, 2 * s.0 - 1) }
    ensures area { C.is_pass cells.now pass.new }
    ensures full { IfSome result (λ _. (C.notes pass.new).full s.0 place.0 ≡ true) }
    ensures numbers { (C.notes pass.new).numbers ≡ (C.notes pass.old).numbers }
    ensures working { is_working (C.notes pass.new) ≡ true }
    ensures room { calls (C.notes pass.new) ≤ calls (C.notes pass.old) + 1 }
    ensures bears { (C.notes pass.new).bears ≡ (C.notes pass.old).bears }
{
    let found = cells.mark(pass, s, place, Fact::Ran);
    if found.with(Fact::Ran).is_full(Kind::Straight) {
        Some(found.has(Fact::Ran))
    } else {
        None
    }
}

/// Closes session 1, and plants session 2 where that is asked for.
fn change<C: Cells>(cells: &C, control: &mut C::Pass, plants: bool)
    requires area { C.is_pass cells.now control.old }
    requires room { calls (C.notes control.old) < 2 ^ 60 }
    requires place { (0 < length (C.plan cells.now).places) × IsTwice (C.plan cells.now) 0 }
    requires bears { (C.notes control.old).bears ≡ Some 1 }
    requires open { (C.notes control.old).last 0 ≡ 1 }
    ensures area { C.is_pass cells.now control.new }
    ensures room { calls (C.notes control.new) ≤ calls (C.notes control.old) + 2 }
    ensures bears { (C.notes control.new).bears ≡ (C.notes control.old).bears }
{
    cells.close(control, SessNo(1), PlaceNo(0));
    if plants {
        cells.plant(control, SessNo(2), PlaceNo(0));
    }
}

/// What a late trap finds: whether the run was marked before, whether its lift exchanged, and the cell that it meets next.
pub(crate) type Late = (bool, bool, Cell);

pub(crate) fn is_cell(cell: Cell, tag: u32, half: u16) -> bool {
    cell.tag == tag && cell.half == half
}

/// A trap of session 1 that is marked after the session was closed.
fn marks_late<C: Cells>(
    cells: &C,
    control: &mut C::Pass,
    pass: &mut C::Pass,
    plants: bool,
) -> Option<Late>
    requires area { C.is_pass cells.now control.old × C.is_pass cells.now pass.old }
    requires control { IsPassFor 1 (2 ^ 8) (C.notes control.old) }
    requires pass { IsAtWork (C.notes pass.old) }
    requires place { HasKind (C.plan cells.now) 0 Straight × IsTwice (C.plan cells.now) 0 }
    requires first { (C.notes control.old).last 0 ≡ 0 }
    ensures area { C.is_pass cells.now control.new × C.is_pass cells.now pass.new }
    ensures control { IsPassFor 1 (2 ^ 9) (C.notes control.new) }
    ensures pass { IsLater (2 ^ 9) (C.notes pass.old) (C.notes pass.new) }
{
    cells.plant(control, SessNo(1), PlaceNo(0));
    if !traps(cells, pass, PlaceNo(0), 1) {
        return None;
    }
    change(cells, control, plants);
    let there = marks(cells, pass, SessNo(1), PlaceNo(0))?;
    let lifted = cells.lift(pass, SessNo(1), PlaceNo(0));
    Some((there, lifted, cells.fetch(pass, PlaceNo(0))))
}

/// A trap of session 1 that is lifted after the session was closed.
fn lifts_late<C: Cells>(
    cells: &C,
    control: &mut C::Pass,
    pass: &mut C::Pass,
    plants: bool,
) -> Option<Late>
    requires area { C.is_pass cells.now control.old × C.is_pass cells.now pass.old }
    requires control { IsPassFor 1 (2 ^ 8) (C.notes control.old) }
    requires pass { IsAtWork (C.notes pass.old) }
    requires place { HasKind (C.plan cells.now) 0 Straight × IsTwice (C.plan cells.now) 0 }
    requires first { (C.notes control.old).last 0 ≡ 0 }
    ensures area { C.is_pass cells.now control.new × C.is_pass cells.now pass.new }
    ensures control { IsPassFor 1 (2 ^ 9) (C.notes control.new) }
    ensures pass { IsLater (2 ^ 9) (C.notes pass.old) (C.notes pass.new) }
{
    cells.plant(control, SessNo(1), PlaceNo(0));
    if !traps(cells, pass, PlaceNo(0), 1) {
        return None;
    }
    let there = marks(cells, pass, SessNo(1), PlaceNo(0))?;
    change(cells, control, plants);
    let lifted = cells.lift(pass, SessNo(1), PlaceNo(0));
    Some((there, lifted, cells.fetch(pass, PlaceNo(0))))
}

/// Two tasks with traps of two sessions in hand: each marks in its own session, and the later one lifts first.
pub(crate) fn two_late<C: Cells>(
    cells: &C,
    control: &mut C::Pass,
    pass: &mut C::Pass,
    other: &mut C::Pass,
) -> Option<(Late, Late)>
    requires area { C.is_pass cells.now control.old × C.is_pass cells.now pass.old × C.is_pass cells.now other.old }
    requires control { IsPassFor 1 (2 ^ 8) (C.notes control.old) }
    requires passes { IsAtWork (C.notes pass.old) × IsAtWork (C.notes other.old) }
    requires place { HasKind (C.plan cells.now) 0 Straight × IsTwice (C.plan cells.now) 0 }
    requires first { (C.notes control.old).last 0 ≡ 0 }
    ensures area { C.is_pass cells.now control.new × C.is_pass cells.now pass.new × C.is_pass cells.now other.new }
    ensures control { IsPassFor 1 (2 ^ 9) (C.notes control.new) }
    ensures pass { IsLater (2 ^ 9) (C.notes pass.old) (C.notes pass.new) }
    ensures other { IsLater (2 ^ 9) (C.notes other.old) (C.notes other.new) }
{
    cells.plant(control, SessNo(1), PlaceNo(0));
    if !traps(cells, pass, PlaceNo(0), 1) {
        return None;
    }
    change(cells, control, true);
    if !traps(cells, other, PlaceNo(0), 3) {
        return None;
    }
    let there = marks(cells, pass, SessNo(1), PlaceNo(0))?;
    let second_there = marks(cells, other, SessNo(2), PlaceNo(0))?;
    let second_lifted = cells.lift(other, SessNo(2), PlaceNo(0));
    let lifted = cells.lift(pass, SessNo(1), PlaceNo(0));
    let first = (there, lifted, cells.fetch(pass, PlaceNo(0)));
    let second = (second_there, second_lifted, cells.fetch(other, PlaceNo(0)));
    Some((first, second))
}

/// When a trap of session 1 is settled. The last two close the session between its mark and its lift.
#[derive(Clone, Copy)]
pub(crate) enum Order {
    MarkAfterClose,
    MarkAfterPlant,
    LiftAfterClose,
    LiftAfterPlant,
}

pub(crate) fn in_order<C: Cells>(
    cells: &C,
    control: &mut C::Pass,
    pass: &mut C::Pass,
    order: Order,
) -> Option<Late>
    requires area { C.is_pass cells.now control.old × C.is_pass cells.now pass.old }
    requires control { IsPassFor 1 (2 ^ 8) (C.notes control.old) }
    requires pass { IsAtWork (C.notes pass.old) }
    requires place { HasKind (C.plan cells.now) 0 Straight × IsTwice (C.plan cells.now) 0 }
    requires first { (C.notes control.old).last 0 ≡ 0 }
    ensures area { C.is_pass cells.now control.new × C.is_pass cells.now pass.new }
    ensures control { IsPassFor 1 (2 ^ 9) (C.notes control.new) }
    ensures pass { IsLater (2 ^ 9) (C.notes pass.old) (C.notes pass.new) }
{
    match order {
        Order::MarkAfterClose => marks_late(cells, control, pass, false),
        Order::MarkAfterPlant => marks_late(cells, control, pass, true),
        Order::LiftAfterClose => lifts_late(cells, control, pass, false),
        Order::LiftAfterPlant => lifts_late(cells, control, pass, true),
    }
}

/// Load address, add, branch, and tasks 0, 1 and 2.
pub(crate) fn three_instructions(alloc: Global) -> Result<Plan, Fail>
    ensures places { IfOk result (λ p. length p.places ≡ 3) }
    ensures kinds { IfOk result (λ p. OfThree (λ q. kind_at p q ≡ Straight)) }
    ensures over { IfOk result (λ p. (q : ℕ) → q < 3 → IsTwice p q) }
    ensures tasks { IfOk result (λ p. OfThree (λ t. has_task p.tasks t ≡ true)) }
    ensures sessions { IfOk result (λ p. p.sessions ≡ 2) }
{
    let load = Place {
        module: 0,
        at: Addr::of(0x10_0000),
        len: 4,
        original: 0x4110,
        kind: Kind::Straight,
    };
    let add = Place {
        module: 0,
        at: Addr::of(0x10_0004),
        len: 2,
        original: 0x1A11,
        kind: Kind::Straight,
    };
    let branch = Place {
        module: 0,
        at: Addr::of(0x10_0006),
        len: 2,
        original: 0x07FE,
        kind: Kind::Straight,
    };
    let places = vec![in alloc; load, add, branch]?;
    let windows = vec![in alloc; 0, 0, 0]?;
    let tasks = vec![in alloc; TaskNo(0), TaskNo(1), TaskNo(2)]?;
    let plan = Plan::checked(alloc, places, windows, tasks, 2).ok_or("no plan")?;
    Ok(with_sessions(alloc, plan)?)
}
