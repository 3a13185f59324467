//! A branch and a return under one session, and a place that nothing observes: two passes in turn, and two threads at
//! once.
ghost use Rattle.std.specs.Prelude.{◌≡◌, ◌+◌, ◌<◌, ◌≤◌, ◌^◌, length, true, false, IfOk};
ghost use Rattle.cov_base.specs.declared.facts.Fact.TheVariants.{Went, Stayed};
ghost use Rattle.cov_base.specs.declared.facts.Kind.TheVariants.{Straight, Conditional};
ghost use Rattle.cov_base.specs.FactKind.{is_of_kind};
ghost use Rattle.module_area.specs.Meaning.{kind_at, window_at};
ghost use Rattle.count_session.specs.Passes.{IsPassOf, notes_of, plan_in};
ghost use Rattle.small_tests.specs.Visits.{CanVisit};

use count_session::{CountCells, CountPass};
use cov_base::{Addr, Fact, Kind, NoMemory, PlaceNo};
use module_area::{Cell, Place, Plan};
use std::alloc::Global;
use std::test::Fail;
use std::thread;
use std::thread::Threads;

/// One execution at a planted place, which is counted: the cell that was fetched.
fn visit(cells: &CountCells, pass: &mut CountPass, place: PlaceNo, fact: Fact) -> Cell
    requires area { IsPassOf cells.now pass.old }
    requires task { (notes_of cells.now pass.old).root ≡ false }
    requires room { (notes_of cells.now pass.old).adds < 2 ^ 40 }
    requires place { place.0 < length (plan_in cells.now).places }
    requires planted { (notes_of cells.now pass.old).planted place.0 ≡ true }
    requires kind { is_of_kind (kind_at (plan_in cells.now) place.0) fact ≡ true }
    ensures area { IsPassOf cells.now pass.new }
    ensures task { (notes_of cells.now pass.new).root ≡ false }
    ensures adds { (notes_of cells.now pass.new).adds ≡ (notes_of cells.now pass.old).adds + 1 }
    ensures planted { (notes_of cells.now pass.new).planted ≡ (notes_of cells.now pass.old).planted }
    ensures passes { (notes_of cells.now pass.new).passes ≡ (notes_of cells.now pass.old).passes }
{
    let cell = cells.fetch(pass, place);
    cells.add(pass, place, fact);
    cell
}

/// So many executions, by a pass of the thread's own.
fn visits(cells: &CountCells, pass: CountPass, place: PlaceNo, fact: Fact, times: u32) -> CountPass
    requires area { IsPassOf cells.now pass }
    requires task { (notes_of cells.now pass).root ≡ false }
    requires fresh { (notes_of cells.now pass).adds ≡ 0 }
    requires place { place.0 < length (plan_in cells.now).places }
    requires planted { (notes_of cells.now pass).planted place.0 ≡ true }
    requires kind { is_of_kind (kind_at (plan_in cells.now) place.0) fact ≡ true }
    ensures area { IsPassOf cells.now result }
    ensures task { (notes_of cells.now result).root ≡ false }
    ensures passes { (notes_of cells.now result).passes ≡ (notes_of cells.now pass).passes }
{
    let mut pass = pass;
    for _ in 0..times {
        visit(cells, &mut pass, place, fact);
    }
    pass
}

/// Two passes in turn: the cells that they fetch, the last at the place that isn't planted; and the counts in the end.
fn in_turn(alloc: Global, plan: &Plan) -> Result<([Cell; 5], [u64; 6]), NoMemory>
    requires places { 3 ≤ length plan.now.places }
    requires branch { (kind_at plan.now 0 ≡ Conditional) × (window_at plan.now 0 ≡ 1) }
    requires back { (kind_at plan.now 1 ≡ Straight) × (window_at plan.now 1 ≡ 1) }
{
    let (cells, mut root) = CountCells::new(alloc, plan)?;
    cells.plant(&mut root, PlaceNo(0));
    cells.plant(&mut root, PlaceNo(1));
    let mut first = cells.split(&mut root);
    let mut second = cells.split(&mut root);
    let shown = [
        visit(&cells, &mut first, PlaceNo(0), Fact::Went),
        visit(&cells, &mut second, PlaceNo(0), Fact::Stayed),
        visit(&cells, &mut first, PlaceNo(0), Fact::Went),
        visit(&cells, &mut first, PlaceNo(1), Fact::Ran),
        cells.fetch(&mut second, PlaceNo(2)),
    ];
    cells.join(&mut root, first);
    cells.join(&mut root, second);
    let counts = cells.finish(alloc, root)?;
    let ended = [
        counts.get(PlaceNo(0), Fact::Went),
        counts.get(PlaceNo(0), Fact::Stayed),
        counts.get(PlaceNo(0), Fact::Ran),
        counts.get(PlaceNo(1), Fact::Ran),
        counts.get(PlaceNo(1), Fact::Stayed),
        counts.get(PlaceNo(2), Fact::Ran),
    ];
    Ok((shown, ended))
}

/// The branch goes one way in both of two threads, so many times in each: its count in the end.
fn at_once<R: Threads + Sync>(
    rt: &R,
    alloc: Global,
    plan: &Plan,
    times: u32,
) -> Result<u64, NoMemory>
    requires places { 3 ≤ length plan.now.places }
    requires branch { (kind_at plan.now 0 ≡ Conditional) × (window_at plan.now 0 ≡ 1) }
{
    let (cells, mut root) = CountCells::new(alloc, plan)?;
    cells.plant(&mut root, PlaceNo(0));
    let first = cells.split(&mut root);
    let second = cells.split(&mut root);
    let shared = &cells;
    let (first, second) = thread::join(
        rt,
        move ||
            requires { CanVisit shared.now first 0 Went }
        { visits(shared, first, PlaceNo(0), Fact::Went, times) },
        move ||
            requires { CanVisit shared.now second 0 Went }
        { visits(shared, second, PlaceNo(0), Fact::Went, times) },
    );
    cells.join(&mut root, first);
    cells.join(&mut root, second);
    let counts = cells.finish(alloc, root)?;
    Ok(counts.get(PlaceNo(0), Fact::Went))
}

/// A branch on count and a return, under session 1 both, and an addition that nothing observes.
fn three_places(alloc: Global) -> Result<Plan, Fail>
    ensures places { IfOk result (λ p. length p.places ≡ 3) }
    ensures branch { IfOk result (λ p. (kind_at p 0 ≡ Conditional) × (window_at p 0 ≡ 1)) }
    ensures back { IfOk result (λ p. (kind_at p 1 ≡ Straight) × (window_at p 1 ≡ 1)) }
{
    let branch = Place {
        module: 0,
        at: Addr::of(0x10_0000),
        len: 4,
        original: 0x4610,
        kind: Kind::Conditional,
    };
    let back = Place {
        module: 0,
        at: Addr::of(0x10_0004),
        len: 2,
        original: 0x07FE,
        kind: Kind::Straight,
    };
    let other = Place {
        module: 1,
        at: Addr::of(0x11_0000),
        len: 2,
        original: 0x1A12,
        kind: Kind::Straight,
    };
    let places = vec![in alloc; branch, back, other]?;
    let windows = vec![in alloc; 1, 1, 0]?;
    let plan = Plan::checked(alloc, places, windows, Vec::new(alloc), 1).ok_or("no plan")?;
    Ok(plan)
}

#[test]
fn two_passes_in_turn(rt: HostRuntime) -> Result<(), Fail> {
    let alloc = rt.alloc();
    let plan = three_places(alloc)?;
    let (shown, counts) = in_turn(alloc, &plan)?;
    for n in 0..4 {
        assert!(rt; shown[n].tag == 1 && shown[n].half == 0x0AFF);
    }
    assert!(rt; shown[4].tag == 0 && shown[4].half == 0x1A12);
    assert_eq!(rt; counts, [2, 1, 0, 1, 0, 0]);
    Ok(())
}

#[test]
fn two_threads_lose_no_count(rt: HostRuntime) -> Result<(), Fail> {
    let alloc = rt.alloc();
    let plan = three_places(alloc)?;
    let count = at_once(&rt, alloc, &plan, 100_000)?;
    assert_eq!(rt; count, 200_000);
    Ok(())
}
