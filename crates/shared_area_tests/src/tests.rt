//! A branch and a return under one session: two passes in turn, a mark between the look and the addition of another pass, and
//! two threads at once. How many words an area has.
mod courses;
mod drained;
mod late;
mod through;

ghost use Rattle.std.specs.Prelude.{◌≡◌, ◌+◌, ◌<◌, ◌≤◌, ◌^◌, length, true, IfOk};
ghost use Rattle.std.specs.declared.option.Option.TheVariants.{Some};
ghost use Rattle.cov_base.specs.declared.facts.Fact.TheVariants.{Went, Stayed};
ghost use Rattle.cov_base.specs.declared.facts.Kind.TheVariants.{Straight, Conditional};
ghost use Rattle.module_area.specs.Meaning.{kind_at, window_at};
ghost use Rattle.module_area.specs.Rule.{has_task};
ghost use Rattle.module_area.specs.Notes.{calls, is_working};
ghost use Rattle.shared_area_tests.specs.Late.{IsAtWork, MayVisit, OfThree};

use cov_base::{Addr, Bits, Fact, Kind, NoMemory, PlaceNo, SessNo, TaskNo};
use late::traps;
use module_area::{Areas, Cells, Drains, Forks, Place, Plan, Tally};
use shared_area::SharedAreas;
use std::alloc::Global;
use std::test::Fail;
use std::thread;
use std::thread::Threads;

/// One execution under session 1: whether it was trapped, and whether it lifted.
fn visit<C: Cells>(
    cells: &C,
    pass: &mut C::Pass,
    plan: &Plan,
    place: PlaceNo,
    fact: Fact,
) -> (bool, bool)
    requires area { C.is_pass cells.now pass.old }
    requires plan { C.plan cells.now ≡ plan.now }
    requires may { MayVisit plan.now (C.notes pass.old) place.0 fact }
    ensures area { C.is_pass cells.now pass.new }
    ensures room { calls (C.notes pass.new) ≤ calls (C.notes pass.old) + 3 }
    ensures working { is_working (C.notes pass.new) ≡ true }
    ensures bears { (C.notes pass.new).bears ≡ (C.notes pass.old).bears }
    ensures out { (C.notes pass.new).out ≡ (C.notes pass.old).out }
{
    let cell = cells.fetch(pass, place);
    if cell.half != 0x0AFF || cell.tag != 1 {
        return (false, false);
    }
    let found = cells.mark(pass, SessNo(1), place, fact);
    if !found.with(fact).is_full(plan.kind(place)) {
        return (true, false);
    }
    (true, cells.lift(pass, SessNo(1), place))
}

/// The same, for a pass of the thread's own.
fn visited<C: Cells>(cells: &C, pass: C::Pass, plan: &Plan, place: PlaceNo, fact: Fact) -> C::Pass
    requires area { C.is_pass cells.now pass }
    requires plan { C.plan cells.now ≡ plan.now }
    requires may { MayVisit plan.now (C.notes pass) place.0 fact }
    ensures area { C.is_pass cells.now result }
    ensures room { calls (C.notes result) ≤ calls (C.notes pass) + 3 }
    ensures bears { (C.notes result).bears ≡ (C.notes pass).bears }
{
    let mut pass = pass;
    visit(cells, &mut pass, plan, place, fact);
    pass
}

/// The two facts of the branch by two passes in turn, then the return, and whether both sets are full in the end.
#[tactic(auto, using(module_area::proofs::Laws::session_has_sets))]
fn in_turn<A: Areas>(
    alloc: Global,
    areas: &mut A,
    plan: &Plan,
) -> Result<([(bool, bool); 4], bool, bool), NoMemory>
where
    A::C: Forks + Sync,
    requires room { A.made areas.old < 2 ^ 62 }
    requires places { 2 ≤ length plan.now.places }
    requires branch { (kind_at plan.now 0 ≡ Conditional) × (window_at plan.now 0 ≡ 1) }
    requires back { (kind_at plan.now 1 ≡ Straight) × (window_at plan.now 1 ≡ 1) }
    requires tasks { (has_task plan.now.tasks 0 ≡ true) × (has_task plan.now.tasks 1 ≡ true) }
    requires sessions { 1 ≤ plan.now.sessions }
{
    let (cells, mut root) = areas.make(alloc, plan)?;
    cells.plant(&mut root, SessNo(1), PlaceNo(0));
    cells.plant(&mut root, SessNo(1), PlaceNo(1));
    let mut first = cells.split(&mut root, TaskNo(0));
    let mut second = cells.split(&mut root, TaskNo(1));
    let shown = [
        visit(&cells, &mut first, plan, PlaceNo(0), Fact::Went),
        visit(&cells, &mut second, plan, PlaceNo(0), Fact::Stayed),
        visit(&cells, &mut first, plan, PlaceNo(0), Fact::Went),
        visit(&cells, &mut first, plan, PlaceNo(1), Fact::Ran),
    ];
    cells.join(&mut root, first);
    cells.join(&mut root, second);
    let finals = areas.finish(alloc, cells, root)?;
    let branch = finals.set(SessNo(1), PlaceNo(0));
    let back = finals.set(SessNo(1), PlaceNo(1));
    Ok((
        shown,
        branch.is_full(Kind::Conditional),
        back.is_full(Kind::Straight),
    ))
}

/// The branch goes both ways in two threads at once; whether its set is full in the end.
#[tactic(auto, using(module_area::proofs::Laws::session_has_sets))]
fn at_once<A: Areas, R: Threads + Sync>(
    rt: &R,
    alloc: Global,
    areas: &mut A,
    plan: &Plan,
) -> Result<bool, NoMemory>
where
    A::C: Forks + Sync,
    requires room { A.made areas.old < 2 ^ 62 }
    requires places { 2 ≤ length plan.now.places }
    requires branch { (kind_at plan.now 0 ≡ Conditional) × (window_at plan.now 0 ≡ 1) }
    requires tasks { (has_task plan.now.tasks 0 ≡ true) × (has_task plan.now.tasks 1 ≡ true) }
    requires sessions { 1 ≤ plan.now.sessions }
{
    let (cells, mut root) = areas.make(alloc, plan)?;
    cells.plant(&mut root, SessNo(1), PlaceNo(0));
    let first = cells.split(&mut root, TaskNo(0));
    let other = cells.split(&mut root, TaskNo(1));
    let area = &cells;
    let (first, other) = thread::join(
        rt,
        move ||
            requires { A.C.is_pass area.now first × (A.C.plan area.now ≡ plan.now) × MayVisit plan.now (A.C.notes first) 0 Went }
        { visited(area, first, plan, PlaceNo(0), Fact::Went) },
        move ||
            requires { A.C.is_pass area.now other × (A.C.plan area.now ≡ plan.now) × MayVisit plan.now (A.C.notes other) 0 Stayed }
        { visited(area, other, plan, PlaceNo(0), Fact::Stayed) },
    );
    cells.join(&mut root, first);
    cells.join(&mut root, other);
    let finals = areas.finish(alloc, cells, root)?;
    Ok(finals.set(SessNo(1), PlaceNo(0)).is_full(Kind::Conditional))
}

/// Whether a set has Went, and whether Stayed.
type Shown = (bool, bool);

fn shown(set: Bits) -> Shown {
    (set.has(Fact::Went), set.has(Fact::Stayed))
}

/// The two calls of a mark of Went, `mark_again`, whose look does nothing where the set lacks the fact, and `mark`, with a mark of
/// Stayed by the other pass between them: the set at the look, and those that the two marks find, or none where the look has
/// found the fact.
fn raced<C: Drains>(cells: &C, pass: &mut C::Pass, other: &mut C::Pass) -> Option<[Shown; 3]>
    requires area { C.is_pass cells.now pass.old × C.is_pass cells.now other.old }
    requires first { MayVisit (C.plan cells.now) (C.notes pass.old) 0 Went }
    requires second { MayVisit (C.plan cells.now) (C.notes other.old) 0 Stayed }
    requires sessions { 1 ≤ (C.plan cells.now).sessions }
    requires pending { ((C.notes pass.old).pending ≡ Some (0, 1)) × ((C.notes other.old).pending ≡ Some (0, 1)) }
{
    let looked = cells.read_set(pass, SessNo(1), PlaceNo(0));
    if cells.mark_again(pass, SessNo(1), PlaceNo(0), Fact::Went) {
        return None;
    }
    let between = cells.mark(other, SessNo(1), PlaceNo(0), Fact::Stayed);
    let added = cells.mark(pass, SessNo(1), PlaceNo(0), Fact::Went);
    Some([shown(looked), shown(between), shown(added)])
}

/// The set that a mark of Went finds, which its look is where the fact is there.
fn looked<C: Cells>(cells: &C, pass: &mut C::Pass) -> Shown
    requires area { C.is_pass cells.now pass.old }
    requires may { MayVisit (C.plan cells.now) (C.notes pass.old) 0 Went }
    requires pending { (C.notes pass.old).pending ≡ Some (0, 1) }
{
    shown(cells.mark(pass, SessNo(1), PlaceNo(0), Fact::Went))
}

/// An area in which the branch is planted, and the passes of tasks 0, 1 and 2.
fn three_passes<A: Areas>(
    alloc: Global,
    areas: &mut A,
    plan: &Plan,
) -> Result<
    (
        A::C,
        <A::C as Cells>::Pass,
        <A::C as Cells>::Pass,
        <A::C as Cells>::Pass,
    ),
    NoMemory,
>
    requires room { A.made areas.old < 2 ^ 62 }
    requires branch { (0 < length plan.now.places) × (window_at plan.now 0 ≡ 1) }
    requires tasks { OfThree (λ t. has_task plan.now.tasks t ≡ true) }
    ensures plan { IfOk result (λ a. A.C.plan a.0 ≡ plan.now) }
    ensures first { IfOk result (λ a. A.C.is_pass a.0 a.1 × IsAtWork (A.C.notes a.1)) }
    ensures second { IfOk result (λ a. A.C.is_pass a.0 a.2 × IsAtWork (A.C.notes a.2)) }
    ensures third { IfOk result (λ a. A.C.is_pass a.0 a.3 × IsAtWork (A.C.notes a.3)) }
{
    let (cells, mut root) = areas.make(alloc, plan)?;
    cells.plant(&mut root, SessNo(1), PlaceNo(0));
    let first = cells.split(&mut root, TaskNo(0));
    let second = cells.split(&mut root, TaskNo(1));
    let third = cells.split(&mut root, TaskNo(2));
    Ok((cells, first, second, third))
}

/// What the steps of two passes find in turn, and then a look of the third; none where no breakpoint stands.
fn step_by_step<A: Areas>(
    alloc: Global,
    areas: &mut A,
    plan: &Plan,
) -> Result<Option<([Shown; 3], Shown)>, NoMemory>
    requires room { A.made areas.old < 2 ^ 62 }
    requires branch { (0 < length plan.now.places) × (kind_at plan.now 0 ≡ Conditional) × (window_at plan.now 0 ≡ 1) }
    requires tasks { OfThree (λ t. has_task plan.now.tasks t ≡ true) }
    requires sessions { 1 ≤ plan.now.sessions }
{
    let (cells, mut first, mut second, mut third) = three_passes(alloc, areas, plan)?;
    if !traps(&cells, &mut first, PlaceNo(0), 1)
        || !traps(&cells, &mut second, PlaceNo(0), 1)
        || !traps(&cells, &mut third, PlaceNo(0), 1)
    {
        return Ok(None);
    }
    let Some(three) = raced(&cells, &mut first, &mut second) else {
        return Ok(None);
    };
    Ok(Some((three, looked(&cells, &mut third))))
}

/// A branch on count and a return, under session 1 both, and tasks 0, 1 and 2.
fn branch_and_return(alloc: Global) -> Result<Plan, Fail>
    ensures places { IfOk result (λ p. 2 ≤ length p.places) }
    ensures branch { IfOk result (λ p. (kind_at p 0 ≡ Conditional) × (window_at p 0 ≡ 1)) }
    ensures back { IfOk result (λ p. (kind_at p 1 ≡ Straight) × (window_at p 1 ≡ 1)) }
    ensures tasks { IfOk result (λ p. OfThree (λ t. has_task p.tasks t ≡ true)) }
    ensures sessions { IfOk result (λ p. p.sessions ≡ 1) }
{
    let branch = Place {
        module: 0,
        at: Addr::of(0x10_0000),
        len: 4,
        original: 0x4610,
        kind: Kind::Conditional,
    };
    let back = Place {
        module: 0,
        at: Addr::of(0x10_0004),
        len: 2,
        original: 0x07FE,
        kind: Kind::Straight,
    };
    let places = vec![in alloc; branch, back]?;
    let windows = vec![in alloc; 1, 1]?;
    let tasks = vec![in alloc; TaskNo(0), TaskNo(1), TaskNo(2)]?;
    let plan = Plan::checked(alloc, places, windows, tasks, 1).ok_or("no plan")?;
    Ok(plan)
}

/// Whether the tallies are these, each of so many plants, fetches, marks, lifts and closes.
fn are_tallies(tallies: &[Tally], wanted: &[[u64; 5]]) -> bool {
    for n in 0..tallies.len() {
        let tally = &tallies[n];
        let is_so = match wanted.get(n) {
            Some(counts) => {
                tally.plants == counts[0]
                    && tally.fetches == counts[1]
                    && tally.marks == counts[2]
                    && tally.lifts == counts[3]
                    && tally.closes == counts[4]
            }
            None => false,
        };
        if !is_so {
            return false;
        }
    }
    tallies.len() == wanted.len()
}

#[test]
fn passes_share_the_sets(rt: HostRuntime) -> Result<(), Fail> {
    let plan = branch_and_return(rt.alloc())?;
    let mut areas = SharedAreas::new(rt.alloc(), 1)?;
    let (shown, branch, back) = in_turn(rt.alloc(), &mut areas, &plan)?;
    assert!(rt;
        branch && back && shown == [(true, false), (true, true), (false, false), (true, true)]
    );
    assert!(rt; are_tallies(areas.ledger(), &[[2, 4, 3, 2, 0]]));
    assert!(rt; areas.finals().len() == 1 && areas.made() == 1);
    let mut areas = SharedAreas::new(rt.alloc(), 1)?;
    assert!(rt; at_once(&rt, rt.alloc(), &mut areas, &plan)?);
    assert!(rt; are_tallies(areas.ledger(), &[[1, 2, 2, 1, 0]]));
    let mut areas = SharedAreas::new(rt.alloc(), 1)?;
    let found = step_by_step(rt.alloc(), &mut areas, &plan)?;
    assert!(rt;
        found
            == Some((
                [(false, false), (false, false), (false, true)],
                (true, true)
            ))
    );
    Ok(())
}

/// So many places of one instruction each, sessions, which observe none, and tasks.
fn straight(alloc: Global, places: u32, sessions: u32, tasks: u32) -> Result<Plan, Fail> {
    let mut list = Vec::new(alloc);
    let mut windows = Vec::new(alloc);
    for i in 0..places.min(100) {
        list.push(Place {
            module: 0,
            at: Addr::of(0x10_0000 + 2 * i),
            len: 2,
            original: 0x1A12,
            kind: Kind::Straight,
        })?;
        windows.push(0)?;
    }
    let mut numbers = Vec::new(alloc);
    for t in 0..tasks {
        numbers.push(TaskNo(t))?;
    }
    let plan = Plan::checked(alloc, list, windows, numbers, sessions).ok_or("no plan")?;
    Ok(plan)
}

/// Places, sessions, tasks, and the words of their area.
static WORDS: [(u32, u32, u32, u64); 11] = [
    (3, 1, 0, 4),
    (32, 1, 0, 33),
    (33, 1, 0, 35),
    (33, 2, 0, 37),
    (65, 16, 0, 113),
    (3, 0, 0, 3),
    (0, 16, 0, 1),
    (0, 0, 0, 1),
    (3, 1, 2, 6),
    (33, 2, 64, 101),
    (0, 16, 1, 1),
];

#[test]
fn words_of_an_area(rt: HostRuntime) -> Result<(), Fail> {
    let alloc = rt.alloc();
    for (places, sessions, tasks, words) in WORDS {
        let plan = straight(alloc, places, sessions, tasks)?;
        let mut areas = SharedAreas::new(alloc, 1)?;
        let (cells, _root) = areas.make(alloc, &plan)?;
        assert_eq!(rt;
            cells.words(),
            words,
            "{places} places, {sessions} sessions, {tasks} tasks"
        );
    }
    Ok(())
}
