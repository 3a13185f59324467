//! Courses of three tasks over three instructions, each in an area of its own: what a trap finds that is settled late, and what
//! its controller reads behind a closed session.
ghost use Rattle.std.specs.Prelude.{◌≡◌, ◌<◌, ◌^◌};
ghost use Rattle.shared_area_tests.specs.Late.{HasThree, IsFirst, IsPassFor, OfThree};

use super::are_tallies;
use super::drained::behind_the_close;
use super::late::{Order, in_order, is_cell, three_instructions, two_late};
use super::through::{runs, to_the_end};
use cov_base::{NoMemory, SessNo, TaskNo};
use module_area::{Areas, Drains, Forks, Plan};
use shared_area::SharedAreas;
use std::alloc::Global;
use std::test::Fail;

/// What the tasks do.
#[derive(Clone, Copy)]
enum Course {
    /// A late trap, and tag and halfword of the cell that its task meets next.
    Late(Order, u32, u16),
    TwoLate,
    ThroughTwoSessions,
    BehindTheClose,
}

/// Whether the tasks find what they must: never is a fact lost, and never does a late lift take out what stands there now.
fn finds<C: Drains>(
    cells: &C,
    control: &mut C::Pass,
    pass: &mut C::Pass,
    other: &mut C::Pass,
    course: Course,
) -> bool
    requires area { C.is_pass cells.now control.old × C.is_pass cells.now pass.old × C.is_pass cells.now other.old }
    requires passes { IsFirst 1 (C.notes control.old) × IsFirst 0 (C.notes pass.old) × IsFirst 2 (C.notes other.old) }
    requires plan { HasThree (C.plan cells.now) }
    requires first { OfThree (λ p. (C.notes control.old).last p ≡ 0) }
    ensures area { C.is_pass cells.now control.new × C.is_pass cells.now pass.new × C.is_pass cells.now other.new }
    ensures control { IsPassFor 1 (2 ^ 10) (C.notes control.new) }
    ensures passes { IsPassFor 0 (2 ^ 10) (C.notes pass.new) × IsPassFor 2 (2 ^ 10) (C.notes other.new) }
{
    match course {
        Course::Late(order, tag, half) => match in_order(cells, control, pass, order) {
            Some((there, lifted, cell)) => !there && !lifted && is_cell(cell, tag, half),
            None => false,
        },
        Course::TwoLate => match two_late(cells, control, pass, other) {
            Some(((there, lifted, cell), (second_there, second_lifted, second))) => {
                !there
                    && !lifted
                    && is_cell(cell, 3, 0x4110)
                    && !second_there
                    && second_lifted
                    && is_cell(second, 3, 0x4110)
            }
            None => false,
        },
        Course::ThroughTwoSessions => match to_the_end(cells, control, pass) {
            Some(((there, lifted, cell), add, branch)) => {
                !there
                    && !lifted
                    && is_cell(cell, 3, 0x0AFF)
                    && add == (false, true)
                    && branch == (false, true)
            }
            None => false,
        },
        Course::BehindTheClose => {
            let seen = behind_the_close(cells, control, pass, other);
            seen == Some(([1, 0, 2, 3, 2], [false, true, false]))
        }
    }
}

/// The course by passes split for tasks 0, 1 and 2, and the runs of sessions 1 and 2 in the end.
#[tactic(auto, using(module_area::proofs::Laws::session_has_sets))]
fn in_area<A: Areas>(
    alloc: Global,
    areas: &mut A,
    plan: &Plan,
    course: Course,
) -> Result<(bool, [bool; 3], [bool; 3]), NoMemory>
    requires room { A.made areas.old < 2 ^ 62 }
    requires plan { HasThree plan.now }
{
    let (cells, mut root) = areas.make(alloc, plan)?;
    let mut pass = cells.split(&mut root, TaskNo(0));
    let mut control = cells.split(&mut root, TaskNo(1));
    let mut other = cells.split(&mut root, TaskNo(2));
    let is_so = finds(&cells, &mut control, &mut pass, &mut other, course);
    cells.join(&mut root, pass);
    cells.join(&mut root, control);
    cells.join(&mut root, other);
    let finals = areas.finish(alloc, cells, root)?;
    Ok((is_so, runs(&finals, SessNo(1)), runs(&finals, SessNo(2))))
}

/// The courses; at which of the three instructions the sessions have the run in the end; and how many plants, fetches, marks,
/// lifts and closes there were.
static COURSES: [(Course, [bool; 3], [bool; 3], [u64; 5]); 7] = [
    (
        Course::Late(Order::MarkAfterClose, 2, 0x4110),
        [true, false, false],
        [false; 3],
        [1, 2, 1, 0, 1],
    ),
    (
        Course::Late(Order::MarkAfterPlant, 3, 0x0AFF),
        [true, false, false],
        [false; 3],
        [2, 2, 1, 0, 1],
    ),
    (
        Course::Late(Order::LiftAfterClose, 2, 0x4110),
        [true, false, false],
        [false; 3],
        [1, 2, 1, 0, 1],
    ),
    (
        Course::Late(Order::LiftAfterPlant, 3, 0x0AFF),
        [true, false, false],
        [false; 3],
        [2, 2, 1, 0, 1],
    ),
    (
        Course::TwoLate,
        [true, false, false],
        [true, false, false],
        [2, 4, 2, 1, 1],
    ),
    (
        Course::ThroughTwoSessions,
        [true, false, false],
        [false, true, true],
        [6, 4, 3, 2, 6],
    ),
    (
        Course::BehindTheClose,
        [true, false, false],
        [false; 3],
        [3, 1, 1, 0, 3],
    ),
];

#[test]
fn courses_of_three_tasks(rt: HostRuntime) -> Result<(), Fail> {
    let plan = three_instructions(rt.alloc())?;
    for n in 0..7 {
        let (course, first, second, counts) = COURSES[n];
        let mut areas = SharedAreas::new(rt.alloc(), 1)?;
        let found = in_area(rt.alloc(), &mut areas, &plan, course)?;
        assert!(rt;
            found == (true, first, second) && are_tallies(areas.ledger(), &[counts]),
            "{n}"
        );
    }
    Ok(())
}
