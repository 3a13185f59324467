//! A session that is closed while another task holds a trap of it: the numbers of tasks and the sets that the controller
//! reads before and behind that task's boundary.
ghost use Rattle.std.specs.Prelude.{◌≡◌, ◌<◌, ◌^◌, ◌≤◌, true, length};
ghost use Rattle.cov_base.specs.declared.facts.Kind.TheVariants.{Straight};
ghost use Rattle.module_area.specs.Meaning.{kind_at};
ghost use Rattle.module_area.specs.Rule.{has_task};
ghost use Rattle.shared_area_tests.specs.Late.{IsTwice, IsFirst, IsPassFor, OfThree};

use super::late::{marks, traps};
use super::through::{closes_all, plants_all};
use cov_base::{Fact, PlaceNo, SessNo, TaskNo};
use module_area::Drains;

/// The numbers that the controller notes, and whether the sets that it reads have the run.
pub(crate) type Seen = ([u64; 5], [bool; 3]);

/// Session 1 is closed while task 0 has its breakpoint in hand. Of the numbers the first is that of task 2, which ends at
/// once; the next three are task 0's before its boundary, behind it and behind its end; the last is the own one. The
/// sets are the first place's before task 0 marks and behind its boundary, and the second place's.
pub(crate) fn behind_the_close<C: Drains>(
    cells: &C,
    control: &mut C::Pass,
    pass: &mut C::Pass,
    other: &mut C::Pass,
) -> Option<Seen>
    requires area { C.is_pass cells.now control.old × C.is_pass cells.now pass.old × C.is_pass cells.now other.old }
    requires passes { IsFirst 1 (C.notes control.old) × IsFirst 0 (C.notes pass.old) × IsFirst 2 (C.notes other.old) }
    requires places { 2 < length (C.plan cells.now).places }
    requires kinds { kind_at (C.plan cells.now) 0 ≡ Straight }
    requires over { OfThree (IsTwice (C.plan cells.now)) }
    requires tasks { OfThree (λ t. has_task (C.plan cells.now).tasks t ≡ true) }
    requires sessions { 1 ≤ (C.plan cells.now).sessions }
    requires first { OfThree (λ p. (C.notes control.old).last p ≡ 0) }
    ensures area { C.is_pass cells.now control.new × C.is_pass cells.now pass.new × C.is_pass cells.now other.new }
    ensures control { IsPassFor 1 (2 ^ 9) (C.notes control.new) }
    ensures passes { IsPassFor 0 (2 ^ 9) (C.notes pass.new) × IsPassFor 2 (2 ^ 9) (C.notes other.new) }
{
    plants_all(cells, control, SessNo(1));
    if !traps(cells, pass, PlaceNo(0), 1) {
        return None;
    }
    closes_all(cells, control, SessNo(1));
    cells.boundary(control, false);
    cells.boundary(other, true);
    let ended = cells.note(control, TaskNo(2));
    let waiting = cells.note(control, TaskNo(0));
    let before = cells.read_set(control, SessNo(1), PlaceNo(0));
    marks(cells, pass, SessNo(1), PlaceNo(0))?;
    cells.boundary(pass, false);
    let moved = cells.note(control, TaskNo(0));
    let behind = cells.read_set(control, SessNo(1), PlaceNo(0));
    let second = cells.read_set(control, SessNo(1), PlaceNo(1));
    cells.boundary(pass, true);
    let done = cells.note(control, TaskNo(0));
    let own = cells.note(control, TaskNo(1));
    Some((
        [ended, waiting, moved, done, own],
        [
            before.has(Fact::Ran),
            behind.has(Fact::Ran),
            second.has(Fact::Ran),
        ],
    ))
}
