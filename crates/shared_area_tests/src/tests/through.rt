//! The course of a task through two sessions: one is closed and the next one planted while it holds a trap.
ghost use Rattle.std.specs.Prelude.{◌≡◌, ◌+◌, ◌*◌, ◌<◌, ◌≤◌, ◌^◌, true, length, IfSome};
ghost use Rattle.cov_base.specs.declared.facts.Kind.TheVariants.{Straight};
ghost use Rattle.module_area.specs.Meaning.{kind_at, is_controlled, is_over};
ghost use Rattle.module_area.specs.Rule.{has_task};
ghost use Rattle.shared_area_tests.specs.Late.{IsTwice, HasKind, IsPassFor, IsAtWork, IsLater, OfThree};
ghost use Rattle.module_area.specs.Notes.{calls, is_working, keeps};

use super::late::{Late, marks, traps};
use cov_base::{Fact, PlaceNo, SessNo};
use module_area::{Cells, Finals};

/// Plants the three places for a session.
pub(crate) fn plants_all<C: Cells>(cells: &C, control: &mut C::Pass, s: SessNo)
    requires area { C.is_pass cells.now control.old }
    requires room { calls (C.notes control.old) < 2 ^ 60 }
    requires places { 2 < length (C.plan cells.now).places }
    requires session { 0 < s.0 }
    requires over { OfThree (λ p. is_over (C.plan cells.now) s.0 p ≡ true) }
    requires keeper { OfThree (λ p. keeps (C.plan cells.now) (C.notes control.old) p ≡ true) }
    requires later { OfThree (λ p. (C.notes control.old).last p + 1 < 2 * s.0) }
    ensures area { C.is_pass cells.now control.new }
    ensures room { calls (C.notes control.new) ≡ calls (C.notes control.old) + 3 }
    ensures bears { (C.notes control.new).bears ≡ (C.notes control.old).bears }
    ensures numbers { (C.notes control.new).numbers ≡ (C.notes control.old).numbers }
    ensures last { OfThree (λ p. (C.notes control.new).last p + 1 ≡ 2 * s.0) }
{
    cells.plant(control, s, PlaceNo(0));
    cells.plant(control, s, PlaceNo(1));
    cells.plant(control, s, PlaceNo(2));
}

/// Closes a session at the three places.
pub(crate) fn closes_all<C: Cells>(cells: &C, control: &mut C::Pass, s: SessNo)
    requires area { C.is_pass cells.now control.old }
    requires room { calls (C.notes control.old) < 2 ^ 60 }
    requires places { 2 < length (C.plan cells.now).places }
    requires session { 0 < s.0 }
    requires over { OfThree (λ p. is_controlled (C.plan cells.now) s.0 p ≡ true) }
    requires keeper { OfThree (λ p. keeps (C.plan cells.now) (C.notes control.old) p ≡ true) }
    requires open { OfThree (λ p. (C.notes control.old).last p + 1 ≡ 2 * s.0) }
    ensures area { C.is_pass cells.now control.new }
    ensures room { calls (C.notes control.new) ≡ calls (C.notes control.old) + 3 }
    ensures bears { (C.notes control.new).bears ≡ (C.notes control.old).bears }
    ensures numbers { (C.notes control.new).numbers ≡ (C.notes control.old).numbers }
    ensures last { OfThree (λ p. (C.notes control.new).last p ≡ 2 * s.0) }
{
    cells.close(control, s, PlaceNo(0));
    cells.close(control, s, PlaceNo(1));
    cells.close(control, s, PlaceNo(2));
}

/// A trap of session 1 at the first place that is settled once session 2 is planted, and the cell that the task then meets
/// there.
fn through_two_sessions<C: Cells>(
    cells: &C,
    control: &mut C::Pass,
    pass: &mut C::Pass,
) -> Option<Late>
    requires area { C.is_pass cells.now control.old × C.is_pass cells.now pass.old }
    requires control { IsPassFor 1 (2 ^ 8) (C.notes control.old) }
    requires pass { IsAtWork (C.notes pass.old) }
    requires places { (2 < length (C.plan cells.now).places) × (kind_at (C.plan cells.now) 0 ≡ Straight) }
    requires over { OfThree (IsTwice (C.plan cells.now)) }
    requires first { OfThree (λ p. (C.notes control.old).last p ≡ 0) }
    ensures area { C.is_pass cells.now control.new × C.is_pass cells.now pass.new }
    ensures control { IsPassFor 1 (2 ^ 9) (C.notes control.new) }
    ensures pass { IsLater (2 ^ 9) (C.notes pass.old) (C.notes pass.new) }
    ensures working { is_working (C.notes pass.new) ≡ true }
    ensures open { IfSome result (λ _. OfThree (λ p. (C.notes control.new).last p ≡ 3)) }
{
    plants_all(cells, control, SessNo(1));
    if !traps(cells, pass, PlaceNo(0), 1) {
        return None;
    }
    closes_all(cells, control, SessNo(1));
    plants_all(cells, control, SessNo(2));
    let there = marks(cells, pass, SessNo(1), PlaceNo(0))?;
    let lifted = cells.lift(pass, SessNo(1), PlaceNo(0));
    Some((there, lifted, cells.fetch(pass, PlaceNo(0))))
}

/// A visit under session 2: whether the run was marked before, and whether the lift exchanged.
fn visits<C: Cells>(cells: &C, pass: &mut C::Pass, place: PlaceNo) -> Option<(bool, bool)>
    requires area { C.is_pass cells.now pass.old }
    requires room { calls (C.notes pass.old) < 2 ^ 60 }
    requires working { is_working (C.notes pass.old) ≡ true }
    requires place { HasKind (C.plan cells.now) place.0 Straight }
    ensures area { C.is_pass cells.now pass.new }
    ensures working { is_working (C.notes pass.new) ≡ true }
    ensures room { calls (C.notes pass.new) ≤ calls (C.notes pass.old) + 3 }
    ensures bears { (C.notes pass.new).bears ≡ (C.notes pass.old).bears }
{
    if !traps(cells, pass, place, 3) {
        return None;
    }
    let there = marks(cells, pass, SessNo(2), place)?;
    Some((there, cells.lift(pass, SessNo(2), place)))
}

/// What the task finds at the first place, and at its visits of the two behind it.
pub(crate) type Through = (Late, (bool, bool), (bool, bool));

/// The task comes to its end, and session 2 is closed behind it.
pub(crate) fn to_the_end<C: Cells>(
    cells: &C,
    control: &mut C::Pass,
    pass: &mut C::Pass,
) -> Option<Through>
    requires area { C.is_pass cells.now control.old × C.is_pass cells.now pass.old }
    requires control { IsPassFor 1 (2 ^ 8) (C.notes control.old) }
    requires pass { IsAtWork (C.notes pass.old) }
    requires places { 2 < length (C.plan cells.now).places }
    requires kinds { OfThree (λ p. kind_at (C.plan cells.now) p ≡ Straight) }
    requires over { OfThree (IsTwice (C.plan cells.now)) }
    requires first { OfThree (λ p. (C.notes control.old).last p ≡ 0) }
    ensures area { C.is_pass cells.now control.new × C.is_pass cells.now pass.new }
    ensures control { IsPassFor 1 (2 ^ 10) (C.notes control.new) }
    ensures pass { IsLater (2 ^ 10) (C.notes pass.old) (C.notes pass.new) }
{
    let late = through_two_sessions(cells, control, pass)?;
    let add = visits(cells, pass, PlaceNo(1))?;
    let branch = visits(cells, pass, PlaceNo(2))?;
    closes_all(cells, control, SessNo(2));
    Some((late, add, branch))
}

/// Whether the session has the run of each of the three places.
pub(crate) fn runs(finals: &Finals, s: SessNo) -> [bool; 3]
    requires session { 0 < s.0 }
    requires places { 2 < finals.now.places }
    requires within { s.0 * finals.now.places ≤ length finals.now.sets }
{
    [
        finals.set(s, PlaceNo(0)).has(Fact::Ran),
        finals.set(s, PlaceNo(1)).has(Fact::Ran),
        finals.set(s, PlaceNo(2)).has(Fact::Ran),
    ]
}
