//! What a trap does.
ghost use Rattle.std.specs.Prelude.{◌≡◌, ◌+◌, ◌-◌, ◌*◌, ◌/◌, ◌%◌, ◌<◌, length, true};
ghost use Rattle.cov_base.specs.FactKind.{is_of_kind};
ghost use Rattle.cov_base.specs.Meaning.{kind_of};
ghost use Rattle.module_area.specs.Meaning.{kind_at};
ghost use Rattle.s370_decode.specs.Meaning.{first_half, op_of};
ghost use Rattle.task_run.specs.Sights.{IsKnown};
ghost use Rattle.task_run.specs.Traps.{IsTrapped, Settles, SettlesAt, SettlesWent, Traps};

use crate::observer::Known;
use brk_table::Tables;
use cov_base::{Fact, Kind, PlaceNo, SessNo};
use module_area::{Cell, Cells};
use s370_branch::{condition_goes, count_left, outcome};
use s370_decode::{Code, Decoded, Op, kind};
use s370_state::Cpu;

/// The session whose breakpoint the cell is.
fn session_of(cell: Cell) -> SessNo
    requires { cell.tag % 2 ≡ 1 }
    ensures value { result.0 ≡ cell.tag / 2 + 1 }
    ensures tag { 2 * result.0 - 1 ≡ cell.tag }
{
    SessNo(cell.tag / 2 + 1)
}

/// Marks the fact for the session whose breakpoint the cell is, at a place of this kind, and tries once to lift that exactly
/// where the set with the fact is full: another pass may have lifted it before.
#[inline(always)]
pub(crate) fn settle<C: Cells>(
    cells: &C,
    pass: &mut C::Pass,
    kind: Kind,
    place: PlaceNo,
    cell: Cell,
    fact: Fact,
)
    requires trap { IsTrapped (C.is_pass cells.now pass.old) (C.plan cells.now) (C.notes pass.old) place.0 cell }
    requires plan { kind ≡ kind_at (C.plan cells.now) place.0 }
    requires fact { is_of_kind kind fact ≡ true }
    ensures area { C.is_pass cells.now pass.new }
    ensures settles { Settles (C.plan cells.now) (C.notes pass.old) (C.notes pass.new) (cell.tag / 2 + 1) place.0 fact }
{
    let s = session_of(cell);
    let found = cells.mark(pass, s, place, fact);
    if found.with(fact).is_full(kind) {
        let _ = cells.lift(pass, s, place);
    }
}

/// The same of an instruction that is begun at the place, as it is executed.
#[inline(never)]
pub(crate) fn settle_apart<C: Cells>(
    cells: &C,
    pass: &mut C::Pass,
    tables: &Tables,
    cpu: &Cpu,
    code: &Code,
    place: PlaceNo,
    cell: Cell,
)
    requires trap { IsTrapped (C.is_pass cells.now pass.old) (C.plan cells.now) (C.notes pass.old) place.0 cell }
    requires exists { place.0 < length tables.now.places }
    requires same { (C.plan cells.now).places ≡ tables.now.places }
    ensures area { C.is_pass cells.now pass.new }
    ensures settles { SettlesAt (C.plan cells.now) (C.notes pass.old) (C.notes pass.new) cell place.0 code.now cpu.now }
{
    match tables.place(place).kind {
        Kind::Straight => settle(cells, pass, Kind::Straight, place, cell, Fact::Ran),
        Kind::Conditional => {
            let fact = Kind::Conditional.fact(outcome(cpu, code));
            settle(cells, pass, Kind::Conditional, place, cell, fact);
        }
    }
}

/// Where the set at the place of a conditional branch has the fact of this outcome and not the other, marks it: true. Else does
/// nothing.
#[inline(always)]
fn mark_again<C: Cells>(
    cells: &C,
    pass: &mut C::Pass,
    place: PlaceNo,
    cell: Cell,
    went: bool,
) -> bool
    requires trap { IsTrapped (C.is_pass cells.now pass.old) (C.plan cells.now) (C.notes pass.old) place.0 cell }
    requires kind { kind_at (C.plan cells.now) place.0 ≡ Kind.Conditional }
    ensures area { C.is_pass cells.now pass.new }
    ensures settles { SettlesWent (C.plan cells.now) (C.notes pass.old) (C.notes pass.new) cell place.0 went result }
{
    let s = session_of(cell);
    // Two calls, so that the fact is a constant in each.
    if went {
        cells.mark_again(pass, s, place, Fact::Went)
    } else {
        cells.mark_again(pass, s, place, Fact::Stayed)
    }
}

/// The same of a BC.
#[inline(always)]
fn condition_again<C: Cells>(
    cells: &C,
    pass: &mut C::Pass,
    cpu: &Cpu,
    it: &Decoded,
    place: PlaceNo,
    cell: Cell,
) -> Known
    requires trap { IsTrapped (C.is_pass cells.now pass.old) (C.plan cells.now) (C.notes pass.old) place.0 cell }
    requires kind { kind_at (C.plan cells.now) place.0 ≡ kind_of (first_half it.now.code) }
    requires op { op_of (first_half it.now.code) ≡ Op.BC }
    ensures area { C.is_pass cells.now pass.new }
    ensures traps { Traps (C.plan cells.now) (C.notes pass.old) (C.notes pass.new) cell place.0 it.now.code cpu.now result }
    ensures known { IsKnown result it.now.code cpu.now }
{
    match kind(it.code.first_half()) {
        Kind::Straight => Known::Nothing,
        Kind::Conditional => {
            let went = condition_goes(cpu, it);
            if mark_again(cells, pass, place, cell, went) {
                Known::Condition(went)
            } else {
                Known::Nothing
            }
        }
    }
}

/// The same of a BCT.
#[inline(always)]
#[tactic(auto, unfolding(s370_branch::specs::Meaning::goes))]
fn count_again<C: Cells>(
    cells: &C,
    pass: &mut C::Pass,
    cpu: &Cpu,
    it: &Decoded,
    place: PlaceNo,
    cell: Cell,
) -> Known
    requires trap { IsTrapped (C.is_pass cells.now pass.old) (C.plan cells.now) (C.notes pass.old) place.0 cell }
    requires kind { kind_at (C.plan cells.now) place.0 ≡ kind_of (first_half it.now.code) }
    requires op { op_of (first_half it.now.code) ≡ Op.BCT }
    ensures area { C.is_pass cells.now pass.new }
    ensures traps { Traps (C.plan cells.now) (C.notes pass.old) (C.notes pass.new) cell place.0 it.now.code cpu.now result }
    ensures known { IsKnown result it.now.code cpu.now }
{
    match kind(it.code.first_half()) {
        Kind::Straight => Known::Nothing,
        Kind::Conditional => {
            let left = count_left(cpu, it);
            if mark_again(cells, pass, place, cell, left != 0) {
                Known::Count(left)
            } else {
                Known::Nothing
            }
        }
    }
}

/// The same of the instruction that begins at the place, where it is a BC or a BCT: mostly all that a trap in a task's loop does.
#[inline(always)]
pub(crate) fn settle_again<C: Cells>(
    cells: &C,
    pass: &mut C::Pass,
    cpu: &Cpu,
    it: &Decoded,
    place: PlaceNo,
    cell: Cell,
) -> Known
    requires trap { IsTrapped (C.is_pass cells.now pass.old) (C.plan cells.now) (C.notes pass.old) place.0 cell }
    requires kind { kind_at (C.plan cells.now) place.0 ≡ kind_of (first_half it.now.code) }
    ensures area { C.is_pass cells.now pass.new }
    ensures traps { Traps (C.plan cells.now) (C.notes pass.old) (C.notes pass.new) cell place.0 it.now.code cpu.now result }
    ensures known { IsKnown result it.now.code cpu.now }
{
    // Two tests, with no load from a table.
    match it.code.first_half() / 256 {
        0x47 => condition_again(cells, pass, cpu, it, place, cell),
        0x46 => count_again(cells, pass, cpu, it, place, cell),
        _ => Known::Nothing,
    }
}
