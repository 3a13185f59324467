//! A controller's sessions: the next one is opened, the open one is closed.
ghost use Rattle.std.specs.Prelude.{◌≡◌, ◌+◌, ◌<◌, ◌≤◌, ◌^◌, length};
ghost use Rattle.cov_base.specs.declared.limits.TheConstants.{PLACE_LIMIT};
ghost use Rattle.module_area.specs.Notes.{calls};
ghost use Rattle.module_area.specs.Meaning.{to_open, opening, closing};
ghost use Rattle.module_area.specs.Control.{after_plants, after_closes, after_open, after_end};
ghost use Rattle.module_area.specs.Tied.{CanChange, IsTied};
ghost use Rattle.module_area.specs.Allowed.{MayPlant, MayClose};

use crate::control::Control;
use crate::plan::Plan;
use crate::traits::Cells;
use cov_base::{PlaceNo, SessNo};

/// Plants the session at each of the places, in order.
fn plant_places<C: Cells>(cells: &C, pass: &mut C::Pass, s: SessNo, places: &[PlaceNo])
    requires area { C.is_pass cells.now pass.old }
    requires room { calls (C.notes pass.old) + length places.now ≤ 2 ^ 62 }
    requires session { 0 < s.0 }
    requires each { MayPlant (C.plan cells.now) (C.notes pass.old) s.0 places.now }
    ensures area { C.is_pass cells.now pass.new }
    ensures notes { C.notes pass.new ≡ after_plants (C.notes pass.old) s.0 places.now }
{
    for place in places {
        cells.plant(pass, s, *place);
    }
}

/// Closes the session at each of the places, in order.
fn close_places<C: Cells>(cells: &C, pass: &mut C::Pass, s: SessNo, places: &[PlaceNo])
    requires area { C.is_pass cells.now pass.old }
    requires room { calls (C.notes pass.old) + length places.now ≤ 2 ^ 62 }
    requires session { 0 < s.0 }
    requires each { MayClose (C.plan cells.now) (C.notes pass.old) s.0 places.now }
    ensures area { C.is_pass cells.now pass.new }
    ensures notes { C.notes pass.new ≡ after_closes (C.notes pass.old) s.0 places.now }
{
    for place in places {
        cells.close(pass, s, *place);
    }
}

/// The session that opening opens.
fn to_open(control: &Control) -> Option<SessNo>
    ensures { result ≡ to_open control.now }
{
    match control.opened {
        None => control.sessions.get(control.next as usize).copied(),
        Some(_) => None,
    }
}

/// Opens the next session of the control where none is open and one is left: plants each of its places, in order of
/// number. Else it does nothing. The pass is tied to the control, before and after; its tally sums to less than
/// 2^61 + 2^16 before.
pub fn open_next<C: Cells>(cells: &C, pass: &mut C::Pass, plan: &Plan, control: &mut Control)
    requires can { CanChange (C.is_pass cells.now pass.old) (C.plan cells.now) plan.now (C.notes pass.old) control.old }
    ensures area { C.is_pass cells.now pass.new }
    ensures tied { IsTied plan.now (C.notes pass.new) control.new }
    ensures bears { (C.notes pass.new).bears ≡ (C.notes pass.old).bears }
    ensures control { control.new ≡ opening control.old (to_open control.old) }
    ensures notes { C.notes pass.new ≡ after_open plan.now (C.notes pass.old) (to_open control.old) }
    ensures calls { calls (C.notes pass.new) ≤ calls (C.notes pass.old) + PLACE_LIMIT }
{
    if let Some(s) = to_open(control) {
        plant_places(cells, pass, s, plan.places_under(s));
        control.next += 1;
        control.opened = Some(s);
    }
}

/// Closes the open session of the control, if there is one: closes it at each of its places, in order of number. The
/// pass is tied to the control, before and after; its tally sums to less than 2^61 + 2^16 before.
pub fn close_open<C: Cells>(cells: &C, pass: &mut C::Pass, plan: &Plan, control: &mut Control)
    requires can { CanChange (C.is_pass cells.now pass.old) (C.plan cells.now) plan.now (C.notes pass.old) control.old }
    ensures area { C.is_pass cells.now pass.new }
    ensures tied { IsTied plan.now (C.notes pass.new) control.new }
    ensures bears { (C.notes pass.new).bears ≡ (C.notes pass.old).bears }
    ensures control { control.new ≡ closing control.old }
    ensures notes { C.notes pass.new ≡ after_end plan.now (C.notes pass.old) control.old.opened }
    ensures calls { calls (C.notes pass.new) ≤ calls (C.notes pass.old) + PLACE_LIMIT }
{
    if let Some(s) = control.opened {
        close_places(cells, pass, s, plan.places_under(s));
        control.opened = None;
    }
}
