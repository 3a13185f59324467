//! The supervisor calls by which a task opens and closes its sessions.
ghost use Rattle.std.specs.Prelude.{◌≡◌, ◌+◌, ◌≤◌};
ghost use Rattle.cov_base.specs.declared.limits.TheConstants.{PLACE_LIMIT};
ghost use Rattle.module_area.specs.Notes.{calls};
ghost use Rattle.module_area.specs.Meaning.{control_after};
ghost use Rattle.module_area.specs.Control.{after_call};
ghost use Rattle.module_area.specs.Tied.{CanChange, IsTied};
ghost use Rattle.task_run.specs.Called.{call_at};

use module_area::{Cells, Control, Plan, close_open, open_next};

/// Does what the call of this number asks of the sessions that the task controls: 4 opens, 5 closes.
#[inline(never)]
fn change<C: Cells>(cells: &C, pass: &mut C::Pass, plan: &Plan, control: &mut Control, call: u16)
    requires can { CanChange (C.is_pass cells.now pass.old) (C.plan cells.now) plan.now (C.notes pass.old) control.old }
    ensures area { C.is_pass cells.now pass.new }
    ensures tied { IsTied plan.now (C.notes pass.new) control.new }
    ensures control { control.new ≡ control_after control.old (Some call) }
    ensures notes { C.notes pass.new ≡ after_call plan.now (C.notes pass.old) control.old (Some call) }
    ensures calls { calls (C.notes pass.new) ≤ calls (C.notes pass.old) + PLACE_LIMIT }
{
    match call {
        4 => open_next(cells, pass, plan, control),
        5 => close_open(cells, pass, plan, control),
        _ => {}
    }
}

/// Opens or closes a session where the instruction with this first halfword is the SVC that asks for it, whose operation
/// code is X'0A'.
#[inline(always)]
pub(crate) fn answer<C: Cells>(
    cells: &C,
    pass: &mut C::Pass,
    plan: &Plan,
    control: &mut Control,
    half: u16,
)
    requires can { CanChange (C.is_pass cells.now pass.old) (C.plan cells.now) plan.now (C.notes pass.old) control.old }
    ensures area { C.is_pass cells.now pass.new }
    ensures tied { IsTied plan.now (C.notes pass.new) control.new }
    ensures control { control.new ≡ control_after control.old (call_at half) }
    ensures notes { C.notes pass.new ≡ after_call plan.now (C.notes pass.old) control.old (call_at half) }
    ensures calls { calls (C.notes pass.new) ≤ calls (C.notes pass.old) + PLACE_LIMIT }
{
    if half / 256 == 0x0A {
        change(cells, pass, plan, control, half % 256);
    }
}
