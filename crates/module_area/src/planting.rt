//! Planting: before a phase's first task runs, each place of a whole session gets its breakpoint; those of a session that
//! a task opens get theirs by its pass, which closes them too.
ghost use Rattle.std.specs.Prelude.{◌≡◌, ℕ, ◌+◌, ◌<◌, ◌≤◌, ◌^◌, length};
ghost use Rattle.std.specs.declared.option.Option.TheVariants.{None};
ghost use Rattle.cov_base.specs.declared.limits.TheConstants.{PLACE_LIMIT};
ghost use Rattle.module_area.specs.Meaning.{window_at};
ghost use Rattle.module_area.specs.Notes.{calls};
ghost use Rattle.module_area.specs.Planted.{planted_notes};

use crate::plan::Plan;
use crate::traits::Cells;
use cov_base::{PlaceNo, SessNo};

/// Plants each place with a window once, by the root, which has planted none of them yet, and takes no other step.
/// The root's tally sums to less than 2^61 before.
pub fn plant_all<C: Cells>(cells: &C, pass: &mut C::Pass, plan: &Plan)
    requires area { C.is_pass cells.now pass.old }
    requires plan { C.plan cells.now ≡ plan.now }
    requires room { calls (C.notes pass.old) < 2 ^ 61 }
    requires root { (C.notes pass.old).bears ≡ None }
    requires first { (p : ℕ) → 0 < window_at plan.now p → (C.notes pass.old).last p ≡ 0 }
    ensures area { C.is_pass cells.now pass.new }
    ensures notes { C.notes pass.new ≡ planted_notes plan.now (C.notes pass.old) (length plan.now.windows) }
    ensures calls { calls (C.notes pass.new) ≤ calls (C.notes pass.old) + PLACE_LIMIT }
{
    for (i, window) in plan.windows.iter().enumerate() {
        if *window != 0 {
            cells.plant(pass, SessNo(*window), PlaceNo(i as u32));
        }
    }
}
