//! What a thread steps with.
ghost use Rattle.std.specs.Prelude.{◌≡◌, ◌≢◌, true, length};
ghost use Rattle.module_area.specs.declared.parties.Role.TheVariants.{Spent};
ghost use Rattle.shared_area.specs.Told.{is_given};

use crate::rule::NoSlot;
use atomic_table::Seat;
use module_area::{Tally, View};

/// The root, or the pass of a task: a seat at the words, the tally, and the number of the task's own word.
#[derive(Drop)]
pub struct SharedPass {
    pub(crate) seat: Seat<NoSlot, View>,
    pub(crate) tally: Tally,
    pub(crate) word: usize,
    ghost live: { seat.me.0.role ≢ Spent },
    ghost counted: { (tally.marks ≡ length seat.me.0.marked) × (tally.lifts ≡ length seat.me.0.lifted) },
    ghost given: { is_given seat.me.0.given seat.me.0.joined ≡ true },
}
