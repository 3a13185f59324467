//! What a thread steps with.
ghost use Rattle.std.specs.Prelude.{◌≡◌, true};

use crate::rule::{CountView, NoSlot};
use atomic_table::Seat;
use job_run::Slot;

/// The root, or the pass of a task: a seat at the words.
#[derive(Drop)]
pub struct CountPass {
    pub(crate) seat: Seat<NoSlot, CountView>,
    ghost live: { seat.me.0.live ≡ true },
}

/// A task's slot, which keeps nothing beside the task and its pass.
pub type CountSlot<'a> = Slot<'a, CountPass, ()>;
