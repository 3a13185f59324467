//! The events of a core, and what they show.

use cov_base::{Bits, PlaceNo, SessNo, TaskNo};
use module_area::Cell;

/// An event of one task, or of the planter.
#[derive(Clone, Copy)]
pub enum Event {
    /// The task fetches the cell of the place at which it is about to read an instruction or the subject of an EX.
    Fetch(TaskNo),
    /// It marks what the instruction shows, having a breakpoint in hand.
    Mark(TaskNo),
    /// It takes the breakpoint out by one try, where its mark left the set full.
    Lift(TaskNo),
    /// It executes the instruction, an EX only up to its subject where a place begins there, or ends before one.
    Do(TaskNo),
    /// The session's breakpoint is planted at the place: by the planter for a whole session, by its controller as it
    /// opens it for another.
    Plant(SessNo, PlaceNo),
    /// The original takes the place of whatever the session has left there, as its controller closes it.
    Close(SessNo, PlaceNo),
}

/// What an event shows.
#[derive(Clone, Copy)]
pub enum Shown {
    /// The cell that was fetched.
    Fetched(Cell),
    /// The set as the mark found it.
    Marked(Bits),
    /// Whether the try exchanged the breakpoint for the original.
    Lifted(bool),
    Done,
    Planted,
    Closed,
}

/// The event isn't possible in the core as it stands.
#[derive(Clone, Copy)]
pub struct NotPossible;
