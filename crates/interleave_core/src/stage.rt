//! Where a task stands in its instruction.

use cov_base::PlaceNo;
use module_area::Cell;
use s370_state::Ending;

/// What is to be done with a cell in hand before the instruction is executed.
#[derive(Clone, Copy)]
pub enum Due {
    Marking,
    Lifting,
    Nothing,
}

/// A cell in hand: whether it is that of the subject of an EX, its place, what was fetched there, and what is due.
#[derive(Clone, Copy)]
pub struct Hand {
    pub subject: bool,
    pub place: PlaceNo,
    pub cell: Cell,
    pub due: Due,
}

/// Where a task stands.
#[derive(Clone, Copy)]
pub enum Stage {
    /// Before an instruction.
    Ready,
    /// Behind an EX whose subject is to be fetched.
    Awaiting,
    Holding(Hand),
    Ended(Ending),
}
