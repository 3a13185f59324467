//! What a party has done and knows, as the rule of an area tells it. It exists in proofs alone.

use crate::cells::Cell;
use cov_base::{Bits, Fact};
use std::collections::LinkedList;

/// The root, which is the planter of a core; the pass of a task, or the task of a core; or a pass that was joined.
pub enum Role {
    Root,
    Task(u64),
    Spent,
}

/// A fetch, or the giving of a tag by planting or closing: the place, and the tag that it answered or gave.
pub enum Beat {
    Met(u64, u64),
    Gave(u64, u64),
}

/// The notes of one party. No value of it is made.
pub struct View {
    pub role: Role,
    /// Session, place and fact of each of its marks.
    pub marked: LinkedList<(u64, u64, Fact)>,
    /// Session and place, where it met the set full.
    pub full: LinkedList<(u64, u64)>,
    /// Session and place, where it fetched the original under the session's tag, or tried to lift.
    pub free: LinkedList<(u64, u64)>,
    /// Session and place of each breakpoint that it took out.
    pub lifted: LinkedList<(u64, u64)>,
    /// Place and tag, as it has met them.
    pub seen: LinkedList<(u64, u64)>,
    /// Place and tag of its last fetch, where that answered a breakpoint.
    pub pending: Option<(u64, u64)>,
    /// Place and cell of each of its fetches, in order.
    pub answered: LinkedList<(u64, Cell)>,
    /// Place and tag of what it planted and closed, the last first.
    pub planted: LinkedList<(u64, u64)>,
    /// For the root: the tasks that were given out, and those of them that have come back.
    pub given: LinkedList<u64>,
    pub joined: LinkedList<u64>,
    /// Task and number of each boundary, the last first; for the root those of the tasks that have come back.
    pub numbers: LinkedList<(u64, u64)>,
    /// Task and number of each look at a task's word, with what it had seen then, the last first.
    pub noted: LinkedList<(u64, u64, LinkedList<(u64, u64)>)>,
    /// Session, place and set, where it knows the set as final.
    pub settled: LinkedList<(u64, u64, Bits)>,
    /// The set of each of its marks and looks at sets, the last first.
    pub found: LinkedList<Bits>,
    /// Its fetches and the tags that it gave, the last first.
    pub beats: LinkedList<Beat>,
    /// For the root: those of the tasks that have come back.
    pub back: LinkedList<(u64, LinkedList<Beat>)>,
}
