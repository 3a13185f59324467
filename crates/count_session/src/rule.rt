//! The rule of the words, and what a call picks of a step.

use atomic_table::{Join, Play, Split, TableRule};
use module_area::Plan;
use std::collections::LinkedList;
use std::marker::Brand;
use std::snapshot::Snapshot;

/// What the slots would hold: there are none.
#[derive(Drop)]
pub struct NoSlot;

/// What a pass knows and has done, as the rule tells it. No value of it is made.
pub struct CountView {
    /// It is the root.
    pub root: bool,
    /// It wasn't joined yet.
    pub live: bool,
    /// The places that the root has planted.
    pub planted: LinkedList<u64>,
    /// The place of its last fetch, where that answered the breakpoint.
    pub pending: Option<u64>,
    /// The word of each of its adds, and of those of the passes that were joined to it.
    pub added: LinkedList<u64>,
    /// For the root: how many passes it has split off.
    pub given: u64,
    /// How many passes' adds it has.
    pub passes: u64,
}

/// The rule that the words of a counting area and what its passes know keep.
pub struct CountRule;

impl TableRule<NoSlot, CountView, Snapshot<Plan>> for CountRule {
    ghost use Rattle.count_session.specs.Rule.{IsCounting, first_view};

    ghost holds = { λ k. IsCounting k.value };

    ghost first = { λ _. first_view };
}

// Each call picks what its step tells.
impl Play<NoSlot, CountView> for Brand {
    ghost then = { λ _ _ _ _. Unit {0} };
}

pub(crate) struct Fork;

impl Split<CountView> for Fork {
    ghost use Rattle.count_session.specs.Rule.{giving, newcomer};

    ghost left = { giving };

    ghost right = { newcomer };
}

impl Join<CountView> for Fork {
    ghost use Rattle.count_session.specs.Rule.{joining, spent_view};

    ghost both = { joining };

    ghost spent = { spent_view };
}
