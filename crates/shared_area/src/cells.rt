//! The cells that threads share.
ghost use Rattle.std.specs.Prelude.{◌≡◌, ◌≤◌, length};
ghost use Rattle.cov_base.specs.declared.limits.TheConstants.{SESSION_LIMIT};
ghost use Rattle.shared_area.specs.Words.{AreFirsts, word_count};

use crate::rule::{AreaRule, NoSlot};
use atomic_table::Table;
use cov_base::SESSION_LIMIT;
use module_area::{Plan, View};
use std::alloc::Global;
use std::snapshot::Snapshot;

/// The words of one area, and its plan. Each call is one step on one word, through a shared reference; a mark looks at
/// its word first, and a look that doesn't find the fact is no step.
#[derive(Drop)]
pub struct SharedCells {
    pub(crate) table: Table<NoSlot, View, Snapshot<Plan>, AreaRule, Global>,
    pub(crate) plan: Plan,
    // of each session the number of its first word of sets
    pub(crate) firsts: [usize; SESSION_LIMIT],
    ghost slotless: { table.shared.table_id.slots ≡ 0 },
    ghost keyed: { table.shared.key.value ≡ plan },
    ghost few: { plan.sessions ≤ SESSION_LIMIT },
    ghost first: { AreFirsts (length plan.places) firsts },
    ghost wide: { table.shared.table_id.words ≡ word_count plan },
}
