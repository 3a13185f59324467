//! The cells and counts that threads share.
ghost use Rattle.std.specs.Prelude.{◌≡◌};
ghost use Rattle.count_session.specs.Words.{word_count};

use crate::rule::{CountRule, CountView, NoSlot};
use atomic_table::Table;
use module_area::Plan;
use std::alloc::Global;
use std::snapshot::Snapshot;

/// The words of one area, and its plan: a cell and two counts for each place.
#[derive(Drop)]
pub struct CountCells {
    pub(crate) table: Table<NoSlot, CountView, Snapshot<Plan>, CountRule, Global>,
    pub(crate) plan: Plan,
    ghost slotless: { table.shared.table_id.slots ≡ 0 },
    ghost keyed: { table.shared.key.value ≡ plan },
    ghost wide: { table.shared.table_id.words ≡ word_count plan },
}
