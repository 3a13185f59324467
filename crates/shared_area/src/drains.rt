//! The calls on the tasks' words, and the look at a set that may be final.
ghost use Rattle.std.specs.Prelude.{◌≡◌, ◌≢◌, ◌<◌, ◌≤◌, if◌then◌else◌, length};
ghost use Rattle.module_area.specs.declared.parties.Role.TheVariants.{Spent};
ghost use Rattle.shared_area.specs.Rule.{SetRead};

use crate::cells::SharedCells;
use crate::pass::SharedPass;
use crate::rule::{Marking, NoSlot, Read};
use crate::words::{facts, task_word, word_at};
use atomic_table::Seat;
use cov_base::{Bits, PlaceNo, SessNo, TaskNo};
use module_area::{Drains, View};
use std::marker::Brand;

/// By how much a boundary raises its task's number.
fn rise(ended: bool) -> u64
    ensures { result ≡ (if ended then 1 else 2) }
{
    if ended { 1 } else { 2 }
}

impl SharedCells {
    /// The set as a load finds it.
    fn read<K: Marking>(&self, seat: &mut Seat<NoSlot, View>, s: SessNo, place: PlaceNo) -> Bits
        requires area { seat.old.table_id ≡ self.now.table.shared.table_id }
        requires live { seat.old.me.0.role ≢ Spent }
        requires place { place.0 < length self.now.plan.places }
        requires session { 0 < s.0 }
        requires in_plan { s.0 ≤ self.now.plan.sessions }
        requires picked { (K.plan ≡ self.now.plan) × (K.session ≡ s.0) × (K.place ≡ place.0) }
        ensures area { seat.new.table_id ≡ seat.old.table_id }
        ensures told { SetRead self.now.plan s.0 place.0 seat.old.me.0 result seat.new.me.0 }
        ensures slots { seat.new.me.1 ≡ seat.old.me.1 }
    {
        let at = word_at(&self.plan, s, place);
        let found = self.table.shared.load::<Read<K>>(seat, at);
        facts(self.plan.kind(place), place, found)
    }
}

impl Drains for SharedCells {
    fn boundary(&self, pass: &mut SharedPass, ended: bool) {
        self.table
            .shared
            .fetch_add::<Brand>(&mut pass.seat, pass.word, rise(ended));
    }

    fn note(&self, pass: &mut SharedPass, task: TaskNo) -> u64 {
        let at = task_word(&self.plan, task);
        self.table.shared.load::<Brand>(&mut pass.seat, at)
    }

    fn read_set(&self, pass: &mut SharedPass, s: SessNo, place: PlaceNo) -> Bits {
        self.read::<Brand>(&mut pass.seat, s, place)
    }
}
