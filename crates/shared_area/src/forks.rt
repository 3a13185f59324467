//! Passes split off for tasks and joined again, each by one load.
ghost use Rattle.std.specs.Prelude.{◌≡◌, true, []};
ghost use Rattle.module_area.specs.declared.parties.Role.TheVariants.{Root, Task};
ghost use Rattle.module_area.specs.Rule.{has_task, Has};
ghost use Rattle.module_area.specs.Parties.{giving, newcomer, joining, role_task};

use crate::cells::SharedCells;
use crate::pass::SharedPass;
use crate::rule::{Fork, Forking, NoSlot};
use crate::words::task_word;
use atomic_table::Seat;
use cov_base::TaskNo;
use module_area::{Forks, Tally, View};
use std::marker::Brand;

pub(crate) const NO_TALLY: Tally = Tally {
    plants: 0,
    fetches: 0,
    marks: 0,
    lifts: 0,
    closes: 0,
};

impl SharedCells {
    fn cut<K: Forking>(&self, seat: &mut Seat<NoSlot, View>, task: TaskNo) -> Seat<NoSlot, View>
        requires area { seat.old.table_id ≡ self.now.table.shared.table_id }
        requires root { seat.old.me.0.role ≡ Root }
        requires task { has_task self.now.plan.tasks task.0 ≡ true }
        requires first { Has task.0 seat.old.me.0.given → ⊥ }
        requires picked { (K.plan ≡ self.now.plan) × (K.task ≡ task.0) }
        ensures area { (seat.new.table_id ≡ seat.old.table_id) × (result.table_id ≡ seat.old.table_id) }
        ensures root { seat.new.me.0 ≡ giving task.0 seat.old.me.0 }
        ensures fresh { result.me.0 ≡ newcomer self.now.plan task.0 seat.old.me.0 }
        ensures slots { (seat.new.me.1 ≡ seat.old.me.1) × (result.me.1 ≡ []) }
    {
        self.table.shared.split_seat::<Fork<K>>(seat)
    }

    fn merge<K: Forking>(&self, seat: &mut Seat<NoSlot, View>, other: Seat<NoSlot, View>)
        requires area { seat.old.table_id ≡ self.now.table.shared.table_id }
        requires other { (other.table_id ≡ self.now.table.shared.table_id) × (other.me.1 ≡ []) }
        requires root { seat.old.me.0.role ≡ Root }
        requires task { other.me.0.role ≡ Task (role_task other.me.0.role) }
        requires picked { K.plan ≡ self.now.plan }
        ensures area { seat.new.table_id ≡ seat.old.table_id }
        ensures view { seat.new.me.0 ≡ joining self.now.plan seat.old.me.0 other.me.0 }
        ensures slots { seat.new.me.1 ≡ seat.old.me.1 }
    {
        self.table.shared.join_seat::<Fork<K>>(seat, other);
    }
}

impl Forks for SharedCells {
    fn split(&self, root: &mut SharedPass, task: TaskNo) -> SharedPass {
        let word = task_word(&self.plan, task);
        let seat = self.cut::<Brand>(&mut root.seat, task);
        SharedPass {
            seat,
            tally: NO_TALLY,
            word,
        }
    }

    fn join(&self, root: &mut SharedPass, other: SharedPass) {
        let SharedPass {
            seat,
            tally,
            word: _,
        } = other;
        self.merge::<Brand>(&mut root.seat, seat);
        root.tally.plants += tally.plants;
        root.tally.fetches += tally.fetches;
        root.tally.marks += tally.marks;
        root.tally.lifts += tally.lifts;
        root.tally.closes += tally.closes;
    }
}
