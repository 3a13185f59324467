//! A fetch: one load of a place's word.
ghost use Rattle.std.specs.Prelude.{◌≡◌};
ghost use Rattle.shared_area.specs.Rule.{MayFetch, Fetched};

use crate::cells::SharedCells;
use crate::rule::{Fetch, Fetching, NoSlot};
use atomic_table::Seat;
use cov_base::PlaceNo;
use module_area::{Cell, View, cell};

impl SharedCells {
    /// The cell as the load finds it.
    #[inline(always)]
    pub(crate) fn cell_at<K: Fetching>(&self, seat: &mut Seat<NoSlot, View>, place: PlaceNo) -> Cell
        requires area { seat.old.table_id ≡ self.now.table.shared.table_id }
        requires may { MayFetch self.now.plan place.0 seat.old.me.0 }
        requires picked { (K.plan ≡ self.now.plan) × (K.place ≡ place.0) }
        ensures area { seat.new.table_id ≡ seat.old.table_id }
        ensures told { Fetched self.now.plan place.0 seat.old.me.0 result seat.new.me.0 }
        ensures slots { seat.new.me.1 ≡ seat.old.me.1 }
    {
        let found = self.table.shared.load::<Fetch<K>>(seat, place.0 as usize);
        cell(found)
    }
}
