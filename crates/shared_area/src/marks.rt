//! A mark: a look at the word, which is its step where the fact is there, or else the addition of one bit.
ghost use Rattle.std.specs.Prelude.{◌≡◌, ◌<◌, ◌≤◌, length, true, false};
ghost use Rattle.cov_base.specs.Meaning.{FactSet, has_fact};
ghost use Rattle.module_area.specs.Again.{only};
ghost use Rattle.shared_area.specs.Rule.{MayMark, Marked, Looked, LookedIn, has};
ghost use Rattle.shared_area.specs.Words.{set_word};

use crate::cells::SharedCells;
use crate::rule::{Addition, Look, Marking, NoSlot};
use crate::words::{bit, facts, is_only, kind_of};
use atomic_table::Seat;
use cov_base::{Bits, Fact, PlaceNo, SessNo};
use module_area::View;
use std::marker::Brand;

impl SharedCells {
    /// The number of the word that has the set.
    #[inline(always)]
    fn set_at(&self, s: SessNo, place: PlaceNo) -> usize
        requires session { 0 < s.0 }
        requires in_plan { s.0 ≤ self.now.plan.sessions }
        ensures { result ≡ set_word (length self.now.plan.places) s.0 place.0 }
    {
        self.firsts[s.0 as usize - 1] + place.0 as usize / 32
    }

    /// The word of the set as a load finds it. Where the set is one of these the mark is done; else nothing is.
    #[inline(always)]
    fn look_word<K: Marking>(
        &self,
        seat: &mut Seat<NoSlot, View>,
        s: SessNo,
        place: PlaceNo,
        fact: Fact,
    ) -> u64
        requires area { seat.old.table_id ≡ self.now.table.shared.table_id }
        requires may { MayMark self.now.plan s.0 place.0 fact seat.old.me.0 }
        requires picked { (K.plan ≡ self.now.plan) × (K.session ≡ s.0) × (K.place ≡ place.0) × (K.fact ≡ fact) }
        requires there { (x : FactSet) → K.is x ≡ true → has_fact x fact ≡ true }
        ensures area { seat.new.table_id ≡ seat.old.table_id }
        ensures told { LookedIn K.is self.now.plan s.0 place.0 fact seat.old.me.0 result seat.new.me.0 }
        ensures slots { seat.new.me.1 ≡ seat.old.me.1 }
    {
        let at = self.set_at(s, place);
        self.table.shared.load::<Look<K>>(seat, at)
    }

    /// The set as a load finds it. Where the fact is there the mark is done; else nothing is.
    fn look(&self, seat: &mut Seat<NoSlot, View>, s: SessNo, place: PlaceNo, fact: Fact) -> Bits
        requires area { seat.old.table_id ≡ self.now.table.shared.table_id }
        requires may { MayMark self.now.plan s.0 place.0 fact seat.old.me.0 }
        ensures area { seat.new.table_id ≡ seat.old.table_id }
        ensures told { Looked (has fact) self.now.plan s.0 place.0 fact seat.old.me.0 result seat.new.me.0 }
        ensures slots { seat.new.me.1 ≡ seat.old.me.1 }
    {
        let found = self.look_word::<Brand>(seat, s, place, fact);
        facts(kind_of(fact), place, found)
    }

    /// Whether a load finds the fact and no other. There the mark is done; else nothing is.
    #[inline(always)]
    pub(crate) fn look_again(
        &self,
        seat: &mut Seat<NoSlot, View>,
        s: SessNo,
        place: PlaceNo,
        fact: Fact,
    ) -> bool
        requires area { seat.old.table_id ≡ self.now.table.shared.table_id }
        requires may { MayMark self.now.plan s.0 place.0 fact seat.old.me.0 }
        ensures area { seat.new.table_id ≡ seat.old.table_id }
        ensures there { result ≡ true → Marked self.now.plan s.0 place.0 fact seat.old.me.0 (only fact) seat.new.me.0 }
        ensures wanting { result ≡ false → seat.new.me.0 ≡ seat.old.me.0 }
        ensures slots { seat.new.me.1 ≡ seat.old.me.1 }
    {
        let found = self.look_word::<Brand>(seat, s, place, fact);
        is_only(place, fact, found)
    }

    /// Adds the fact by one fetch_or of its bit, and answers the set as it was. It is called a few times for each place, so
    /// that it stays out of the task's loop.
    #[cold]
    #[inline(never)]
    fn add<K: Marking>(
        &self,
        seat: &mut Seat<NoSlot, View>,
        s: SessNo,
        place: PlaceNo,
        fact: Fact,
    ) -> Bits
        requires area { seat.old.table_id ≡ self.now.table.shared.table_id }
        requires may { MayMark self.now.plan s.0 place.0 fact seat.old.me.0 }
        requires picked { (K.plan ≡ self.now.plan) × (K.session ≡ s.0) × (K.place ≡ place.0) × (K.fact ≡ fact) }
        ensures area { seat.new.table_id ≡ seat.old.table_id }
        ensures told { Marked self.now.plan s.0 place.0 fact seat.old.me.0 result seat.new.me.0 }
        ensures slots { seat.new.me.1 ≡ seat.old.me.1 }
    {
        let at = self.set_at(s, place);
        let bit = bit(place, fact);
        let found = self.table.shared.fetch_or::<Addition<K>>(seat, at, bit);
        facts(self.plan.kind(place), place, found)
    }
    /// Adds the fact unless a look finds it there, and answers the set as it was.
    pub(crate) fn mark_set(
        &self,
        seat: &mut Seat<NoSlot, View>,
        s: SessNo,
        place: PlaceNo,
        fact: Fact,
    ) -> Bits
        requires area { seat.old.table_id ≡ self.now.table.shared.table_id }
        requires may { MayMark self.now.plan s.0 place.0 fact seat.old.me.0 }
        ensures area { seat.new.table_id ≡ seat.old.table_id }
        ensures told { Marked self.now.plan s.0 place.0 fact seat.old.me.0 result seat.new.me.0 }
        ensures slots { seat.new.me.1 ≡ seat.old.me.1 }
    {
        let known = self.look(seat, s, place, fact);
        if known.has(fact) {
            known
        } else {
            self.add::<Brand>(seat, s, place, fact)
        }
    }
}
