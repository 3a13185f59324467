//! The counts that an area ends with.
ghost use Rattle.std.specs.Prelude.{◌≡◌, ◌<◌, ◌≤◌, true, length, IfOk};
ghost use Rattle.std.specs.Slots.{slots_items, slots_len, IsFull};
ghost use Rattle.count_session.specs.Passes.{IsPassOf, notes_of, plan_in};
ghost use Rattle.count_session.specs.Tallied.{HasCounts, AreRead, count_in, fact_count};
ghost use Rattle.count_session.specs.Words.{word_count};

use crate::cells::CountCells;
use crate::pass::CountPass;
use crate::rule::NoSlot;
use crate::words::count_word;
use atomic_table::Closed;
use cov_base::{Fact, Kind, NoMemory, PlaceNo};
use module_area::Plan;
use std::alloc::{AllocError, Global};
use std::marker::Model;

/// The counts at a place: of Ran or Went, by its kind, and of Stayed.
#[derive(Clone, Copy)]
pub struct PlaceCount {
    pub kind: Kind,
    pub first: u64,
    pub stayed: u64,
}

/// The counts at each place of an area that was ended.
#[derive(Drop)]
pub struct Counts {
    places: Vec<PlaceCount>,
}

impl Model for Counts {
    ghost use Rattle.std.specs.Prelude.{List};
    ghost use Rattle.count_session.specs.declared.counts.PlaceCount.{PlaceCount};

    ghost Value = { List PlaceCount };

    ghost view = { λ c. c.places.items };
}

impl PlaceCount {
    /// How often the fact was counted: never where it isn't of the place's kind.
    fn of(&self, fact: Fact) -> u64
        ensures { result ≡ fact_count self.now fact }
    {
        match (self.kind, fact) {
            (Kind::Straight, Fact::Ran) => self.first,
            (Kind::Conditional, Fact::Went) => self.first,
            (Kind::Conditional, Fact::Stayed) => self.stayed,
            _ => 0,
        }
    }
}

impl Counts {
    /// How often all passes added the fact at the place, which is one of the plan.
    pub fn get(&self, place: PlaceNo, fact: Fact) -> u64
        requires { place.0 < length self.now }
        ensures { result ≡ count_in self.now place.0 fact }
    {
        self.places[place.0 as usize].of(fact)
    }
}

/// The counts that the words show in the end.
fn last_counts(
    alloc: Global,
    closed: &Closed<NoSlot, Global>,
    plan: &Plan,
) -> Result<Vec<PlaceCount>, AllocError>
    requires full { IsFull closed.now.words }
    requires wide { slots_len closed.now.words ≡ word_count plan.now }
    ensures size { IfOk result (λ v. length v.items ≡ length plan.now.places) }
    ensures read { IfOk result (λ v. AreRead plan.now (slots_items closed.now.words) v.items) }
{
    let count = plan.places_len();
    let mut places = Vec::with_capacity(alloc, count as usize)?;
    for p in 0..count {
        let place = PlaceNo(p);
        places.push(PlaceCount {
            kind: plan.kind(place),
            first: closed.word(count_word(plan, place, Fact::Ran)),
            stayed: closed.word(count_word(plan, place, Fact::Stayed)),
        })?;
    }
    Ok(places)
}

impl CountCells {
    /// Ends the area, once each pass that was split off from the root was joined: what all passes have added. Where memory
    /// is wanting the area is gone.
    pub fn finish(self, alloc: Global, root: CountPass) -> Result<Counts, NoMemory>
        requires area { IsPassOf self root }
        requires root { (notes_of self root).root ≡ true }
        requires joined { (notes_of self root).passes ≡ (notes_of self root).given }
        ensures { IfOk result (HasCounts (plan_in self) (notes_of self root)) }
    {
        let CountCells { table, plan } = self;
        let CountPass { seat } = root;
        let closed = table.close_with(seat);
        let places = last_counts(alloc, &closed, &plan);
        closed.free();
        Ok(Counts { places: places? })
    }
}
