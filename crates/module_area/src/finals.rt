//! The sets that an area ends with.
ghost use Rattle.std.specs.Prelude.{◌≡◌, ◌+◌, ◌-◌, ◌*◌, ◌<◌, ◌≤◌, length};
ghost use Rattle.module_area.specs.Meaning.{set_at};

use cov_base::{Bits, PlaceNo, SessNo};
use std::marker::Model;

/// The number of the plan's places, and the sets: that of session s at place p stands at (s - 1) times this
/// number plus p.
#[derive(Drop)]
pub struct Finals {
    pub places: u32,
    pub sets: Vec<Bits>,
}

impl Model for Finals {
    ghost use Rattle.module_area.specs.Meaning.{FinalsView};

    ghost Value = { FinalsView };

    ghost view = { λ f. record { places = f.places; sets = f.sets.items } };
}

impl Finals {
    /// The set of the session at the place, both of the plan: the sets have all rows of places up to the session's.
    pub fn set(&self, s: SessNo, place: PlaceNo) -> Bits
        requires session { 0 < s.0 }
        requires place { place.0 < self.now.places }
        requires within { s.0 * self.now.places ≤ length self.now.sets }
        ensures { result ≡ set_at self.now s.0 place.0 }
    {
        self.sets[(s.0 as usize - 1) * self.places as usize + place.0 as usize]
    }
}
