//! The sets of a job before anything was executed.
ghost use Rattle.cov_base.specs.Meaning.{no_facts};

use cov_base::{Bits, PlaceNo, SessNo};
use session_book::FactSets;

/// So many sessions, each with an empty set at each of so many places.
#[derive(Clone, Copy)]
pub struct NoSets {
    pub sessions: u32,
    pub places: u32,
}

impl FactSets for NoSets {
    ghost sessions = { λ n. n.sessions };

    ghost places = { λ n. n.places };

    ghost set_of = { λ n s p. no_facts };

    fn set(&self, _s: SessNo, _p: PlaceNo) -> Bits {
        Bits::empty()
    }
}
