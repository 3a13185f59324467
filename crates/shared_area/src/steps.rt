//! One step on one word for each call.
ghost use Rattle.std.specs.Prelude.{◌≡◌};
ghost use Rattle.shared_area.specs.Passes.{notes_of, IsPassOf};
ghost use Rattle.shared_area.specs.Words.{word_count};

use crate::cells::SharedCells;
use crate::pass::SharedPass;
use crate::words::{closed_word, window_word};
use cov_base::{BREAKPOINT, Bits, Fact, PlaceNo, SessNo};
use module_area::{Cell, Cells};
use std::marker::Brand;

impl Cells for SharedCells {
    type Pass = SharedPass;

    ghost plan = { λ c. c.plan };

    ghost is_pass = { IsPassOf };

    ghost notes = { notes_of };

    fn fetch(&self, pass: &mut SharedPass, place: PlaceNo) -> Cell {
        let found = self.cell_at::<Brand>(&mut pass.seat, place);
        pass.tally.fetches += 1;
        found
    }

    fn mark(&self, pass: &mut SharedPass, s: SessNo, place: PlaceNo, fact: Fact) -> Bits {
        let found = self.mark_set(&mut pass.seat, s, place, fact);
        pass.tally.marks += 1;
        found
    }

    #[inline(always)]
    fn mark_again(&self, pass: &mut SharedPass, s: SessNo, place: PlaceNo, fact: Fact) -> bool {
        let again = self.look_again(&mut pass.seat, s, place, fact);
        if again {
            pass.tally.marks += 1;
        }
        again
    }

    // It is seldom called, and stays out of the task's loop.
    #[cold]
    #[inline(never)]
    fn lift(&self, pass: &mut SharedPass, s: SessNo, place: PlaceNo) -> bool {
        let old = window_word(s.0, BREAKPOINT);
        let new = window_word(s.0, self.plan.original(place));
        let at = place.0 as usize;
        let found = self
            .table
            .shared
            .compare_exchange::<Brand>(&mut pass.seat, at, old, new);
        let exchanged = found == old;
        pass.tally.lifts += exchanged as u64;
        exchanged
    }

    fn plant(&self, pass: &mut SharedPass, s: SessNo, place: PlaceNo) {
        let new = window_word(s.0, BREAKPOINT);
        self.table
            .shared
            .swap::<Brand>(&mut pass.seat, place.0 as usize, new);
        pass.tally.plants += 1;
    }

    fn close(&self, pass: &mut SharedPass, s: SessNo, place: PlaceNo) {
        let over = closed_word(s.0, self.plan.original(place));
        self.table
            .shared
            .swap::<Brand>(&mut pass.seat, place.0 as usize, over);
        pass.tally.closes += 1;
    }
}

impl SharedCells {
    /// The number of words that the area has: one for each place, for each session one for 32 places, the last of which
    /// may have fewer, and one for each task; or 1 where there is none of these.
    pub fn words(&self) -> u64
        ensures { result ≡ word_count (⟦<SharedCells as Cells>⟧.plan self.now) }
    {
        self.table.word_count() as u64
    }
}
