//! One step on one word for each call.
ghost use Rattle.std.specs.Prelude.{◌≡◌, ◌<◌, ◌^◌, Some, true, false, length};
ghost use Rattle.cov_base.specs.FactKind.{is_of_kind};
ghost use Rattle.module_area.specs.Meaning.{kind_at, window_at};
ghost use Rattle.count_session.specs.Notes.{after_add, after_fetch, after_plant, cell_at};
ghost use Rattle.count_session.specs.Passes.{IsPassOf, notes_of, plan_in};

use crate::cells::CountCells;
use crate::pass::CountPass;
use crate::words::{count_word, planted_word};
use cov_base::{Fact, PlaceNo};
use module_area::{Cell, cell};
use std::marker::Brand;

impl CountCells {
    /// Plants a place with a window, by the root, which hasn't planted it and has split off no pass: the breakpoint
    /// stands there under the window's tag from now on.
    pub fn plant(&self, root: &mut CountPass, place: PlaceNo)
        requires area { IsPassOf self.now root.old }
        requires root { (notes_of self.now root.old).root ≡ true }
        requires unsplit { (notes_of self.now root.old).given ≡ 0 }
        requires place { place.0 < length (plan_in self.now).places }
        requires window { 0 < window_at (plan_in self.now) place.0 }
        requires unplanted { (notes_of self.now root.old).planted place.0 ≡ false }
        ensures area { IsPassOf self.now root.new }
        ensures notes { notes_of self.now root.new ≡ after_plant (notes_of self.now root.old) place.0 }
    {
        let new = planted_word(self.plan.window(place));
        self.table
            .shared
            .swap::<Brand>(&mut root.seat, place.0 as usize, new);
    }

    /// The cell at a place: the breakpoint under the window's tag exactly where the root has planted it, and else the
    /// original under tag 0.
    pub fn fetch(&self, pass: &mut CountPass, place: PlaceNo) -> Cell
        requires area { IsPassOf self.now pass.old }
        requires place { place.0 < length (plan_in self.now).places }
        ensures area { IsPassOf self.now pass.new }
        ensures cell { result ≡ cell_at (plan_in self.now) (notes_of self.now pass.old) place.0 }
        ensures notes { notes_of self.now pass.new ≡ after_fetch (notes_of self.now pass.old) place.0 }
    {
        let found = self
            .table
            .shared
            .load::<Brand>(&mut pass.seat, place.0 as usize);
        cell(found)
    }

    /// Counts a fact of the place's kind once, by a pass that has just fetched the breakpoint there. The pass has added
    /// fewer than 2^40 times before, and the root never adds.
    pub fn add(&self, pass: &mut CountPass, place: PlaceNo, fact: Fact)
        requires area { IsPassOf self.now pass.old }
        requires task { (notes_of self.now pass.old).root ≡ false }
        requires room { (notes_of self.now pass.old).adds < 2 ^ 40 }
        requires place { place.0 < length (plan_in self.now).places }
        requires pending { (notes_of self.now pass.old).pending ≡ Some place.0 }
        requires kind { is_of_kind (kind_at (plan_in self.now) place.0) fact ≡ true }
        ensures area { IsPassOf self.now pass.new }
        ensures notes { notes_of self.now pass.new ≡ after_add (notes_of self.now pass.old) place.0 fact }
    {
        let at = count_word(&self.plan, place, fact);
        self.table.shared.fetch_add::<Brand>(&mut pass.seat, at, 1);
    }
}
