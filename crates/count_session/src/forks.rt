//! Passes split off from the root and joined to it again, each by one load.
ghost use Rattle.std.specs.Prelude.{◌≡◌, ◌<◌, true, false};
ghost use Rattle.count_session.specs.Notes.{after_join, after_split, split_notes};
ghost use Rattle.count_session.specs.Passes.{IsPassOf, notes_of};

use crate::cells::CountCells;
use crate::pass::CountPass;
use crate::rule::Fork;

impl CountCells {
    /// A pass for a task: it knows the places that the root has planted, and has added nothing. The root has split off
    /// fewer than 65,535.
    pub fn split(&self, root: &mut CountPass) -> CountPass
        requires area { IsPassOf self.now root.old }
        requires root { (notes_of self.now root.old).root ≡ true }
        requires room { (notes_of self.now root.old).given < 65535 }
        ensures area { IsPassOf self.now root.new }
        ensures split { IsPassOf self.now result }
        ensures notes { notes_of self.now root.new ≡ after_split (notes_of self.now root.old) }
        ensures fresh { notes_of self.now result ≡ split_notes (notes_of self.now root.old) }
    {
        let seat = self.table.shared.split_seat::<Fork>(&mut root.seat);
        CountPass { seat }
    }

    /// Takes back a pass that was split off from this root: the root then has its adds.
    pub fn join(&self, root: &mut CountPass, other: CountPass)
        requires area { IsPassOf self.now root.old }
        requires other { IsPassOf self.now other }
        requires root { (notes_of self.now root.old).root ≡ true }
        requires split { (notes_of self.now other).root ≡ false }
        ensures area { IsPassOf self.now root.new }
        ensures notes { notes_of self.now root.new ≡ after_join (notes_of self.now root.old) (notes_of self.now other) }
    {
        let CountPass { seat } = other;
        self.table.shared.join_seat::<Fork>(&mut root.seat, seat);
    }
}
