//! The cells of an area: each call is one step on one word.
ghost use Rattle.std.specs.Prelude.{◌≡◌, ◌+◌, ◌*◌, ◌<◌, ◌≤◌, ◌^◌, length, true, false, IsSome};
ghost use Rattle.std.specs.declared.option.Option.TheVariants.{None};
ghost use Rattle.cov_base.specs.Meaning.{FactSet};
ghost use Rattle.module_area.specs.Meaning.{PlanView, is_over, is_controlled};
ghost use Rattle.module_area.specs.Rule.{has_task};
ghost use Rattle.module_area.specs.Notes.{Notes, calls, after_fetch, after_mark, after_lift, after_plant, after_close, after_split, split_notes, after_join, bearer, own_number, is_working, after_boundary, after_note, after_read, IsAnswer, IsFound, IsWord};
ghost use Rattle.module_area.specs.Again.{MarksAgain};
ghost use Rattle.module_area.specs.Allowed.{CanMark, CanTag};

use crate::cells::Cell;
use cov_base::{Bits, Fact, PlaceNo, SessNo, TaskNo};

/// The cells of one area. Each call names a place of the plan and needs a pass of this area whose tally sums to
/// less than 2^62; it raises the count of its own kind by one, `lift` and `mark_again` only where they answer true.
pub trait Cells {
    /// In which a task's thread carries what it has done and knows.
    type Pass: Drop;

    /// The plan that the area was made for.
    ghost plan: { Self → PlanView };

    /// The pass is one of this area.
    ghost is_pass: { Self → Self.Pass → Type 0 };

    /// What the pass has done and knows.
    ghost notes: { Self.Pass → Notes };

    /// The cell as it stands, for the pass of a task that has not ended: the original, or the breakpoint under an odd
    /// tag. Where the pass keeps the place, under its last tag there.
    fn fetch(&self, pass: &mut Self::Pass, place: PlaceNo) -> Cell
        requires area { is_pass self.now pass.old }
        requires working { is_working (notes pass.old) ≡ true }
        requires place { place.0 < length (plan self.now).places }
        requires room { calls (notes pass.old) < 2 ^ 62 }
        ensures area { is_pass self.now pass.new }
        ensures answer { IsAnswer (plan self.now) (notes pass.old) place.0 result }
        ensures notes { notes pass.new ≡ after_fetch (plan self.now) (notes pass.old) place.0 result };

    /// Adds the fact, one of the place's kind, to the session's set at the place, where the pass has just fetched the
    /// session's breakpoint, and answers the set as it was, which the notes have as the one that it found.
    fn mark(&self, pass: &mut Self::Pass, s: SessNo, place: PlaceNo, fact: Fact) -> Bits
        requires can { CanMark (is_pass self.now pass.old) (plan self.now) (notes pass.old) s.0 place.0 fact }
        ensures area { is_pass self.now pass.new }
        ensures found { IsFound (plan self.now) (notes pass.old) s.0 place.0 result }
        ensures notes { notes pass.new ≡ after_mark (plan self.now) (notes pass.old) s.0 place.0 fact result };

    /// Marks the fact, as `mark` does, where the session's set at the place has it and no other, which mostly is so: true. Else
    /// it does nothing, as where cells have no quick way to tell.
    #[inline(always)]
    fn mark_again(&self, pass: &mut Self::Pass, s: SessNo, place: PlaceNo, fact: Fact) -> bool
        requires can { CanMark (is_pass self.now pass.old) (plan self.now) (notes pass.old) s.0 place.0 fact }
        ensures area { is_pass self.now pass.new }
        ensures again { MarksAgain (plan self.now) (notes pass.old) s.0 place.0 fact result (notes pass.new) }
    {
        false
    }

    /// Exchanges the session's breakpoint for the original by one try, where the pass knows that the set is full;
    /// true exactly where it exchanged, which it does at most once.
    fn lift(&self, pass: &mut Self::Pass, s: SessNo, place: PlaceNo) -> bool
        requires area { is_pass self.now pass.old }
        requires place { place.0 < length (plan self.now).places }
        requires room { calls (notes pass.old) < 2 ^ 62 }
        requires session { 0 < s.0 }
        requires full { (notes pass.old).full s.0 place.0 ≡ true }
        ensures again { (notes pass.old).free s.0 place.0 ≡ true → result ≡ false }
        ensures area { is_pass self.now pass.new }
        ensures notes { notes pass.new ≡ after_lift (notes pass.old) s.0 place.0 result };

    /// Plants the breakpoint of a session over the place, by the pass that keeps the place, once: its last tag there
    /// is below the session's. A whole session's place is the root's.
    fn plant(&self, pass: &mut Self::Pass, s: SessNo, place: PlaceNo)
        requires can { CanTag (is_pass self.now pass.old) (plan self.now) (notes pass.old) s.0 place.0 }
        requires over { is_over (plan self.now) s.0 place.0 ≡ true }
        requires later { (notes pass.old).last place.0 + 1 < 2 * s.0 }
        ensures area { is_pass self.now pass.new }
        ensures notes { notes pass.new ≡ after_plant (notes pass.old) s.0 place.0 };

    /// Ends the controlled session at the place, by the pass that keeps the place and planted the session there last:
    /// the original stands again, under an even tag.
    fn close(&self, pass: &mut Self::Pass, s: SessNo, place: PlaceNo)
        requires can { CanTag (is_pass self.now pass.old) (plan self.now) (notes pass.old) s.0 place.0 }
        requires controlled { is_controlled (plan self.now) s.0 place.0 ≡ true }
        requires planted { (notes pass.old).last place.0 + 1 ≡ 2 * s.0 }
        ensures area { is_pass self.now pass.new }
        ensures notes { notes pass.new ≡ after_close (notes pass.old) s.0 place.0 };
}

/// Cells on which several threads work, each with a pass of its own.
pub trait Forks: Cells {
    /// A pass for a task of the plan, split off from the root, once for each task: it bears the task and has
    /// seen what the root has seen; nothing is marked, and its tally is zero. It keeps the places that its task controls,
    /// under the root's last tags, and the root keeps them no longer.
    fn split(&self, root: &mut Self::Pass, task: TaskNo) -> Self::Pass
        requires area { Self.is_pass self.now root.old }
        requires root { (Self.notes root.old).bears ≡ None }
        requires task { has_task (Self.plan self.now).tasks task.0 ≡ true }
        requires first { (Self.notes root.old).given task.0 ≡ false }
        ensures area { Self.is_pass self.now root.new }
        ensures split { Self.is_pass self.now result }
        ensures notes { Self.notes root.new ≡ after_split (Self.notes root.old) task.0 }
        ensures fresh { Self.notes result ≡ split_notes (Self.plan self.now) (Self.notes root.old) task.0 };

    /// Adds to the root what a pass that was split from it has done and knows, but for its answered pairs and the sets that
    /// it found, and gives the root the places that it kept, under its last tags. Both tallies together sum to at most 2^62.
    fn join(&self, root: &mut Self::Pass, other: Self::Pass)
        requires area { Self.is_pass self.now root.old }
        requires other { Self.is_pass self.now other }
        requires root { (Self.notes root.old).bears ≡ None }
        requires split { IsSome (Self.notes other).bears }
        requires out { (Self.notes root.old).out (bearer (Self.notes other)) ≡ true }
        requires room { calls (Self.notes root.old) + calls (Self.notes other) ≤ 2 ^ 62 }
        ensures area { Self.is_pass self.now root.new }
        ensures notes { Self.notes root.new ≡ after_join (Self.plan self.now) (Self.notes root.old) (Self.notes other) };
}

/// Cells with a number for each task, by which a pass learns that no other task can still mark for a session that it has
/// closed. The number is 0 before the task runs, rises by 2 at each boundary and by 1 at the last, and so is odd once the
/// task has ended.
pub trait Drains: Forks {
    /// The pass's task has ended an instruction, or its run: its number, below 2^62 before, rises by 2, or by 1, and what
    /// the pass fetched last can no longer be marked. After its run's end the pass doesn't fetch.
    fn boundary(&self, pass: &mut Self::Pass, ended: bool)
        requires area { Self.is_pass self.now pass.old }
        requires working { is_working (Self.notes pass.old) ≡ true }
        requires room { own_number (Self.notes pass.old) < 2 ^ 62 }
        ensures area { Self.is_pass self.now pass.new }
        ensures notes { Self.notes pass.new ≡ after_boundary (Self.notes pass.old) ended };

    /// The number of a task of the plan as it stands: no lower than the pass has noted it, and for its own task its own.
    fn note(&self, pass: &mut Self::Pass, task: TaskNo) -> u64
        requires area { Self.is_pass self.now pass.old }
        requires task { has_task (Self.plan self.now).tasks task.0 ≡ true }
        ensures area { Self.is_pass self.now pass.new }
        ensures word { IsWord (Self.notes pass.old) task.0 result }
        ensures notes { Self.notes pass.new ≡ after_note (Self.notes pass.old) task.0 result };

    /// The set of the session at the place as it stands, which the notes have as the one that it found. It is the session's
    /// final one where that is a controlled one, and the pass knows it over there, has no breakpoint of it in hand there,
    /// and knows each other task of the plan past it.
    fn read_set(&self, pass: &mut Self::Pass, s: SessNo, place: PlaceNo) -> Bits
        requires area { Self.is_pass self.now pass.old }
        requires place { place.0 < length (Self.plan self.now).places }
        requires session { 0 < s.0 }
        requires of_plan { s.0 ≤ (Self.plan self.now).sessions }
        ensures area { Self.is_pass self.now pass.new }
        ensures found { IsFound (Self.plan self.now) (Self.notes pass.old) s.0 place.0 result }
        ensures settled { (x : FactSet) → (Self.notes pass.old).settled s.0 place.0 x ≡ true → result ≡ x }
        ensures notes { Self.notes pass.new ≡ after_read (Self.plan self.now) (Self.notes pass.old) s.0 place.0 result };
}
