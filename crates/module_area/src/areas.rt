//! Where areas come from and end, and the account that is kept of them.
ghost use Rattle.std.specs.Prelude.{◌≡◌, ℕ, ◌+◌, ◌<◌, ◌^◌, List, [], false, ◌∷◌, ◌++◌, length, IfOk, OnErr};
ghost use Rattle.std.specs.declared.option.Option.TheVariants.{None};
ghost use Rattle.module_area.specs.declared.tallies.Tally.{Tally};
ghost use Rattle.module_area.specs.Meaning.{FinalsView, set_at};
ghost use Rattle.module_area.specs.Notes.{root_notes};
ghost use Rattle.module_area.specs.Ended.{AreSettled, HasRace, HasSets, HasTally};

use crate::finals::Finals;
use crate::plan::Plan;
use crate::tallies::Tally;
use crate::traits::{Cells, Drains};
use cov_base::NoMemory;
use std::alloc::Global;

/// Makes areas and finishes them, and keeps what each finished one tells.
pub trait Areas {
    /// The cells of an area, which threads share, each with a pass that was sent to it.
    type C: Drains<Pass: Send> + Sync + Drop;

    /// The tallies of the areas that were finished, in order.
    ghost ledger: { Self → List Tally };

    /// Their sets.
    ghost finals: { Self → List FinalsView };

    /// How many areas were asked for.
    ghost made: { Self → ℕ };

    /// The cells and the root pass of a new area: nothing is planted, no set has a fact. Counts as made also where
    /// memory is wanting, and changes nothing else then.
    fn make(
        &mut self,
        alloc: Global,
        plan: &Plan,
    ) -> Result<(Self::C, <Self::C as Cells>::Pass), NoMemory>
        requires room { made self.old < 2 ^ 62 }
        ensures made { made self.new ≡ made self.old + 1 }
        ensures ledger { ledger self.new ≡ ledger self.old }
        ensures finals { finals self.new ≡ finals self.old }
        ensures area { IfOk result (λ a. Self.C.is_pass a.0 a.1) }
        ensures plan { IfOk result (λ a. Self.C.plan a.0 ≡ plan.now) }
        ensures root { IfOk result (λ a. Self.C.notes a.1 ≡ root_notes) };

    /// Ends the area, once each pass that was split off is joined: the sets that the root and these passes have marked;
    /// those that they knew as final are as they knew them. Where memory is wanting the area is gone and both lists are as
    /// before.
    fn finish(
        &mut self,
        alloc: Global,
        cells: Self::C,
        pass: <Self::C as Cells>::Pass,
    ) -> Result<Finals, NoMemory>
        requires area { Self.C.is_pass cells pass }
        requires root { (Self.C.notes pass).bears ≡ None }
        requires joined { (t : ℕ) → (Self.C.notes pass).out t ≡ false }
        ensures made { made self.new ≡ made self.old }
        ensures sets { IfOk result (HasSets (Self.C.plan cells) (Self.C.notes pass)) }
        ensures settled { IfOk result (λ f. AreSettled (Self.C.plan cells) (Self.C.notes pass) (set_at f)) }
        ensures race { IfOk result (λ _. HasRace (Self.C.notes pass)) }
        ensures tally { IfOk result (HasTally (Self.C.plan cells) (Self.C.notes pass)) }
        ensures ledger { IfOk result (λ _. ledger self.new ≡ ledger self.old ++ (Self.C.notes pass).tally ∷ []) }
        ensures finals { IfOk result (λ f. finals self.new ≡ finals self.old ++ f ∷ []) }
        ensures ledger_kept { OnErr result (ledger self.new ≡ ledger self.old) }
        ensures finals_kept { OnErr result (finals self.new ≡ finals self.old) };

    /// The tallies of the areas that were finished, in order.
    fn ledger(&self) -> &[Tally]
        ensures { result.now ≡ ledger self.now };

    /// The sets of the areas that were finished, in order; as many as the tallies.
    fn finals(&self) -> &[Finals]
        ensures value { result.now ≡ finals self.now }
        ensures count { length result.now ≡ length (ledger self.now) };

    /// How many areas were asked for.
    fn made(&self) -> u64
        ensures { result ≡ made self.now };
}
