//! Shared areas one after the other.
ghost use Rattle.std.specs.Prelude.{◌≡◌, ℕ, false, [], IfOk};
ghost use Rattle.std.specs.declared.option.Option.TheVariants.{None};
ghost use Rattle.module_area.specs.Notes.{root_notes};
ghost use Rattle.module_area.specs.Meaning.{set_at};
ghost use Rattle.module_area.specs.Ended.{AreSettled, HasRace, HasSets, HasTally};
ghost use Rattle.shared_area.specs.Passes.{notes_of, IsPassOf};

use crate::cells::SharedCells;
use crate::forks::NO_TALLY;
use crate::pass::SharedPass;
use crate::sets::last_sets;
use crate::words::{count, firsts};
use atomic_table::Table;
use cov_base::NoMemory;
use module_area::{Areas, Finals, Plan, Tally, first_words};
use std::alloc::Global;
use std::marker::Model;
use std::snapshot::Snapshot;

/// Makes areas that threads share, and keeps the account of those that were finished.
#[derive(Drop)]
pub struct SharedAreas {
    ledger: Vec<Tally>,
    finals: Vec<Finals>,
    made: u64,
}

impl Model for SharedAreas {
    ghost use Rattle.std.specs.Prelude.{◌≡◌, length};
    ghost use Rattle.module_area.specs.AreasView.{AreasView};

    ghost Value = { AreasView };

    ghost view = { λ a. record { ledger = a.ledger.items; finals = a.finals.items; made = a.made } };

    ghost invariant = { λ a. length a.finals.items ≡ length a.ledger.items };
}

impl SharedAreas {
    /// No area was made yet; takes memory for the account of so many.
    pub fn new(alloc: Global, phases: u32) -> Result<SharedAreas, NoMemory>
        ensures ledger { IfOk result (λ a. a.ledger ≡ []) }
        ensures finals { IfOk result (λ a. a.finals ≡ []) }
        ensures made { IfOk result (λ a. a.made ≡ 0) }
    {
        let ledger = Vec::with_capacity(alloc, phases as usize)?;
        let finals = Vec::with_capacity(alloc, phases as usize)?;
        Ok(SharedAreas {
            ledger,
            finals,
            made: 0,
        })
    }
}

/// The words of a new area, and its root.
fn new_area(alloc: Global, plan: &Plan) -> Result<(SharedCells, SharedPass), NoMemory>
    ensures area { IfOk result (λ a. IsPassOf a.0 a.1) }
    ensures plan { IfOk result (λ a. a.0.plan ≡ plan.now) }
    ensures root { IfOk result (λ a. notes_of a.1 ≡ root_notes) }
{
    let plan = plan.to_plan(alloc)?;
    let words = first_words(alloc, &plan, count(&plan))?;
    let firsts = firsts(&plan);
    let key = Snapshot::of(&plan);
    let (table, seat) = Table::of_words(alloc, words.as_slice(), &key)?;
    let root = SharedPass {
        seat,
        tally: NO_TALLY,
        word: 0,
    };
    let cells = SharedCells {
        table,
        plan,
        firsts,
    };
    Ok((cells, root))
}

/// The sets that the words show in the end.
fn end_area(alloc: Global, cells: SharedCells, root: SharedPass) -> Result<Finals, NoMemory>
    requires area { IsPassOf cells root }
    requires root { (notes_of root).bears ≡ None }
    requires joined { (t : ℕ) → (notes_of root).out t ≡ false }
    ensures sets { IfOk result (HasSets cells.plan (notes_of root)) }
    ensures settled { IfOk result (λ f. AreSettled cells.plan (notes_of root) (set_at f)) }
    ensures race { IfOk result (λ _. HasRace (notes_of root)) }
    ensures tally { IfOk result (HasTally cells.plan (notes_of root)) }
{
    let SharedCells {
        table,
        plan,
        firsts: _,
    } = cells;
    let SharedPass {
        seat,
        tally: _,
        word: _,
    } = root;
    let closed = table.close_with(seat);
    let sets = last_sets(alloc, &closed, &plan);
    closed.free();
    Ok(Finals {
        places: plan.places_len(),
        sets: sets?,
    })
}

impl Areas for SharedAreas {
    type C = SharedCells;

    ghost ledger = { λ a. a.ledger };

    ghost finals = { λ a. a.finals };

    ghost made = { λ a. a.made };

    fn make(&mut self, alloc: Global, plan: &Plan) -> Result<(SharedCells, SharedPass), NoMemory> {
        self.made += 1;
        new_area(alloc, plan)
    }

    fn finish(
        &mut self,
        alloc: Global,
        cells: SharedCells,
        pass: SharedPass,
    ) -> Result<Finals, NoMemory> {
        let tally = pass.tally;
        let ended = end_area(alloc, cells, pass)?;
        let places = ended.places;
        let copy = Vec::from_slice(alloc, &ended.sets)?;
        self.ledger.push(tally)?;
        if self.finals.push(Finals { places, sets: copy }).is_err() {
            let _ = self.ledger.pop();
            return Err(NoMemory);
        }
        Ok(ended)
    }

    fn ledger(&self) -> &[Tally] {
        &self.ledger
    }

    fn finals(&self) -> &[Finals] {
        &self.finals
    }

    fn made(&self) -> u64 {
        self.made
    }
}
