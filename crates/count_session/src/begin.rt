//! A new area.
ghost use Rattle.std.specs.Prelude.{◌≡◌, IfOk};
ghost use Rattle.count_session.specs.Notes.{root_notes};
ghost use Rattle.count_session.specs.Passes.{IsPassOf, notes_of, plan_in};

use crate::cells::CountCells;
use crate::pass::CountPass;
use crate::words::word_count;
use atomic_table::Table;
use cov_base::NoMemory;
use module_area::{Plan, first_words};
use std::alloc::Global;
use std::snapshot::Snapshot;

impl CountCells {
    /// The area of a plan and its root: nothing is planted, nothing was added.
    pub fn new(alloc: Global, plan: &Plan) -> Result<(CountCells, CountPass), NoMemory>
        ensures area { IfOk result (λ a. IsPassOf a.0 a.1) }
        ensures plan { IfOk result (λ a. plan_in a.0 ≡ plan.now) }
        ensures root { IfOk result (λ a. notes_of a.0 a.1 ≡ root_notes) }
    {
        let plan = plan.to_plan(alloc)?;
        let words = first_words(alloc, &plan, word_count(&plan))?;
        let key = Snapshot::of(&plan);
        let (table, seat) = Table::of_words(alloc, words.as_slice(), &key)?;
        Ok((CountCells { table, plan }, CountPass { seat }))
    }
}
