//! What runs a task, and keeps of it what it wants beside the task itself.
ghost use Rattle.std.specs.Prelude.{ℕ, IfOk};
ghost use Rattle.cov_base.specs.Meaning.{FactSet};
ghost use Rattle.module_area.specs.Notes.{Notes, bearer, split_notes};
ghost use Rattle.module_area.specs.Meaning.{PlanView};
ghost use Rattle.task_run.specs.First.{CanBegin};
ghost use Rattle.task_run.specs.Meaning.{Course, solo};
ghost use Rattle.task_run.specs.Ran.{RanOver};
ghost use Rattle.task_run.specs.Settled.{OnceSettled};
ghost use Rattle.task_run.specs.declared.tasks.Task.{Task as TaskView};

use crate::planted_run::run_task;
use crate::tasks::Task;
use brk_table::Tables;
use cov_base::{NoMemory, TaskNo};
use module_area::{Cells, Plan};
use s370_state::Ending;
use std::alloc::Global;

/// Runs tasks of a phase over cells, each along a course of its own from its first instruction to its end, and keeps
/// something of each.
pub trait Runner<C: Cells> {
    /// What is kept of a task's run beside the task.
    type Extra: Send + Drop;

    /// The course that a task takes, as it would alone.
    ghost course: { Self → Course };

    /// The extra is one with which the task of this number may begin, with a pass of these notes.
    ghost begins: { PlanView → ℕ → Self.Extra → Notes → Type 0 };

    /// What the extra tells after a run, of the task before and after it, where these are the phase's sets.
    ghost ends: { PlanView → TaskView → TaskView → Self.Extra → (ℕ → ℕ → FactSet) → Type 0 };

    /// The extra of a task of the plan, before it runs.
    fn extra(&self, alloc: Global, plan: &Plan, task: TaskNo) -> Result<Self::Extra, NoMemory>
        ensures { IfOk result (λ extra. (root : Notes) → begins plan.now task.0 extra (split_notes plan.now root task.0)) };

    /// Runs the task until it ends: ending, state, count and what the pass has done are those of its course, and what the
    /// extra tells holds of all sets that are as the pass knows them final. The pass's tally sums to less than 2^60 before.
    fn run(
        &self,
        cells: &C,
        pass: &mut C::Pass,
        tables: &Tables,
        plan: &Plan,
        extra: &mut Self::Extra,
        task: &mut Task<'_>,
    ) -> Ending
        requires can { CanBegin C.Cells cells.now pass.old plan.now tables.now task.old }
        requires begins { begins plan.now (bearer (C.notes pass.old)) extra.old (C.notes pass.old) }
        ensures area { C.is_pass cells.now pass.new }
        ensures ran { RanOver C.Cells (course self.now) cells.now pass.old pass.new task.old task.new result }
        ensures ends { OnceSettled (C.plan cells.now) (C.notes pass.new) (ends plan.now task.old task.new extra.new) };
}

/// Of a task's plain run nothing is kept.
#[derive(Drop)]
pub struct NoExtra;

/// Runs a task as it runs alone.
#[derive(Drop)]
pub struct PlainRunner;

impl<C: Cells> Runner<C> for PlainRunner {
    type Extra = NoExtra;

    ghost course = { λ r. solo };

    ghost begins = { λ plan t extra notes. Unit {0} };

    ghost ends = { λ plan old new extra sets. Unit {0} };

    fn extra(&self, alloc: Global, plan: &Plan, task: TaskNo) -> Result<NoExtra, NoMemory> {
        Ok(NoExtra)
    }

    fn run(
        &self,
        cells: &C,
        pass: &mut C::Pass,
        tables: &Tables,
        plan: &Plan,
        extra: &mut NoExtra,
        task: &mut Task<'_>,
    ) -> Ending {
        run_task(cells, pass, tables, plan, task)
    }
}
