//! A task from its first instruction to its end, over cells in which breakpoints stay.
ghost use Rattle.std.specs.Prelude.{◌≡◌, false};
ghost use Rattle.task_run.specs.Steps.{memory_at};
ghost use Rattle.task_run.specs.First.{IsOver};
ghost use Rattle.count_session.specs.Counting.{RanCounted};
ghost use Rattle.count_session.specs.Passes.{IsPassOf, notes_of, plan_in};

use crate::cells::CountCells;
use crate::pass::CountPass;
use brk_table::Tables;
use s370_state::Ending;
use session_book::Service;
use task_run::Task;
use task_services::run_alone;

/// Runs the task until it ends, as `run_alone` does. Ending, state and count are those of its course over modules that were
/// never planted, and the pass, which has added nothing before, counts each fact of that run's begun visits at planted places
/// once for each visit.
pub fn run_counted(
    cells: &CountCells,
    pass: &mut CountPass,
    tables: &Tables,
    services: &[Service],
    task: &mut Task<'_>,
) -> Ending
    requires area { IsPassOf cells.now pass.old }
    requires over { IsOver (plan_in cells.now) (memory_at task.old.bench) tables.now }
    requires task { (notes_of cells.now pass.old).root ≡ false }
    requires nothing { (notes_of cells.now pass.old).adds ≡ 0 }
    ensures area { IsPassOf cells.now pass.new }
    ensures ran { RanCounted services.now cells.now pass.old pass.new task.old task.new result }
{
    let budget = task.budget;
    let end = run_alone(cells, pass, tables, services, &mut task.bench, budget);
    task.done = end.done;
    end.ending
}
