//! The run of a task over planted cells.
ghost use Rattle.task_run.specs.First.{CanBegin};
ghost use Rattle.task_run.specs.Meaning.{solo};
ghost use Rattle.task_run.specs.Ran.{RanOver};

use crate::hook::NoHook;
use crate::observer::Watch;
use crate::planted::Planted;
use crate::task::run;
use crate::tasks::Task;
use brk_table::Tables;
use module_area::{Cells, Plan};
use s370_state::Ending;

/// Runs the task until it ends: before each instruction it ends Returned at X'FFFFFE', else Spent where it has done as
/// many instructions as its budget. Ending, state and count are those of its run alone over modules that were never
/// planted, and the pass makes that run's visits, and opens and closes the task's sessions by that run's calls. The
/// pass's tally sums to less than 2^60 before.
pub fn run_task<C: Cells>(
    cells: &C,
    pass: &mut C::Pass,
    tables: &Tables,
    plan: &Plan,
    task: &mut Task<'_>,
) -> Ending
    requires can { CanBegin C.Cells cells.now pass.old plan.now tables.now task.old }
    ensures area { C.is_pass cells.now pass.new }
    ensures ran { RanOver C.Cells solo cells.now pass.old pass.new task.old task.new result }
{
    // Read for what every plan keeps.
    let _ = plan.places_len();
    let marks = Planted { cells, plan };
    let mut hook = NoHook;
    let watch = Watch {
        observer: &marks,
        tables,
    };
    let end = run(&watch, pass, &mut hook, &mut task.bench, task.budget);
    task.done = end.done;
    end.ending
}
