//! A task's run with services.
ghost use Rattle.task_run.specs.First.{CanBegin};
ghost use Rattle.task_run.specs.Ran.{RanOver};
ghost use Rattle.task_services.specs.Meaning.{with_services};

use crate::services::Services;
use brk_table::Tables;
use module_area::{Cells, Plan};
use s370_state::Ending;
use session_book::Service;
use task_run::{Planted, Task, Watch, run};

/// Runs the task until it ends, as `run_task` does, but with services: where it would end BadSvc by the number of one, its
/// routine answers the call, unless one runs already.
pub fn run_under<C: Cells>(
    cells: &C,
    pass: &mut C::Pass,
    tables: &Tables,
    plan: &Plan,
    services: &[Service],
    task: &mut Task<'_>,
) -> Ending
    requires can { CanBegin C.Cells cells.now pass.old plan.now tables.now task.old }
    ensures area { C.is_pass cells.now pass.new }
    ensures ran { RanOver C.Cells (with_services services.now) cells.now pass.old pass.new task.old task.new result }
{
    // Read for what every plan keeps.
    let _ = plan.places_len();
    let marks = Planted { cells, plan };
    let mut hook = Services {
        services,
        caller: None,
    };
    let watch = Watch {
        observer: &marks,
        tables,
    };
    let end = run(&watch, pass, &mut hook, &mut task.bench, task.budget);
    task.done = end.done;
    end.ending
}
