//! A task's run under an exit.
ghost use Rattle.std.specs.Prelude.{◌≡◌};
ghost use Rattle.std.specs.declared.option.Option.TheVariants.{None};
ghost use Rattle.task_run.specs.First.{CanBegin};
ghost use Rattle.task_run.specs.Ran.{RanOver};
ghost use Rattle.task_services.specs.Meaning.{with_exits};

use crate::exits::Exit;
use brk_table::Tables;
use module_area::{Cells, Plan};
use s370_state::Ending;
use task_run::{Planted, Task, Watch, run};

/// Runs the task until it ends, as `run_task` does, but under an exit: SVC 6 sets it, and a program interruption takes it.
pub fn run_under<C: Cells>(
    cells: &C,
    pass: &mut C::Pass,
    tables: &Tables,
    plan: &Plan,
    exit: &mut Exit,
    task: &mut Task<'_>,
) -> Ending
    requires can { CanBegin C.Cells cells.now pass.old plan.now tables.now task.old }
    requires no_exit { exit.old.at ≡ None }
    ensures area { C.is_pass cells.now pass.new }
    ensures ran { RanOver C.Cells with_exits cells.now pass.old pass.new task.old task.new result }
{
    // Read for what every plan keeps.
    let _ = plan.places_len();
    let marks = Planted { cells, plan };
    let watch = Watch {
        observer: &marks,
        tables,
    };
    let end = run(&watch, pass, exit, &mut task.bench, task.budget);
    task.done = end.done;
    end.ending
}
