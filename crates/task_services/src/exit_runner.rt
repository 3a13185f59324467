//! The runner of tasks under exits.
ghost use Rattle.std.specs.Prelude.{◌≡◌};
ghost use Rattle.std.specs.declared.option.Option.TheVariants.{None};
ghost use Rattle.task_services.specs.Meaning.{with_exits};

use crate::exit_run::run_under;
use crate::exits::Exit;
use brk_table::Tables;
use cov_base::{NoMemory, TaskNo};
use module_area::{Cells, Plan};
use s370_state::Ending;
use std::alloc::Global;
use task_run::{Runner, Task};

/// Runs a task with an exit for its program interruptions, of which there is none as it begins.
#[derive(Drop)]
pub struct ExitRunner;

impl<C: Cells> Runner<C> for ExitRunner {
    type Extra = Exit;

    ghost course = { λ r. with_exits };

    ghost begins = { λ plan t extra notes. extra.at ≡ None };

    ghost ends = { λ plan old new extra sets. Unit {0} };

    fn extra(&self, alloc: Global, plan: &Plan, task: TaskNo) -> Result<Exit, NoMemory> {
        Ok(Exit { at: None })
    }

    fn run(
        &self,
        cells: &C,
        pass: &mut C::Pass,
        tables: &Tables,
        plan: &Plan,
        extra: &mut Exit,
        task: &mut Task<'_>,
    ) -> Ending {
        run_under(cells, pass, tables, plan, extra, task)
    }
}
