//! The runner of a job's tasks.
ghost use Rattle.task_services.specs.Meaning.{course_of};

use crate::run::run_under;
use brk_table::Tables;
use cov_base::{NoMemory, TaskNo};
use module_area::{Cells, Plan};
use s370_state::Ending;
use session_book::Service;
use std::alloc::Global;
use task_run::{NoExtra, Runner, Task, run_task};

/// Runs each task with the job's services, alone where it has none.
#[derive(Drop)]
pub struct JobRunner<'a> {
    pub services: &'a [Service],
}

impl<'a, C: Cells> Runner<C> for JobRunner<'a> {
    type Extra = NoExtra;

    ghost course = { λ r. course_of r.services.now };

    ghost begins = { λ plan t extra notes. Unit {0} };

    ghost ends = { λ plan old new extra sets. Unit {0} };

    fn extra(&self, alloc: Global, plan: &Plan, task: TaskNo) -> Result<NoExtra, NoMemory> {
        Ok(NoExtra)
    }

    fn run(
        &self,
        cells: &C,
        pass: &mut C::Pass,
        tables: &Tables,
        plan: &Plan,
        extra: &mut NoExtra,
        task: &mut Task<'_>,
    ) -> Ending {
        if self.services.is_empty() {
            run_task(cells, pass, tables, plan, task)
        } else {
            run_under(cells, pass, tables, plan, self.services, task)
        }
    }
}
