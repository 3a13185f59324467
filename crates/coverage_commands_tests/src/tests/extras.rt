//! A runner's extras are made before the area is, so before anything is planted.
ghost use Rattle.std.specs.Prelude.{◌≡◌};
ghost use Rattle.job_input.specs.Tables.{IsReadyJob};
ghost use Rattle.task_run.specs.Meaning.{solo};

use super::jobs::{ALONE, job_of};
use brk_table::Tables;
use cov_base::{NoMemory, TaskNo};
use cov_outside::{MemSource, OpenGate};
use job_answers::{Asked, make_ready};
use job_input::Form;
use job_run::run_job_with;
use job_text::Grammar;
use module_area::{Areas, Cells, Plan};
use s370_state::Ending;
use session_book::Job;
use shared_area::SharedAreas;
use std::alloc::Global;
use std::sync::Wait;
use std::test::Fail;
use std::thread::Threads;
use task_run::{NoExtra, Runner, Task, run_task};

/// Runs a task as it runs alone, but has no memory for its extra.
#[derive(Drop)]
struct Wanting;

impl<C: Cells> Runner<C> for Wanting {
    type Extra = NoExtra;

    ghost course = { λ r. solo };

    ghost begins = { λ plan t extra notes. Unit {0} };

    ghost ends = { λ plan old new extra sets. Unit {0} };

    fn extra(&self, alloc: Global, plan: &Plan, task: TaskNo) -> Result<NoExtra, NoMemory> {
        Err(NoMemory)
    }

    fn run(
        &self,
        cells: &C,
        pass: &mut C::Pass,
        tables: &Tables,
        plan: &Plan,
        extra: &mut NoExtra,
        task: &mut Task<'_>,
    ) -> Ending {
        run_task(cells, pass, tables, plan, task)
    }
}

/// Whether the job isn't run, and no area is made.
fn makes_no_area<T: Threads + Wait + Sync>(
    rt: &T,
    alloc: Global,
    job: &Job,
    tables: &Tables,
) -> Result<bool, Fail>
    requires { IsReadyJob job.now tables.now }
{
    let mut areas = SharedAreas::new(alloc, 1)?;
    let ran = run_job_with(rt, alloc, &mut areas, &OpenGate, &Wanting, job, tables);
    Ok(ran.is_err() && areas.made() == 0)
}

/// The same of the first job.
fn makes_none_of_first<T: Threads + Wait + Sync>(rt: &T, alloc: Global) -> Result<bool, Fail> {
    let mut source = MemSource::new(job_of(alloc, "LOAD", ALONE)?, 64, Vec::new(alloc));
    let form = Form {
        grammar: Grammar::Plain,
        more: false,
    };
    match make_ready(alloc, &mut source, form, &Asked::AnyJob) {
        Ok(ready) => makes_no_area(rt, alloc, &ready.input.job, &ready.tables),
        Err(_) => Ok(false),
    }
}

#[test]
fn makes_extras_before_it_plants(rt: HostRuntime) -> Result<(), Fail> {
    assert!(rt; makes_none_of_first(&rt, rt.alloc())?);
    Ok(())
}
