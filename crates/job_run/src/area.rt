//! The crew of an area: it runs the tasks of a phase by any runner of tasks.
ghost use Rattle.std.specs.Prelude.{◌≡◌, length, IfOk};
ghost use Rattle.phase_plan.specs.Meaning.{plan_view};
ghost use Rattle.job_run.specs.Passes.{AreEquipped};
ghost use Rattle.job_run.specs.Slots.{KeepsOthers, StandBefore};
ghost use Rattle.job_run.specs.Tasks.{AreRun};

use crate::crew::Crew;
use crate::outcome::Done;
use crate::slots::{Slot, equip, is_of};
use brk_table::Tables;
use cov_base::{NoMemory, TaskNo};
use module_area::{Cells, Forks, Plan};
use session_book::Job;
use std::alloc::Global;
use task_run::Runner;

/// Works on the cells of an area that was made for a phase of the job.
#[derive(Drop)]
pub struct AreaCrew<'a, C, R> {
    pub cells: &'a C,
    pub runner: &'a R,
    pub job: &'a Job,
    pub tables: &'a Tables,
    pub plan: &'a Plan,
    pub phase: u32,
}

impl<'a, C: Forks<Pass: Send>, R: Runner<C>> Crew for AreaCrew<'a, C, R> {
    ghost use Rattle.job_run.specs.Crews.{phase_at};
    ghost use Rattle.job_run.specs.Passes.{EndsTask, HasJoined, HasSeen, HasStart, IsAreaOf, IsFresh, KnowsFinal};

    type Pass = C::Pass;

    type Extra = R::Extra;

    ghost phase = { λ c. phase_at c.job.now c.phase };

    ghost IsFit = { λ c. IsAreaOf (C.plan c.cells.now) c.plan.now c.job.now c.tables.now c.phase };

    ghost IsRoot = { λ c. HasJoined (C.is_pass c.cells.now) C.notes c.plan.now (R.course c.runner.now) c.job.now c.tables.now.places };

    ghost IsFresh = { λ c. IsFresh (C.is_pass c.cells.now) C.notes c.plan.now };

    ghost CanRun = { λ c. HasStart R.begins c.plan.now c.job.now c.tables.now.places };

    ghost HasRun = { λ c. HasSeen (C.is_pass c.cells.now) C.notes c.plan.now (R.course c.runner.now) c.job.now c.tables.now.places };

    ghost Ends = { λ c. EndsTask (R.course c.runner.now) R.ends C.notes c.plan.now c.job.now c.tables.now.places };

    ghost Knows = { λ c root pass. KnowsFinal (C.notes root) (C.notes pass) };

    fn split(&self, root: &mut C::Pass, task: TaskNo) -> C::Pass {
        self.cells.split(root, task)
    }

    fn run(
        &self,
        task: TaskNo,
        pass: &mut C::Pass,
        extra: &mut Option<R::Extra>,
        done: &mut Done<'_>,
    ) {
        let Some(extra) = extra else { unreachable!() };
        let ending = self.runner.run(
            self.cells,
            pass,
            self.tables,
            self.plan,
            extra,
            &mut done.task,
        );
        done.ending = Some(ending);
    }

    fn join(&self, root: &mut C::Pass, task: TaskNo, pass: C::Pass) {
        self.cells.join(root, pass);
    }
}

/// Gives each task of the phase the sessions that it controls, and its slot what its runner keeps of it.
pub fn equip_all<'a, C: Cells, R: Runner<C>>(
    alloc: Global,
    runner: &R,
    job: &Job,
    tables: &Tables,
    plan: &Plan,
    phase: u32,
    slots: &mut [Slot<'a, C::Pass, R::Extra>],
) -> Result<(), NoMemory>
    requires plan { plan.now ≡ plan_view job.now tables.now.places phase }
    requires before { StandBefore (R.course runner.now) job.now tables.now.places phase slots.old }
    ensures tasks { IfOk result (λ _. AreRun (R.course runner.now) job.now tables.now.places phase slots.new) }
    ensures ready { IfOk result (λ _. AreEquipped R.begins plan.now job.now tables.now.places phase slots.new) }
    ensures others { IfOk result (λ _. KeepsOthers job.now phase slots.old slots.new) }
{
    let count = job.task_count();
    for t in 0..count {
        if is_of(job, t, phase) {
            let task = TaskNo(t as u32);
            let slot = &mut slots[t];
            let control = plan.control_of(alloc, task)?;
            let extra = runner.extra(alloc, plan, task)?;
            equip(slot, control, extra);
        }
    }
    Ok(())
}
