//! The phases of a job, one after the other.
ghost use Rattle.std.specs.Prelude.{◌≡◌, ◌<◌, ◌^◌, length, map, All, IsSome, IfOk};
ghost use Rattle.std.specs.declared.option.Option.TheVariants.{Some};
ghost use Rattle.brk_table.specs.Kept.{AreCodes};
ghost use Rattle.module_area.specs.Rule.{IsPlan};
ghost use Rattle.session_book.specs.JobView.{IsJob};
ghost use Rattle.task_run.specs.Meaning.{solo};
ghost use Rattle.job_run.specs.Outcomes.{AreExtras, ComesTo};
ghost use Rattle.job_run.specs.Passes.{IsOfPhase};
ghost use Rattle.job_run.specs.Runs.{Grows, HasGrown, LeavesSets};
ghost use Rattle.job_run.specs.Sets.{IsSized, sets_of};
ghost use Rattle.job_run.specs.Slots.{HasRoom, HaveJobExtras, Passed, StandBefore, dones, extras_of};
ghost use Rattle.job_run.specs.Tasks.{AllRun};

use crate::area::{AreaCrew, equip_all};
use crate::crew::run_crew;
use crate::outcome::{Outcome, Sets};
use crate::slots::{Room, Slot, make_room, make_slots, put_parts};
use brk_table::Tables;
use cov_base::NoMemory;
use cov_outside::Gate;
use module_area::{Areas, Cells, Finals, Plan, plant_all};
use phase_plan::plan_of;
use session_book::Job;
use std::alloc::Global;
use std::sync::Wait;
use std::thread::Threads;
use task_run::{PlainRunner, Runner};

/// Runs a phase over its plan: gives each of its tasks its sessions and its extra, makes an area, plants every place with a
/// window, runs the tasks, and ends the area.
fn run_planned<'a, T: Threads + Sync, A: Areas, G: Gate + Sync, R: Runner<A::C> + Sync>(
    rt: &T,
    alloc: Global,
    areas: &mut A,
    gate: &G,
    runner: &R,
    job: &Job,
    tables: &Tables,
    plan: &Plan,
    phase: u32,
    slots: &mut [Slot<'a, <A::C as Cells>::Pass, R::Extra>],
) -> Result<Finals, NoMemory>
    requires room { A.made areas.old < 2 ^ 62 }
    requires is_plan { IsPlan plan.now }
    requires its { IsOfPhase plan.now job.now tables.now phase }
    requires before { StandBefore (R.course runner.now) job.now tables.now.places phase slots.old }
    ensures grown { IfOk result (Grows A.Areas (R.course runner.now) job.now tables.now phase areas.old areas.new) }
    ensures passed { IfOk result (Passed (R.course runner.now) R.ends job.now tables.now.places phase slots.old slots.new) }
{
    equip_all::<A::C, R>(alloc, runner, job, tables, plan, phase, slots)?;
    let (cells, mut root) = areas.make(alloc, plan)?;
    plant_all(&cells, &mut root, plan);
    let crew = AreaCrew {
        cells: &cells,
        runner,
        job,
        tables,
        plan,
        phase,
    };
    run_crew(rt, gate, &crew, job, phase, &mut root, slots);
    areas.finish(alloc, cells, root)
}

/// Runs a phase of the job: over its plan, which is let go here alone.
fn run_phase<'a, T: Threads + Sync, A: Areas, G: Gate + Sync, R: Runner<A::C> + Sync>(
    rt: &T,
    alloc: Global,
    areas: &mut A,
    gate: &G,
    runner: &R,
    job: &Job,
    tables: &Tables,
    phase: u32,
    slots: &mut [Slot<'a, <A::C as Cells>::Pass, R::Extra>],
) -> Result<Finals, NoMemory>
    requires room { A.made areas.old < 2 ^ 62 }
    requires job { IsJob job.now }
    requires phase { phase < length job.now.phases }
    requires codes { AreCodes job.now.images tables.now }
    requires before { StandBefore (R.course runner.now) job.now tables.now.places phase slots.old }
    ensures grown { IfOk result (Grows A.Areas (R.course runner.now) job.now tables.now phase areas.old areas.new) }
    ensures passed { IfOk result (Passed (R.course runner.now) R.ends job.now tables.now.places phase slots.old slots.new) }
{
    let plan = plan_of(alloc, job, tables, phase)?;
    // the proof reads the rules that a plan keeps off this look at one
    let _ = &plan.windows;
    run_planned(
        rt, alloc, areas, gate, runner, job, tables, &plan, phase, slots,
    )
}

/// Runs the job's phases one after the other: the sets that each one's area ended with.
fn run_phases<'a, T: Threads + Sync, A: Areas, G: Gate + Sync, R: Runner<A::C> + Sync>(
    rt: &T,
    alloc: Global,
    areas: &mut A,
    gate: &G,
    runner: &R,
    job: &Job,
    tables: &Tables,
    slots: &mut [Slot<'a, <A::C as Cells>::Pass, R::Extra>],
) -> Result<Vec<Finals>, NoMemory>
    requires room { A.made areas.old < 2 ^ 61 }
    requires codes { AreCodes job.now.images tables.now }
    requires before { StandBefore (R.course runner.now) job.now tables.now.places 0 slots.old }
    ensures job { IsJob job.now }
    ensures left { IfOk result (LeavesSets A.Areas (R.course runner.now) job.now tables.now areas.old areas.new) }
    ensures tasks { IfOk result (λ _. AllRun (R.course runner.now) job.now tables.now.places slots.new) }
    ensures extras { IfOk result (λ v. HaveJobExtras R.ends job.now tables.now.places v.items slots.new) }
{
    let count = job.phase_count();
    let mut finals = Vec::with_capacity(alloc, count as usize)?;
    for phase in 0..count {
        let ended = run_phase(rt, alloc, areas, gate, runner, job, tables, phase, slots)?;
        finals.push(ended)?;
    }
    Ok(finals)
}

/// What the run of a job has come to, by its slots and its areas once all phases have run.
fn outcome_of<'a, P: Drop, E: Drop>(
    job: &'a Job,
    tables: &Tables,
    slots: Vec<Slot<'a, P, E>>,
    finals: Vec<Finals>,
    mut room: Room<'a, E>,
) -> (Outcome<'a>, Vec<E>)
    requires room { HasRoom (length slots.items) room }
    requires some { All (λ s. IsSome s.extra) slots.items }
    requires count { length finals.items ≡ length job.now.phases }
    requires sizes { All (IsSized job.now (length tables.now.places)) finals.items }
    ensures tasks { result.0.tasks.items ≡ dones slots.entry.items }
    ensures sets { result.0.sets ≡ sets_of job.now tables.now.places finals.items }
    ensures extras { map Some result.1.items ≡ extras_of slots.entry.items }
{
    for slot in slots {
        put_parts(slot, &mut room);
    }
    let Room { tasks, extras } = room;
    let sets = Sets::new(job, tables, finals);
    (Outcome { tasks, sets }, extras)
}

/// Runs the job, phase after phase: the areas are left as the courses of the tasks give, and so is the outcome, whose
/// sets are those of the areas that this call has finished, one for each phase; the set of a session that a task
/// controls lies between its bounds. With it come the runner's extras, in task order. The tables are those of the job's
/// listings, with the instructions of their modules, and fewer than 2^61 areas were made before. The tasks of a phase run
/// at once, each on a thread of its own, where one can be started, once it has passed the gate. All tasks take their
/// memory before the first phase runs, and a phase takes all but its area's end before it plants: its tasks' sessions and
/// extras too. Where memory is wanting, areas may have been made and finished.
pub fn run_job_with<'a, T: Threads + Wait + Sync, A: Areas, G: Gate + Sync, R: Runner<A::C> + Sync>(
    rt: &T,
    alloc: Global,
    areas: &mut A,
    gate: &G,
    runner: &R,
    job: &'a Job,
    tables: &'a Tables,
) -> Result<(Outcome<'a>, Vec<R::Extra>), NoMemory>
    requires tables { AreCodes job.now.images tables.now }
    requires room { A.made areas.old < 2 ^ 61 }
    ensures left { IfOk result (λ r. HasGrown A.Areas (R.course runner.now) job.now tables.now areas.old areas.new r.0) }
    ensures outcome { IfOk result (λ r. ComesTo (R.course runner.now) job.now tables.now.places r.0) }
    ensures extras { IfOk result (λ r. AreExtras R.ends job.now tables.now.places r.0.tasks.items r.0.sets r.1.items) }
{
    let room = make_room(alloc, job)?;
    let mut slots = make_slots(alloc, job, tables)?;
    let finals = run_phases(rt, alloc, areas, gate, runner, job, tables, &mut slots)?;
    Ok(outcome_of(job, tables, slots, finals, room))
}

/// Runs the job as `run_job_with` does, each task as it runs alone.
pub fn run_job<'a, T: Threads + Wait + Sync, A: Areas, G: Gate + Sync>(
    rt: &T,
    alloc: Global,
    areas: &mut A,
    gate: &G,
    job: &'a Job,
    tables: &'a Tables,
) -> Result<Outcome<'a>, NoMemory>
    requires tables { AreCodes job.now.images tables.now }
    requires room { A.made areas.old < 2 ^ 61 }
    ensures left { IfOk result (λ o. HasGrown A.Areas solo job.now tables.now areas.old areas.new o) }
    ensures outcome { IfOk result (λ o. ComesTo solo job.now tables.now.places o) }
{
    let runner = PlainRunner;
    let (outcome, _) = run_job_with(rt, alloc, areas, gate, &runner, job, tables)?;
    Ok(outcome)
}
