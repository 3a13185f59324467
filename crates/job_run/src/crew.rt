//! The tasks of a phase at once, each on a thread of its own, with a pass that is split off for it and joined again.
ghost use Rattle.std.specs.Prelude.{◌≡◌, ◌+◌, ◌<◌, ◌≤◌, [], false, length};
ghost use Rattle.std.specs.declared.option.Option.TheVariants.{None};
ghost use Rattle.cov_base.specs.declared.limits.TheConstants.{TASK_LIMIT};
ghost use Rattle.session_book.specs.JobView.{IsJob};
ghost use Rattle.job_run.specs.Crews.{AreBack, AreReady, CanGo, Each, EachAt, GetsPass, Goes, Own, all_tasks, is_its, phase_at};

use crate::outcome::Done;
use crate::slots::{Slot, give, is_of, range_of, take_at};
use cov_base::TaskNo;
use cov_outside::Gate;
use session_book::Job;
use std::thread;
use std::thread::Threads;

/// What runs the tasks of a phase: it splits a pass for each off a root, runs each task with its own, and joins them again.
pub trait Crew {
    ghost use Rattle.std.specs.Prelude.{◌≡◌, ℕ, ◌+◌, List, [], Option};
    ghost use Rattle.cov_base.specs.declared.numbers.TaskNo.{TaskNo as TaskNumber};
    ghost use Rattle.job_run.specs.Crews.{PhaseView, IsTaskOf, all_tasks, tasks_before};
    ghost use Rattle.job_run.specs.declared.outcome.Done.{Done as DoneView};

    /// What is split off for a task.
    type Pass: Drop + Send;

    /// What is kept of a task's run beside the task.
    type Extra: Drop + Send;

    /// The phase that it runs.
    ghost phase: { Self → PhaseView };

    /// What it works on is fit for its phase.
    ghost IsFit: { Self → Type 0 };

    /// The root has split off passes for the first tasks, and has joined again those of the second.
    ghost IsRoot: { Self → Self.Pass → List TaskNumber → List TaskNumber → Type 0 };

    /// The pass was split off for the task, which hasn't run.
    ghost IsFresh: { Self → ℕ → Self.Pass → Type 0 };

    /// The task, with what is kept of it, can run with a fresh pass.
    ghost CanRun: { Self → ℕ → DoneView → Option Self.Extra → Type 0 };

    /// The task has run with the pass.
    ghost HasRun: { Self → ℕ → Self.Pass → Type 0 };

    /// What has come of the task, as it was and as it is, and of what is kept of it, by a run with the pass.
    ghost Ends: { Self → ℕ → DoneView → DoneView → Option Self.Extra → Self.Pass → Type 0 };

    /// The first pass knows what the second does.
    ghost Knows: { Self → Self.Pass → Self.Pass → Type 0 };

    /// Splits off a pass for a task, once those of the phase's tasks before it were.
    fn split(&self, root: &mut Self::Pass, task: TaskNo) -> Self::Pass
        requires fit { IsFit self.now }
        requires task { IsTaskOf (phase self.now) task.0 }
        requires root { IsRoot self.now root.old (tasks_before (phase self.now) task.0) [] }
        ensures root { IsRoot self.now root.new (tasks_before (phase self.now) (task.0 + 1)) [] }
        ensures fresh { IsFresh self.now task.0 result };

    /// Runs a task to its end.
    fn run(
        &self,
        task: TaskNo,
        pass: &mut Self::Pass,
        extra: &mut Option<Self::Extra>,
        done: &mut Done<'_>,
    )
        requires fit { IsFit self.now }
        requires task { IsTaskOf (phase self.now) task.0 }
        requires fresh { IsFresh self.now task.0 pass.old }
        requires can { CanRun self.now task.0 done.old extra.old }
        ensures run { HasRun self.now task.0 pass.new }
        ensures ends { Ends self.now task.0 done.old done.new extra.new pass.new };

    /// Joins the pass of a task that has run, once those of the phase's tasks before it were.
    fn join(&self, root: &mut Self::Pass, task: TaskNo, pass: Self::Pass)
        requires fit { IsFit self.now }
        requires task { IsTaskOf (phase self.now) task.0 }
        requires root { IsRoot self.now root.old (all_tasks (phase self.now)) (tasks_before (phase self.now) task.0) }
        requires run { HasRun self.now task.0 pass }
        ensures root { IsRoot self.now root.new (all_tasks (phase self.now)) (tasks_before (phase self.now) (task.0 + 1)) }
        ensures known { Knows self.now root.new pass }
        ensures still { (p : Self.Pass) → Knows self.now root.old p → Knows self.now root.new p };
}

/// Splits off a pass for each task of the phase, in job order.
fn split_all<'a, C: Crew>(
    crew: &C,
    job: &Job,
    phase: u32,
    root: &mut C::Pass,
    slots: &mut [Slot<'a, C::Pass, C::Extra>],
)
    requires fit { C.IsFit crew.now }
    requires phase { C.phase crew.now ≡ phase_at job.now phase }
    requires count { length slots.old ≡ length job.now.tasks }
    requires root { C.IsRoot crew.now root.old [] [] }
    ensures job { IsJob job.now }
    ensures root { C.IsRoot crew.now root.new (all_tasks (C.phase crew.now)) [] }
    ensures passes { Each (Own (C.phase crew.now) (GetsPass (C.IsFresh crew.now))) slots.old slots.new }
{
    let count = job.task_count();
    for t in 0..count {
        if is_of(job, t, phase) {
            let pass = crew.split(root, TaskNo(t as u32));
            give(&mut slots[t], pass);
        }
    }
}

/// Runs the slot's task, once it has passed the gate, where it has a pass.
fn run_slot<'a, G: Gate, C: Crew>(
    gate: &G,
    crew: &C,
    task: TaskNo,
    slot: &mut Slot<'a, C::Pass, C::Extra>,
)
    requires fit { C.IsFit crew.now }
    requires can { CanGo (C.IsFresh crew.now) (C.CanRun crew.now) (C.phase crew.now) task.0 slot.old }
    ensures { Goes (C.HasRun crew.now) (C.Ends crew.now) task.0 slot.old slot.new }
{
    if let Some(pass) = &mut slot.pass {
        gate.arrive(task);
        crew.run(task, pass, &mut slot.extra, &mut slot.done);
    }
}

/// Runs the tasks of all slots that have a pass, with a thread for each slot. The first of them is the task of this
/// number.
fn run_slots<'a, T: Threads + Sync, G: Gate + Sync, C: Crew + Sync>(
    rt: &T,
    gate: &G,
    crew: &C,
    first: usize,
    slots: &mut [Slot<'a, C::Pass, C::Extra>],
)
    requires fit { C.IsFit crew.now }
    requires number { first + length slots.old ≤ TASK_LIMIT }
    requires can { EachAt (λ t. CanGo (C.IsFresh crew.now) (C.CanRun crew.now) (C.phase crew.now) (first + t)) slots.old }
    ensures { Each (λ t. Goes (C.HasRun crew.now) (C.Ends crew.now) (first + t)) slots.old slots.new }
{
    if slots.len() == 0 {
        return;
    }
    let count = slots.len();
    let work = |t: usize, slot: &mut Slot<'_, C::Pass, C::Extra>|
        requires fit { C.IsFit crew.now }
        requires number { first + t < TASK_LIMIT }
        requires can { CanGo (C.IsFresh crew.now) (C.CanRun crew.now) (C.phase crew.now) (first + t) slot.now }
        ensures { Goes (C.HasRun crew.entry.now) (C.Ends crew.entry.now) (first + t) slot.entry.now slot.exit.now }
    { run_slot(gate, crew, TaskNo((first + t) as u32), slot) };
    thread::for_each_mut(rt, slots, count, &work);
}

/// Runs the phase's tasks, whose slots alone have passes, each on a thread of its own.
fn run_those<'a, T: Threads + Sync, G: Gate + Sync, C: Crew + Sync>(
    rt: &T,
    gate: &G,
    crew: &C,
    job: &Job,
    phase: u32,
    slots: &mut [Slot<'a, C::Pass, C::Extra>],
)
    requires fit { C.IsFit crew.now }
    requires phase { C.phase crew.now ≡ phase_at job.now phase }
    requires number { length slots.old ≤ TASK_LIMIT }
    requires count { length slots.old ≡ length job.now.tasks }
    requires can { EachAt (CanGo (C.IsFresh crew.now) (C.CanRun crew.now) (C.phase crew.now)) slots.old }
    requires others { EachAt (λ t s. is_its (C.phase crew.now) t ≡ false → s.pass ≡ None) slots.old }
    ensures { Each (Goes (C.HasRun crew.now) (C.Ends crew.now)) slots.old slots.new }
{
    let range = range_of(job, phase);
    let first = range.start;
    run_slots(rt, gate, crew, first, &mut slots[range]);
}

/// Runs the phase's tasks: splits off a pass for each, runs all at once, each once it has passed the gate, and joins the
/// passes. The slots stand in the order of the job's tasks.
pub fn run_crew<'a, T: Threads + Sync, G: Gate + Sync, C: Crew + Sync>(
    rt: &T,
    gate: &G,
    crew: &C,
    job: &Job,
    phase: u32,
    root: &mut C::Pass,
    slots: &mut [Slot<'a, C::Pass, C::Extra>],
)
    requires fit { C.IsFit crew.now }
    requires phase { C.phase crew.now ≡ phase_at job.now phase }
    requires root { C.IsRoot crew.now root.old [] [] }
    requires ready { AreReady (C.CanRun crew.now) (C.phase crew.now) slots.old }
    ensures root { C.IsRoot crew.now root.new (all_tasks (C.phase crew.now)) (all_tasks (C.phase crew.now)) }
    ensures back { AreBack (C.Ends crew.now) (C.Knows crew.now root.new) (C.phase crew.now) slots.old slots.new }
{
    split_all(crew, job, phase, root, slots);
    run_those(rt, gate, crew, job, phase, slots);
    let count = job.task_count();
    for t in 0..count {
        if let Some(pass) = take_at(slots, t) {
            crew.join(root, TaskNo(t as u32), pass);
        }
    }
}
