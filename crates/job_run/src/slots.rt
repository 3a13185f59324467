//! The tasks of a job with the passes that their threads work with.
ghost use Rattle.std.specs.Prelude.{◌≡◌, ◌+◌, ◌<◌, ◌≤◌, nat_eq, if◌then◌else◌, [], ◌∷◌, ◌++◌, length, map, All, IsSome, IfOk, slice_index_or, slice_set, vec_capacity};
ghost use Rattle.std.specs.declared.option.Option.TheVariants.{Some, None};
ghost use Rattle.brk_table.specs.Places.{IsIn};
ghost use Rattle.session_book.specs.Meaning.{task_of};
ghost use Rattle.job_run.specs.Slots.{AreEmpty, HasRoom, IsRange};
ghost use Rattle.job_run.specs.Tasks.{AreNew, HasNotRun, StaysBegun};

use crate::outcome::Done;
use brk_table::Tables;
use cov_base::NoMemory;
use module_area::{Control, Finals};
use phase_plan::{Begun, begin};
use session_book::Job;
use std::alloc::Global;
use std::ops::Range;
use task_run::{Bench, Task};

/// A task, while its phase runs the pass that was split off for it, and from its phase on what its runner keeps of it. The
/// next slot begins 128 bytes behind them, so that no two threads write to one cache line.
#[derive(Drop)]
pub struct Slot<'a, P, E> {
    pub done: Done<'a>,
    pub pass: Option<P>,
    pub extra: Option<E>,
    apart: [u64; 16],
}

/// Whether a task of the job is one of the phase.
pub fn is_of(job: &Job, t: usize, phase: u32) -> bool
    requires { t < length job.now.tasks }
    ensures { result ≡ nat_eq (task_of job.now t).phase phase }
{
    job.card(t).phase == phase
}

/// The range up to this index; it begins there where it was empty.
fn up_to(range: Range<usize>, t: usize) -> Range<usize>
    requires { t < usize.MAX }
    ensures start { result.start ≡ (if nat_eq range.start range.end then t else range.start) }
    ensures end { result.end ≡ t + 1 }
{
    let start = if range.start == range.end {
        t
    } else {
        range.start
    };
    start..t + 1
}

/// Where the tasks of the phase stand among those of the job: from the first of them to the last. In a job whose tasks
/// stand in the order of their phases no other is among them.
pub fn range_of(job: &Job, phase: u32) -> Range<usize>
    ensures { IsRange job.now phase (length job.now.tasks) result.start result.end }
{
    let count = job.task_count();
    let mut range = 0..0;
    for t in 0..count {
        if is_of(job, t, phase) {
            range = up_to(range, t);
        }
    }
    range
}

/// A task as its card says, over the modules and tables, which has not run.
pub fn new_task<'a>(
    alloc: Global,
    job: &'a Job,
    tables: &'a Tables,
    t: usize,
) -> Result<Done<'a>, NoMemory>
    requires task { t < length job.now.tasks }
    requires tables { All (IsIn job.now.images) tables.now.places }
    ensures { IfOk result (λ d. HasNotRun job.now tables.now.places t d) }
{
    let Begun { cpu, space, io } = begin(alloc, job, tables, t)?;
    let task = Task {
        bench: Bench {
            cpu,
            space,
            io,
            control: Control {
                sessions: Vec::new(alloc),
                next: 0,
                opened: None,
            },
        },
        done: 0,
        budget: job.card(t).budget,
    };
    Ok(Done { ending: None, task })
}

/// The job's tasks in job order, none of which has run, without passes.
pub fn make_slots<'a, P: Drop, E: Drop>(
    alloc: Global,
    job: &'a Job,
    tables: &'a Tables,
) -> Result<Vec<Slot<'a, P, E>>, NoMemory>
    requires { All (IsIn job.now.images) tables.now.places }
    ensures tasks { IfOk result (λ v. AreNew job.now tables.now.places v.items) }
    ensures empty { IfOk result (λ v. AreEmpty v.items) }
{
    let count = job.task_count();
    let mut slots = Vec::with_capacity(alloc, count)?;
    for t in 0..count {
        let done = new_task(alloc, job, tables, t)?;
        slots.push(Slot {
            done,
            pass: None,
            extra: None,
            apart: [0; 16],
        })?;
    }
    Ok(slots)
}

/// Room for what is told of a job's tasks, which is taken before the first phase runs. It is one value, so that it is let go
/// in one place.
#[derive(Drop)]
pub struct Room<'a, E> {
    pub tasks: Vec<Done<'a>>,
    pub extras: Vec<E>,
}

/// The room for a job.
pub fn make_room<'a, E: Drop>(alloc: Global, job: &Job) -> Result<Room<'a, E>, NoMemory>
    ensures { IfOk result (HasRoom (length job.now.tasks)) }
{
    let tasks = Vec::with_capacity(alloc, job.task_count())?;
    let extras = Vec::with_capacity(alloc, job.task_count())?;
    Ok(Room { tasks, extras })
}

/// Gives the slot's task its sessions, and the slot what its runner keeps of the task.
pub fn equip<'a, P: Drop, E: Drop>(slot: &mut Slot<'a, P, E>, control: Control, extra: E)
    ensures control { slot.new.done.task.bench.control ≡ control }
    ensures begun { StaysBegun slot.old.done slot.new.done }
    ensures extra { slot.new.extra ≡ Some extra }
    ensures pass { slot.new.pass ≡ slot.old.pass }
{
    slot.done.task.bench.control = control;
    slot.extra = Some(extra);
}

/// Puts a pass into the slot.
pub fn give<'a, P: Drop, E: Drop>(slot: &mut Slot<'a, P, E>, pass: P)
    ensures { slot.new ≡ record slot.old { pass = Some pass } }
{
    slot.pass = Some(pass);
}

/// Takes the pass out of the slot.
pub fn take<'a, P: Drop, E: Drop>(slot: &mut Slot<'a, P, E>) -> Option<P>
    ensures pass { result ≡ slot.old.pass }
    ensures rest { slot.new ≡ record slot.old { pass = None } }
{
    slot.pass.take()
}

/// Takes the pass out of the slot of this task.
pub fn take_at<'a, P: Drop, E: Drop>(slots: &mut [Slot<'a, P, E>], t: usize) -> Option<P>
    requires { t < length slots.old }
    ensures pass { (d : _) → result ≡ (slice_index_or slots.old t d).pass }
    ensures rest { (d : _) → slots.new ≡ slice_set slots.old t (record (slice_index_or slots.old t d) { pass = None }) }
{
    take(&mut slots[t])
}

/// Moves the slot's task and its extra behind those of others, in lists that have room for them.
pub fn put_parts<'a, P: Drop, E: Drop>(slot: Slot<'a, P, E>, room: &mut Room<'a, E>)
    requires some { IsSome slot.extra }
    requires tasks_room { length room.old.tasks.items < vec_capacity room.old.tasks }
    requires extras_room { length room.old.extras.items < vec_capacity room.old.extras }
    ensures tasks { room.new.tasks.items ≡ room.old.tasks.items ++ slot.entry.done ∷ [] }
    ensures extras { map Some room.new.extras.items ≡ map Some room.old.extras.items ++ slot.entry.extra ∷ [] }
    ensures tasks_room { vec_capacity room.old.tasks ≤ vec_capacity room.new.tasks }
    ensures extras_room { vec_capacity room.old.extras ≤ vec_capacity room.new.extras }
{
    let Slot {
        done,
        pass: _,
        extra,
        apart: _,
    } = slot;
    let Some(extra) = extra else { unreachable!() };
    let Ok(()) = room.tasks.push(done) else {
        unreachable!()
    };
    let Ok(()) = room.extras.push(extra) else {
        unreachable!()
    };
}
