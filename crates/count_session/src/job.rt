//! A whole job counted, and what it comes to.
ghost use Rattle.std.specs.Prelude.{◌≡◌, ◌+◌, ◌<◌, ◌≤◌, length, IfOk};
ghost use Rattle.brk_table.specs.Kept.{AreCodes};
ghost use Rattle.session_book.specs.JobView.{IsJob};
ghost use Rattle.session_book.specs.Sessions.{AreWhole};
ghost use Rattle.job_run.specs.Slots.{dones};
ghost use Rattle.count_session.specs.Job.{CountsView, IsCountedJob, count_of};
ghost use Rattle.count_session.specs.Phases.{AreBefore, AreCounted};

use crate::counts::Counts;
use crate::pass::CountSlot;
use crate::phase::count_phase;
use brk_table::Tables;
use cov_base::{Fact, NoMemory, PlaceNo, SessNo, TaskNo};
use cov_outside::Gate;
use job_run::make_slots;
use phase_plan::has_module;
use s370_state::{Cpu, Ending};
use session_book::{FactCounts, Job, Results};
use std::alloc::Global;
use std::marker::Model;
use std::sync::Wait;
use std::thread::Threads;

/// The counts of a job's sessions: for each phase those that its area ended with.
#[derive(Drop)]
pub struct JobCounts<'a> {
    job: &'a Job,
    tables: &'a Tables,
    phases: Vec<Counts>,
}

impl<'a> Model for JobCounts<'a> {
    ghost use Rattle.count_session.specs.Job.{CountsView, AreSized};

    ghost Value = { CountsView };

    ghost view = { λ c. record { job = c.job.now; places = c.tables.now.places; phases = c.phases.items } };

    ghost invariant = { λ c. AreSized (record { job = c.job.now; places = c.tables.now.places; phases = c.phases.items }) };
}

impl<'a> JobCounts<'a> {
    /// How often the fact was counted for the session, which is one of the job, at the place, which is one of the tables; 0 at
    /// a place of a module that the session doesn't name.
    pub fn get(&self, s: SessNo, place: PlaceNo, fact: Fact) -> u64
        requires some { 0 < s.0 }
        requires session { s.0 ≤ length self.now.job.sessions }
        requires place { place.0 < length self.now.places }
        ensures { result ≡ count_of self.now s.0 place.0 fact }
    {
        let session = self.job.session(s);
        if !has_module(&session.modules, self.tables.place(place).module) {
            return 0;
        }
        self.phases[session.phase as usize].get(place, fact)
    }
}

/// What a counted job has come to: its tasks, in their slots, and its sessions' counts.
#[derive(Drop)]
pub struct Counted<'a> {
    pub slots: Vec<CountSlot<'a>>,
    pub counts: JobCounts<'a>,
}

impl<'a> FactCounts for Counted<'a> {
    ghost use Rattle.count_session.specs.Job.{count_of};

    ghost sessions = { λ o. length o.counts.job.sessions };

    ghost places = { λ o. length o.counts.places };

    ghost count_of = { λ o s p f. count_of o.counts s p f };

    fn count(&self, s: SessNo, p: PlaceNo, fact: Fact) -> u64 {
        self.counts.get(s, p, fact)
    }
}

impl<'a> Results for Counted<'a> {
    ghost use Rattle.job_run.specs.Slots.{dones};
    ghost use Rattle.job_run.specs.Tasks.{results_of};

    ghost tasks = { λ o. length o.slots.items };

    ghost result_of = { λ o t. results_of (dones o.slots.items) t };

    fn ending(&self, t: TaskNo) -> Option<Ending> {
        self.slots[t.0 as usize].done.ending
    }

    fn done(&self, t: TaskNo) -> u32 {
        self.slots[t.0 as usize].done.task.done
    }

    fn cpu(&self, t: TaskNo) -> &Cpu {
        &self.slots[t.0 as usize].done.task.bench.cpu
    }

    fn output(&self, t: TaskNo) -> &[u8] {
        self.slots[t.0 as usize].done.task.bench.io.output()
    }

    fn row(&self, t: TaskNo, n: u32) -> &[u8] {
        let space = &self.slots[t.0 as usize].done.task.bench.space;
        space.row(n)
    }
}

/// Counts the job's phases one after the other.
fn count_phases<'a, T: Threads + Sync, G: Gate + Sync>(
    rt: &T,
    alloc: Global,
    gate: &G,
    job: &Job,
    tables: &Tables,
    slots: &mut [CountSlot<'a>],
) -> Result<Vec<Counts>, NoMemory>
    requires codes { AreCodes job.now.images tables.now }
    requires before { AreBefore job.now tables.now.places 0 slots.old }
    ensures job { IsJob job.now }
    ensures counts { IfOk result (λ v. AreCounted job.now tables.now.places (length job.now.phases) v.items) }
    ensures through { IfOk result (λ _. AreBefore job.now tables.now.places (length job.now.phases) slots.new) }
{
    let count = job.phase_count();
    let mut phases = Vec::with_capacity(alloc, count as usize)?;
    for phase in 0..count {
        let counts = count_phase(rt, alloc, gate, job, tables, phase, slots)?;
        phases.push(counts)?;
    }
    Ok(phases)
}

/// Runs the job with breakpoints that stay, phase after phase, the tasks of a phase at once, each once it has passed the
/// gate: each task ends as it does with the job's services, alone where it has none, and the counts of each session at its
/// modules' places are those of its executions. No session of the job has a controller; the tables are those of the job's
/// listings, with the instructions of their modules. All tasks take their memory before the first phase runs, and a phase
/// takes all but its area's end before it plants.
pub fn count_job<'a, T: Threads + Wait + Sync, G: Gate + Sync>(
    rt: &T,
    alloc: Global,
    gate: &G,
    job: &'a Job,
    tables: &'a Tables,
) -> Result<Counted<'a>, NoMemory>
    requires tables { AreCodes job.now.images tables.now }
    requires whole { AreWhole job.now }
    ensures { IfOk result (λ c. IsCountedJob job.now tables.now.places (dones c.slots.items) c.counts) }
{
    let mut slots = make_slots(alloc, job, tables)?;
    let phases = count_phases(rt, alloc, gate, job, tables, &mut slots)?;
    Ok(Counted {
        slots,
        counts: JobCounts {
            job,
            tables,
            phases,
        },
    })
}
