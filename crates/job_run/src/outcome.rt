//! What a run has come to.
ghost use Rattle.std.specs.Prelude.{◌≡◌, ◌<◌, ◌≤◌, length, All};
ghost use Rattle.session_book.specs.Meaning.{session_of};
ghost use Rattle.job_run.specs.Sets.{IsSized, set_in, sets_of};

use brk_table::Tables;
use cov_base::{Bits, PlaceNo, SessNo, TaskNo};
use module_area::Finals;
use s370_state::{Cpu, Ending};
use session_book::{FactSets, Job, Results};
use std::marker::Model;
use task_run::Task;

/// A task, and how it ended; none until it has ended.
#[derive(Drop)]
pub struct Done<'a> {
    pub ending: Option<Ending>,
    pub task: Task<'a>,
}

/// The sets of a job's sessions: for each phase those that its area ended with.
#[derive(Drop)]
pub struct Sets<'a> {
    job: &'a Job,
    places: u32,
    finals: Vec<Finals>,
}

impl<'a> Model for Sets<'a> {
    ghost use Rattle.job_run.specs.Sets.{SetsView, AreSets};

    ghost Value = { SetsView };

    ghost view = { λ s. record { job = s.job.now; places = s.places; finals = s.finals.items } };

    ghost invariant = { λ s. AreSets (record { job = s.job.now; places = s.places; finals = s.finals.items }) };
}

/// The phase of a session of the job.
fn phase_of(job: &Job, s: SessNo) -> usize
    requires some { 0 < s.0 }
    requires session { s.0 ≤ length job.now.sessions }
    ensures value { result ≡ (session_of job.now s.0).phase }
    ensures exists { result < length job.now.phases }
{
    job.sessions[s.0 as usize - 1].phase as usize
}

impl<'a> Sets<'a> {
    /// The sets of a job over tables, by those of each phase's area.
    pub fn new(job: &'a Job, tables: &Tables, finals: Vec<Finals>) -> Sets<'a>
        requires count { length finals.items ≡ length job.now.phases }
        requires sizes { All (IsSized job.now (length tables.now.places)) finals.items }
        ensures { result ≡ sets_of job.now tables.now.places finals.items }
    {
        Sets {
            job,
            places: tables.len(),
            finals,
        }
    }

    /// The set of a session of the job at a place of its tables.
    pub fn get(&self, s: SessNo, p: PlaceNo) -> Bits
        requires some { 0 < s.0 }
        requires session { s.0 ≤ length self.now.job.sessions }
        requires place { p.0 < self.now.places }
        ensures { result ≡ set_in self.now s.0 p.0 }
    {
        let phase = phase_of(self.job, s);
        self.finals[phase].set(s, p)
    }
}

/// What the run has come to: the job's tasks, and its sessions' sets.
#[derive(Drop)]
pub struct Outcome<'a> {
    pub tasks: Vec<Done<'a>>,
    pub sets: Sets<'a>,
}

impl<'a> FactSets for Outcome<'a> {
    ghost use Rattle.job_run.specs.Sets.{set_in};

    ghost sessions = { λ o. length o.sets.job.sessions };

    ghost places = { λ o. o.sets.places };

    ghost set_of = { λ o s p. set_in o.sets s p };

    fn set(&self, s: SessNo, p: PlaceNo) -> Bits {
        self.sets.get(s, p)
    }
}

impl<'a> Results for Outcome<'a> {
    ghost use Rattle.job_run.specs.Tasks.{results_of};

    ghost tasks = { λ o. length o.tasks.items };

    ghost result_of = { λ o t. results_of o.tasks.items t };

    fn ending(&self, t: TaskNo) -> Option<Ending> {
        self.tasks[t.0 as usize].ending
    }

    fn done(&self, t: TaskNo) -> u32 {
        self.tasks[t.0 as usize].task.done
    }

    fn cpu(&self, t: TaskNo) -> &Cpu {
        &self.tasks[t.0 as usize].task.bench.cpu
    }

    fn output(&self, t: TaskNo) -> &[u8] {
        self.tasks[t.0 as usize].task.bench.io.output()
    }

    fn row(&self, t: TaskNo, n: u32) -> &[u8] {
        let space = &self.tasks[t.0 as usize].task.bench.space;
        space.row(n)
    }
}
