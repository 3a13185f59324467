//! The job that the cards spell.
ghost use Rattle.std.specs.Prelude.{◌≡◌, ◌<◌, ◌≤◌, IfSome, length, position};
ghost use Rattle.std.specs.Str.{bytes_eq};
ghost use Rattle.session_book.specs.JobView.{IsJob, IsSession, IsTask};
ghost use Rattle.session_book.specs.Meaning.{SessionView, TaskView, session_of, task_of, task_named};
ghost use Rattle.session_book.specs.Names.{session_named};

use crate::services::Service;
use cov_base::{Addr, Name, SessNo, TaskNo};
use listing_reader::ListingLines;
use module_area::{DataCard, Images};
use std::marker::Model;

/// A session: its name, its phase and modules by index, and the controller's index among the job's tasks, none
/// for a whole session.
#[derive(Drop)]
pub struct Session {
    pub name: Name,
    pub phase: u32,
    pub modules: Vec<u32>,
    pub by: Option<u32>,
}

impl Model for Session {
    ghost use Rattle.session_book.specs.Meaning.{SessionView};

    ghost Value = { SessionView };

    ghost view = { λ s. record { name = s.name; phase = s.phase; modules = s.modules.items; by = s.by } };
}

/// A task: its name, its phase by index, its entry address, the bytes of its private storage (at most
/// 1,048,576), its budget of instructions (1 to 50,000,000), the bytes that its output has room for (at most
/// 65,536), its registers as it begins, the bytes that fill its private storage, and its input.
#[derive(Drop)]
pub struct TaskCard {
    pub name: Name,
    pub phase: u32,
    pub entry: Addr,
    pub private: u32,
    pub budget: u32,
    pub room: u32,
    pub regs: [u32; 16],
    pub cards: Vec<DataCard>,
    pub input: Vec<u8>,
}

impl Model for TaskCard {
    ghost use Rattle.session_book.specs.Meaning.{TaskView};

    ghost Value = { TaskView };

    ghost view = { λ t. record { name = t.name; phase = t.phase; entry = t.entry; private = t.private; budget = t.budget; room = t.room; regs = t.regs; cards = t.cards.items; input = t.input.items } };
}

/// What the cards of a job say. For each module there is one entry of `listings`, none where it isn't monitored.
#[derive(Drop)]
pub struct JobCards {
    pub images: Images,
    pub listings: Vec<Option<ListingLines>>,
    pub services: Vec<Service>,
    pub phases: Vec<Name>,
    pub sessions: Vec<Session>,
    pub tasks: Vec<TaskCard>,
}

impl Model for JobCards {
    ghost use Rattle.session_book.specs.Meaning.{JobView};

    ghost Value = { JobView };

    ghost view = { λ j. record { images = j.images; listings = j.listings.items; services = j.services.items; phases = j.phases.items; sessions = j.sessions.items; tasks = j.tasks.items } };
}

/// The whole job, as its cards say.
#[derive(Drop)]
pub struct Job {
    pub images: Images,
    pub listings: Vec<Option<ListingLines>>,
    services: Vec<Service>,
    pub phases: Vec<Name>,
    pub sessions: Vec<Session>,
    pub tasks: Vec<TaskCard>,
}

impl Model for Job {
    ghost use Rattle.session_book.specs.Meaning.{JobView};

    ghost Value = { JobView };

    ghost use Rattle.session_book.specs.JobInside.{job_view, IsSound};

    ghost view = { job_view };

    ghost invariant = { IsSound };
}

fn session_index(sessions: &[Session], name: &Name) -> Option<usize>
    ensures value { result ≡ position (λ (s : SessionView). bytes_eq s.name name.now) sessions.now }
    ensures within { IfSome result (λ i. i < length sessions.now) }
{
    sessions.iter().position(|session| session.name == *name)
}

fn task_index(tasks: &[TaskCard], name: &Name) -> Option<usize>
    ensures value { result ≡ position (λ (t : TaskView). bytes_eq t.name name.now) tasks.now }
    ensures within { IfSome result (λ i. i < length tasks.now) }
{
    tasks.iter().position(|task| task.name == *name)
}

impl Job {
    /// The job of these cards, which keep the rules of `IsJob`: it has none of services, which the reader keeps alone.
    pub fn new(cards: JobCards) -> Job
        requires { IsJob cards }
        ensures { result ≡ cards }
    {
        let JobCards {
            images,
            listings,
            services,
            phases,
            sessions,
            tasks,
        } = cards;
        Job {
            images,
            listings,
            services,
            phases,
            sessions,
            tasks,
        }
    }

    /// Its services in the order of their cards.
    pub fn services(&self) -> &[Service]
        ensures { result.now ≡ self.now.services }
    {
        &self.services
    }

    /// The number of the session of the name; none exactly where no session has it.
    pub fn session_named(&self, name: &Name) -> Option<SessNo>
        ensures value { result ≡ session_named self.now name.now }
        ensures from { IfSome result (λ s. 0 < s.0) }
        ensures to { IfSome result (λ s. s.0 ≤ length self.now.sessions) }
    {
        let at = session_index(&self.sessions, name)?;
        Some(SessNo(at as u32 + 1))
    }

    /// The number of the task of the name; none exactly where no task has it.
    pub fn task_named(&self, name: &Name) -> Option<TaskNo>
        ensures { result ≡ task_named self.now name.now }
    {
        let at = task_index(&self.tasks, name)?;
        Some(TaskNo(at as u32))
    }

    /// The number of its modules, at most 16.
    pub fn module_count(&self) -> u32
        ensures value { result ≡ length self.now.images }
        ensures job { IsJob self.now }
    {
        self.images.0.len() as u32
    }

    /// The number of its phases, at most 16.
    pub fn phase_count(&self) -> u32
        ensures value { result ≡ length self.now.phases }
        ensures job { IsJob self.now }
    {
        self.phases.len() as u32
    }

    /// The number of its tasks, at most 64.
    pub fn task_count(&self) -> usize
        ensures value { result ≡ length self.now.tasks }
        ensures job { IsJob self.now }
    {
        self.tasks.len()
    }

    /// A task's card.
    pub fn card(&self, t: usize) -> &TaskCard
        requires { t < length self.now.tasks }
        ensures value { result.now ≡ task_of self.now t }
        ensures card { IsTask (length self.now.phases) result.now }
    {
        &self.tasks[t]
    }

    /// A session.
    pub fn session(&self, s: SessNo) -> &Session
        requires from { 0 < s.0 }
        requires to { s.0 ≤ length self.now.sessions }
        ensures value { result.now ≡ session_of self.now s.0 }
        ensures is { IsSession (length self.now.images) (length self.now.phases) result.now }
    {
        &self.sessions[s.0 as usize - 1]
    }
}
