//! Takes a job line by line.
ghost use Rattle.std.specs.Prelude.{◌≡◌, ℕ, ◌<◌, ◌≤◌, true, Option, Some, IfOk, IfErr, length};
ghost use Rattle.cov_base.specs.declared.limits.TheConstants.{PHASE_LIMIT};
ghost use Rattle.session_book.specs.JobView.{IsJob};
ghost use Rattle.job_text.specs.Meaning as says;
ghost use Rattle.job_text.specs.Meaning.{Present, as_line, bound};
ghost use Rattle.job_text.specs.Steps as machine;
ghost use Rattle.job_text.specs.Steps.{Gives};
ghost use Rattle.job_text.specs.declared.parts.Part.TheVariants as kind;
ghost use Rattle.job_text.specs.Views.{view};

use crate::binding::bound_job;
use crate::card::Card;
use crate::cards::read_card;
use crate::drafts::{
    closed, closed_module, closed_service, closed_task, fits, has_phase, has_task, put_phase,
    with_service, with_session,
};
use crate::grammar::Grammar;
use crate::job_names::JobNames;
use crate::limit::Limit;
use crate::lines::listing_text;
use crate::parts::{Draft, Part};
use crate::refused::LineRefused;
use crate::task::fresh_task;
use cov_base::{
    Addr, BUDGET_LIMIT, LINE_LIMIT, MODULE_LIMIT, Name, NoMemory, PHASE_LIMIT, PRIVATE_LIMIT,
    ROOM_LIMIT, SESSION_LIMIT, SIZE_LIMIT, TASK_LIMIT,
};
use listing_reader::ListingLines;
use module_area::Image;
use names::NameList;
use session_book::{Job, Service};
use std::alloc::Global;
use std::marker::Model;
use std::mem;

/// What of a job was read.
#[derive(Drop)]
pub(crate) struct LineReader {
    part: Part,
    job: Draft,
}

impl Model for LineReader {
    ghost use Rattle.std.specs.Prelude.{None};
    ghost use Rattle.job_text.specs.Steps.{State, HasRoom};

    ghost Value = { State };

    ghost view = { λ r. record { part = r.part; job = r.job; over = None } };

    ghost invariant = { λ r. HasRoom r.part r.job };
}

impl LineReader {
    /// Nothing was read.
    pub(crate) fn new(alloc: Global, grammar: Grammar) -> LineReader
        ensures { result ≡ machine.start grammar }
    {
        LineReader {
            part: Part::Start,
            job: no_job(alloc, grammar),
        }
    }

    fn cover_card(&mut self) -> Result<(), LineRefused>
        ensures ok { IfOk result (λ _. Gives (machine.take_cover self.old) self.new) }
        ensures err { IfErr result (machine.Refuses (machine.take_cover self.old)) }
    {
        match &self.part {
            Part::Start => {
                put_part(&mut self.part, Part::Modules);
                Ok(())
            }
            _ => Err(LineRefused::Bad),
        }
    }

    fn open_module(
        &mut self,
        alloc: Global,
        name: Name,
        base: Addr,
        size: u32,
    ) -> Result<(), LineRefused>
        ensures ok { IfOk result (λ _. Gives (machine.open_module name base size self.old.job) self.new) }
        ensures err { IfErr result (machine.Refuses (machine.open_module name base size self.old.job)) }
    {
        if !fits(&self.job, &name, base.get(), size) {
            return Err(LineRefused::Bad);
        }
        if self.job.images.len() >= MODULE_LIMIT {
            return Err(LineRefused::TooLarge(Limit::Modules));
        }
        if size > SIZE_LIMIT {
            return Err(LineRefused::TooLarge(Limit::Size));
        }
        let image = Image {
            name,
            base,
            bytes: Vec::new(alloc),
        };
        put_part(&mut self.part, Part::Texts { image, left: size });
        Ok(())
    }

    fn module_card(
        &mut self,
        alloc: Global,
        name: Name,
        base: Addr,
        size: u32,
    ) -> Result<(), LineRefused>
        ensures ok { IfOk result (λ _. Gives (machine.take_module self.old name base size) self.new) }
        ensures err { IfErr result (machine.Refuses (machine.take_module self.old name base size)) }
    {
        let part = mem::replace(&mut self.part, Part::Modules);
        closed_module(part, &mut self.job)?;
        self.open_module(alloc, name, base, size)
    }

    fn text_card(&mut self, more: &[u8]) -> Result<(), LineRefused>
        ensures ok { IfOk result (λ _. Gives (machine.take_text self.old.part self.old.job more.now) self.new) }
        ensures err { IfErr result (machine.Refuses (machine.take_text self.old.part self.old.job more.now)) }
    {
        match &mut self.part {
            Part::Texts { image, left } => {
                if more.len() > *left as usize {
                    return Err(LineRefused::Bad);
                }
                image.bytes.extend_from_slice(more)?;
                *left -= more.len() as u32;
                Ok(())
            }
            _ => Err(LineRefused::Bad),
        }
    }

    fn listing_card(&mut self, alloc: Global, n: u32) -> Result<(), LineRefused>
        ensures ok { IfOk result (λ _. Gives (machine.take_listing self.old.part self.old.job n) self.new) }
        ensures err { IfErr result (machine.Refuses (machine.take_listing self.old.part self.old.job n)) }
    {
        match mem::replace(&mut self.part, Part::Modules) {
            Part::Texts { image, left } => {
                if left != 0 {
                    return Err(LineRefused::Bad);
                }
                let lines = ListingLines::new(alloc);
                put_part(
                    &mut self.part,
                    Part::Listed {
                        image,
                        left: n,
                        lines,
                    },
                );
                Ok(())
            }
            _ => Err(LineRefused::Bad),
        }
    }

    fn service_card(&mut self, service: Service) -> Result<(), LineRefused>
        ensures ok { IfOk result (λ _. Gives (machine.take_service self.old service) self.new) }
        ensures err { IfErr result (machine.Refuses (machine.take_service self.old service)) }
    {
        let part = mem::replace(&mut self.part, Part::Services);
        closed_service(part, &mut self.job)?;
        with_service(&mut self.job, service)
    }

    fn phase_card(&mut self, name: Name) -> Result<(), LineRefused>
        ensures ok { IfOk result (λ _. Gives (machine.take_card Present self.old (says.Phase name)) self.new) }
        ensures err { IfErr result (machine.Refuses (machine.take_card Present self.old (says.Phase name))) }
    {
        let part = mem::replace(&mut self.part, Part::Sessions);
        closed(part, &mut self.job)?;
        open_phase(&mut self.job, name)
    }

    fn session_card(
        &mut self,
        alloc: Global,
        name: Name,
        by: Option<Name>,
        names: &[Name],
    ) -> Result<(), LineRefused>
        ensures ok { IfOk result (λ _. Gives (machine.take_card Present self.old (says.Session name by names.now)) self.new) }
        ensures err { IfErr result (machine.Refuses (machine.take_card Present self.old (says.Session name by names.now))) }
    {
        match &self.part {
            Part::Sessions => add_session(alloc, &mut self.job, name, by, names),
            _ => Err(LineRefused::Bad),
        }
    }

    fn open_task(
        &mut self,
        alloc: Global,
        name: Name,
        entry: Addr,
        private: u32,
        budget: u32,
        room: u32,
    ) -> Result<(), LineRefused>
        ensures ok { IfOk result (λ _. Gives (machine.open_task name entry private budget room self.old.job) self.new) }
        ensures err { IfErr result (machine.Refuses (machine.open_task name entry private budget room self.old.job)) }
    {
        if has_task(&self.job, &name) {
            return Err(LineRefused::Bad);
        }
        if let Some(what) = task_over(&self.job, private, budget, room) {
            return Err(LineRefused::TooLarge(what));
        }
        let task = fresh_task(alloc, name, entry, private, budget, room);
        put_part(&mut self.part, Part::Task(task));
        Ok(())
    }

    fn task_card(
        &mut self,
        alloc: Global,
        name: Name,
        entry: Addr,
        private: u32,
        budget: u32,
        room: u32,
    ) -> Result<(), LineRefused>
        ensures ok { IfOk result (λ _. Gives (machine.take_task self.old name entry private budget room) self.new) }
        ensures err { IfErr result (machine.Refuses (machine.take_task self.old name entry private budget room)) }
    {
        let part = mem::replace(&mut self.part, Part::Sessions);
        closed_task(part, &mut self.job)?;
        self.open_task(alloc, name, entry, private, budget, room)
    }

    fn end_card(&mut self) -> Result<(), LineRefused>
        ensures ok { IfOk result (λ _. Gives (machine.take_card Present self.old says.End) self.new) }
        ensures err { IfErr result (machine.Refuses (machine.take_card Present self.old says.End)) }
    {
        let part = mem::replace(&mut self.part, Part::Done);
        closed(part, &mut self.job)
    }

    /// Takes a further card of the open task.
    fn more_card(&mut self, card: Card) -> Result<(), LineRefused>
        ensures ok { IfOk result (λ _. Gives (machine.take_more self.old.part self.old.job (view card)) self.new) }
        ensures err { IfErr result (machine.Refuses (machine.take_more self.old.part self.old.job (view card))) }
    {
        match &mut self.part {
            Part::Task(task) => task.card(card),
            _ => Err(LineRefused::Bad),
        }
    }

    fn card(&mut self, alloc: Global, card: Card) -> Result<(), LineRefused>
        ensures ok { IfOk result (λ _. Gives (machine.take_card Present self.old (view card)) self.new) }
        ensures err { IfErr result (machine.Refuses (machine.take_card Present self.old (view card))) }
    {
        match card {
            Card::Cover => self.cover_card(),
            Card::Module { name, base, size } => self.module_card(alloc, name, base, size),
            Card::Text(bytes) => self.text_card(&bytes),
            Card::Listing(n) => self.listing_card(alloc, n),
            Card::Service(service) => self.service_card(service),
            Card::Phase(name) => self.phase_card(name),
            Card::Session { name, by, modules } => { self.session_card(alloc, name, by, &modules) }
            Card::Task {
                name,
                entry,
                private,
                budget,
                room,
            } => self.task_card(alloc, name, entry, private, budget, room),
            Card::End => self.end_card(),
            card => self.more_card(card),
        }
    }

    fn takes_raw(&self) -> bool
        ensures { result ≡ machine.takes_raw self.now.part }
    {
        match &self.part {
            Part::Listed {
                image: _,
                left,
                lines: _,
            } => *left != 0,
            _ => false,
        }
    }

    fn listing_line(&mut self, text: &[u8]) -> Result<(), LineRefused>
        requires { machine.takes_raw self.old.part ≡ true }
        ensures ok { IfOk result (λ _. Gives (machine.take_raw self.old.part self.old.job text.now) self.new) }
        ensures err { IfErr result (machine.Refuses (machine.take_raw self.old.part self.old.job text.now)) }
    {
        match &mut self.part {
            Part::Listed {
                image: _,
                left,
                lines,
            } => {
                if text.len() > LINE_LIMIT {
                    return Err(LineRefused::TooLarge(Limit::Line));
                }
                lines.push(text)?;
                *left -= 1;
                Ok(())
            }
            _ => Err(LineRefused::Bad),
        }
    }

    /// Takes the next line; `ended` where an LF ended it. After a refusal there is nothing more to take.
    pub(crate) fn line(
        &mut self,
        alloc: Global,
        bytes: &[u8],
        ended: bool,
    ) -> Result<(), LineRefused>
        ensures ok { IfOk result (λ _. Gives (machine.step Present self.old (as_line bytes.now ended)) self.new) }
        ensures err { IfErr result (machine.Refuses (machine.step Present self.old (as_line bytes.now ended))) }
    {
        if self.takes_raw() {
            return self.listing_line(listing_text(bytes, ended));
        }
        match read_card(alloc, bytes)? {
            None => Err(LineRefused::Bad),
            Some(card) => self.card(alloc, card),
        }
    }

    /// The job that was read, which is taken out.
    pub(crate) fn finish(&mut self, alloc: Global) -> Result<Job, NoMemory>
        requires done { machine.is_done self.old.part ≡ true }
        requires job { IsJob (bound self.old.job) }
        ensures { IfOk result (λ job. job ≡ bound self.old.job) }
    {
        let none = no_job(alloc, self.job.grammar);
        bound_job(alloc, mem::replace(&mut self.job, none))
    }

    /// Whether ENDJOB was read.
    pub(crate) fn is_done(&self) -> bool
        ensures { result ≡ machine.is_done self.now.part }
    {
        match &self.part {
            Part::Done => true,
            _ => false,
        }
    }
}

/// No job.
fn no_job(alloc: Global, grammar: Grammar) -> Draft
    ensures { result ≡ says.no_job grammar }
{
    Draft {
        grammar,
        images: Vec::new(alloc),
        listings: Vec::new(alloc),
        services: Vec::new(alloc),
        phases: Vec::new(alloc),
        sessions: Vec::new(alloc),
        tasks: Vec::new(alloc),
        names: JobNames {
            modules: NameList::new(alloc),
            phases: NameList::new(alloc),
            sessions: NameList::new(alloc),
            tasks: NameList::new(alloc),
        },
    }
}

/// The limit that a further task of these sizes passes.
fn task_over(job: &Draft, private: u32, budget: u32, room: u32) -> Option<Limit>
    ensures { result ≡ machine.task_over job.now private budget room }
{
    if job.tasks.len() >= TASK_LIMIT {
        Some(Limit::Tasks)
    } else if private > PRIVATE_LIMIT {
        Some(Limit::Private)
    } else if budget > BUDGET_LIMIT {
        Some(Limit::Budget)
    } else if room > ROOM_LIMIT {
        Some(Limit::Room)
    } else {
        None
    }
}

/// Puts what is open now in the place of what was.
fn put_part(part: &mut Part, now: Part)
    ensures { part.new ≡ now }
{
    *part = now;
}

fn open_phase(job: &mut Draft, name: Name) -> Result<(), LineRefused>
    requires { machine.HasRoom kind.Modules job.old }
    ensures ok { IfOk result (λ _. Gives (machine.open_phase name job.old) (machine.at_sessions job.new)) }
    ensures err { IfErr result (machine.Refuses (machine.open_phase name job.old)) }
    ensures room { machine.HasRoom kind.Modules job.new }
{
    if has_phase(job, &name) {
        return Err(LineRefused::Bad);
    }
    if job.phases.len() >= PHASE_LIMIT {
        return Err(LineRefused::TooLarge(Limit::Phases));
    }
    Ok(put_phase(job, name)?)
}

fn add_session(
    alloc: Global,
    job: &mut Draft,
    name: Name,
    by: Option<Name>,
    names: &[Name],
) -> Result<(), LineRefused>
    requires { machine.HasRoom kind.Modules job.old }
    ensures ok { IfOk result (λ _. Gives (machine.add_session job.old name by names.now) (machine.at_sessions job.new)) }
    ensures err { IfErr result (machine.Refuses (machine.add_session job.old name by names.now)) }
    ensures room { machine.HasRoom kind.Modules job.new }
{
    let count = job.sessions.len();
    with_session(alloc, job, name, by, names)?;
    if count >= SESSION_LIMIT {
        return Err(LineRefused::TooLarge(Limit::Sessions));
    }
    Ok(())
}
