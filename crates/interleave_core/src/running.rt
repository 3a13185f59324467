//! A task of a core.
ghost use Rattle.std.specs.Prelude.{◌≡◌, ℕ, ◌+◌, ◌<◌, false, true, option_map, length, IsSome, IfSome, nat_le, All, IfOk, OnErr};
ghost use Rattle.std.specs.declared.option.Option.{Option};
ghost use Rattle.std.specs.declared.option.Option.TheVariants.{Some, None};
ghost use Rattle.brk_table.specs.Places.{IsIn};
ghost use Rattle.session_book.specs.Meaning.{task_of};
ghost use Rattle.s370_exec.specs.Meaning.{has_returned, visit_of};
ghost use Rattle.interleave_core.specs.declared.stage.Stage.TheVariants.{Ready, Holding};
ghost use Rattle.cov_base.specs.declared.limits.TheConstants.{SESSION_LIMIT, PLACE_LIMIT};
ghost use Rattle.interleave_core.specs.Meaning.{World, first_part, place_at, Change as Told, change_for, change_of, place_due, subject_place, step_of, stage_after, is_awaiting, with_stage, in_hand, executed, instruction_executed, ready_done, task_goes_on, task_done, will_execute, change_due, stage_event, change_or_do, ending_of};
ghost use Rattle.interleave_core.specs.World.{world_of};
ghost use Rattle.interleave_core.specs.Views.{due_of, IsRunning, InWorlds, InPlaces, InPlan, ByPlan, Doing, Gives, DiffersInSessions, numbered, seen, seen_at, closing, with_part, changed_by};

use crate::control::{Change, PlaceChange, next_place, nth_session};
use crate::events::{Event, NotPossible};
use crate::stage::{Due, Hand, Stage};
use brk_table::Tables;
use cov_base::{Addr, NoMemory, PlaceNo, TaskNo};
use module_area::Plan;
use phase_plan::{Begun, begin};
use s370_exec::{has_returned, instruction_went, step, subject_seen, supervisor_call};
use s370_state::{Cpu, Ending, Next, TaskIo};
use session_book::Job;
use space_map::TaskSpace;
use std::alloc::Global;
use std::marker::Model;

/// A task: its processor, storage, input and output, the instructions done, at most its budget of them, and where it
/// stands.
#[derive(Drop)]
pub(crate) struct Running<'a> {
    pub(crate) cpu: Cpu,
    pub(crate) space: TaskSpace<'a>,
    pub(crate) io: TaskIo,
    pub(crate) done: u32,
    pub(crate) budget: u32,
    pub(crate) stage: Stage,
    /// Of the sessions that it controls: how many it has opened, whether the last of them is open, and at how many places
    /// of the one that the SVC in hand opens or closes it has done so.
    opened: u32,
    is_open: bool,
    changed: u32,
}

impl<'a> Model for Running<'a> {
    ghost use Rattle.std.specs.Prelude.{◌≤◌};
    ghost use Rattle.cov_base.specs.declared.limits.TheConstants.{BUDGET_LIMIT};
    ghost use Rattle.s370_exec.specs.Solo.{state_of};
    ghost use Rattle.interleave_core.specs.Views.{RunningView};

    ghost Value = { RunningView };

    ghost view = { λ r. record { part = record { state = state_of r.cpu r.space.bytes r.io r.done; stage = r.stage; opened = r.opened; is_open = r.is_open; changed = r.changed }; space = r.space; budget = r.budget } };

    ghost invariant = { λ r. (r.done ≤ r.budget) × (r.budget ≤ BUDGET_LIMIT) };
}

/// The place that begins at the address.
fn place_at(tables: &Tables, a: Addr) -> Option<PlaceNo>
    ensures value { (w : World) → w.places ≡ tables.now.places → numbered result ≡ place_at w a }
    ensures exists { IfSome result (λ p. p.0 < length tables.now.places) }
{
    // the proof reads off the number of places that they differ in address
    let _ = tables.len();
    tables.at(a)
}

/// Whether the change closes the session, where there is one.
fn closes(change: &Option<Change>) -> Option<bool>
    ensures { result ≡ option_map (λ c. c.closes) change.now }
{
    match change {
        Some(c) => Some(c.closes),
        None => None,
    }
}

fn stage_after(next: Next) -> Stage
    ensures { result ≡ stage_after next }
{
    match next {
        Next::On => Stage::Ready,
        Next::Ended(e) => Stage::Ended(e),
    }
}

impl<'a> Running<'a> {
    fn has_returned(&self) -> bool
        ensures { result ≡ has_returned self.now.part.state }
    {
        has_returned(&self.cpu)
    }

    fn is_spent(&self) -> bool
        ensures { result ≡ nat_le self.now.budget self.now.part.state.done }
    {
        self.budget <= self.done
    }

    /// The place at which the next instruction, an EX, visits its subject.
    fn subject_place(&self, tables: &Tables) -> Option<PlaceNo>
        ensures value { InPlaces tables.now self.now (λ w t u. numbered result ≡ subject_place w (step_of w t u).visits) }
        ensures exists { IfSome result (λ p. p.0 < length tables.now.places) }
    {
        match subject_seen(&self.cpu, &self.space) {
            Some((at, _)) => place_at(tables, at),
            None => None,
        }
    }

    fn instruction_due(&self, tables: &Tables) -> Option<PlaceNo>
        ensures value { InPlaces tables.now self.now (λ w t u. numbered result ≡ place_due w t u Ready) }
        ensures exists { IfSome result (λ p. p.0 < length tables.now.places) }
    {
        if self.has_returned() {
            return None;
        }
        if self.is_spent() {
            return None;
        }
        place_at(tables, self.cpu.at())
    }

    /// The place whose cell the task is to fetch.
    pub(crate) fn place_due(&self, tables: &Tables) -> Option<PlaceNo>
        ensures value { InPlaces tables.now self.now (λ w t u. numbered result ≡ place_due w t u u.stage) }
        ensures exists { IfSome result (λ p. p.0 < length tables.now.places) }
    {
        match self.stage {
            Stage::Ready => self.instruction_due(tables),
            Stage::Awaiting => self.subject_place(tables),
            _ => None,
        }
    }

    /// Whether the subject of an EX is to be fetched.
    pub(crate) fn is_awaiting(&self) -> bool
        ensures { result ≡ is_awaiting self.now.part.stage }
    {
        match self.stage {
            Stage::Awaiting => true,
            _ => false,
        }
    }

    /// Whether the next instruction, or the subject that it visits, branches.
    pub(crate) fn went(&self, subject: bool) -> bool
        ensures { InWorlds self.now (λ w t u. (visit_of (step_of w t u) subject).went ≡ result) }
    {
        if subject {
            match subject_seen(&self.cpu, &self.space) {
                Some((_, went)) => went,
                None => false,
            }
        } else {
            instruction_went(&self.cpu, &self.space)
        }
    }

    /// Holds the cell from here on.
    pub(crate) fn hold(&mut self, hand: Hand)
        ensures { self.new ≡ with_part self.old (with_stage self.old.part (Holding hand)) }
    {
        self.stage = Stage::Holding(hand);
    }

    /// The cell in hand, where this is due of it.
    pub(crate) fn in_hand(&self, due: Due) -> Option<Hand>
        ensures { result ≡ in_hand due self.now.part.stage }
    {
        match self.stage {
            Stage::Holding(hand) => if hand.due == due { Some(hand) } else { None },
            _ => None,
        }
    }

    /// The opening of the task's next session, where none is open.
    fn opening<'p>(&self, t: TaskNo, plan: &'p Plan) -> Option<Change<'p>>
        ensures value { ByPlan plan.now self.now (λ w u. seen result ≡ change_for w t.0 u 4) }
        ensures room { IsSome result → self.now.part.opened < SESSION_LIMIT }
    {
        if self.is_open {
            return None;
        }
        match nth_session(plan, t, self.opened) {
            Some(session) => Some(Change {
                closes: false,
                session,
            }),
            None => None,
        }
    }

    /// The closing of its open session.
    fn closing<'p>(&self, t: TaskNo, plan: &'p Plan) -> Option<Change<'p>>
        ensures closes { IfSome result (λ ch. ch.closes ≡ true) }
        ensures value { ByPlan plan.now self.now (λ w u. seen result ≡ change_for w t.0 u 5) }
    {
        if !self.is_open {
            return None;
        }
        match nth_session(plan, t, self.opened.saturating_sub(1)) {
            Some(session) => Some(Change {
                closes: true,
                session,
            }),
            None => None,
        }
    }

    /// What the instruction that it is at does to its sessions.
    fn change<'p>(&self, t: TaskNo, plan: &'p Plan) -> Option<Change<'p>>
        ensures value { ByPlan plan.now self.now (λ w u. IsRunning w t.0 self.now → seen result ≡ change_of w t.0 u) }
        ensures room { IfSome result (λ ch. ch.closes ≡ false → self.now.part.opened < SESSION_LIMIT) }
    {
        if plan.controlled.is_empty() {
            return None;
        }
        match supervisor_call(&self.cpu, &self.space) {
            Some(4) => self.opening(t, plan),
            Some(5) => self.closing(t, plan),
            _ => None,
        }
    }

    /// Whether a Do executes the instruction that it is at.
    fn executes(&self, tables: &Tables) -> bool
        ensures { InPlaces tables.now self.now (λ w t u. result ≡ will_execute w t u u.stage) }
    {
        match self.stage {
            Stage::Ready => !self.has_returned()
                && !self.is_spent()
                && place_at(tables, self.cpu.at()).is_none()
                && self.subject_place(tables).is_none(),
            Stage::Holding(hand) => hand.due == Due::Nothing
                && (hand.subject || self.subject_place(tables).is_none()),
            _ => false,
        }
    }

    /// Of this change the next place, where the instruction is what a Do executes.
    fn next_place(&self, tables: &Tables, change: &Option<Change>) -> Option<PlaceChange>
        ensures { InPlaces tables.now self.now (λ w t u. seen_at result ≡ due_of w t u u.stage (seen change.now)) }
    {
        let Some(change) = change else {
            return None;
        };
        if !self.executes(tables) {
            return None;
        }
        next_place(change, self.changed)
    }

    /// The place at which a session is to be planted or closed before the instruction is executed.
    pub(crate) fn change_due(&self, t: TaskNo, plan: &Plan, tables: &Tables) -> Option<PlaceChange>
        ensures { InPlan plan.now tables.now t.0 self.now (λ w u. seen_at result ≡ change_due w t.0 u u.stage) }
    {
        self.next_place(tables, &self.change(t, plan))
    }

    /// One place more of that session is done.
    pub(crate) fn changed(&mut self)
        requires { self.old.part.changed < PLACE_LIMIT }
        ensures { self.new ≡ with_part self.old (record self.old.part { changed = self.old.part.changed + 1 }) }
    {
        self.changed += 1;
    }

    /// Its sessions after the instruction: whether that closes one, or else opens one.
    fn after_change(&mut self, closes: Option<bool>)
        requires { closes ≡ Some false → self.old.part.opened < SESSION_LIMIT }
        ensures rest { DiffersInSessions self.old self.new }
        ensures after { (ch : Option Told) → closing ch ≡ closes → self.new ≡ changed_by ch self.old }
    {
        let Some(closes) = closes else {
            return;
        };
        if !closes {
            self.opened += 1;
        }
        self.is_open = !closes;
        self.changed = 0;
    }

    /// Executes an instruction whole, which opens or closes a session where it is said.
    fn execute(&mut self, closes: Option<bool>)
        requires budget { self.old.part.state.done < self.old.budget }
        requires room { closes ≡ Some false → self.old.part.opened < SESSION_LIMIT }
        ensures part { InWorlds self.old (λ w t u. closing (change_of w t u) ≡ closes → self.new.part ≡ executed w t u) }
        ensures running { (w : World) (t : ℕ) → IsRunning w t self.old → IsRunning w t self.new }
    {
        self.done += 1;
        let next = step(&mut self.cpu, &mut self.space, &mut self.io);
        self.stage = stage_after(next);
        self.after_change(closes);
    }

    /// Executes an instruction whole, or an EX up to its subject where a place begins there.
    fn execute_to_place(&mut self, tables: &Tables, closes: Option<bool>)
        requires budget { self.old.part.state.done < self.old.budget }
        requires room { closes ≡ Some false → self.old.part.opened < SESSION_LIMIT }
        ensures part { Doing tables.now self.old closes (λ w t u. self.new.part ≡ instruction_executed w t u) }
        ensures running { (w : World) (t : ℕ) → IsRunning w t self.old → IsRunning w t self.new }
    {
        match self.subject_place(tables) {
            Some(_) => self.stage = Stage::Awaiting,
            None => self.execute(closes),
        }
    }

    /// Ends the task before an instruction, or executes the instruction; refused where a place begins there.
    fn begin(&mut self, tables: &Tables, closes: Option<bool>) -> Result<(), NotPossible>
        requires room { closes ≡ Some false → self.old.part.opened < SESSION_LIMIT }
        ensures done { Doing tables.now self.old closes (λ w t u. Gives result (ready_done w t u) self.new) }
        ensures refused { InPlaces tables.now self.old (λ w t u. OnErr result (ready_done w t u ≡ None)) }
        ensures kept { OnErr result (self.new ≡ self.old) }
        ensures running { (w : World) (t : ℕ) → IsRunning w t self.old → IsRunning w t self.new }
    {
        if self.has_returned() {
            self.stage = Stage::Ended(Ending::Returned);
            return Ok(());
        }
        if self.is_spent() {
            self.stage = Stage::Ended(Ending::Spent);
            return Ok(());
        }
        match place_at(tables, self.cpu.at()) {
            Some(_) => Err(NotPossible),
            None => {
                self.execute_to_place(tables, closes);
                Ok(())
            }
        }
    }

    /// Executes the instruction in hand.
    fn go_on(
        &mut self,
        tables: &Tables,
        hand: Hand,
        closes: Option<bool>,
    ) -> Result<(), NotPossible>
        requires budget { self.old.part.state.done < self.old.budget }
        requires room { closes ≡ Some false → self.old.part.opened < SESSION_LIMIT }
        ensures done { Doing tables.now self.old closes (λ w t u. Gives result (task_goes_on w t u (Holding hand)) self.new) }
        ensures refused { (w : World) (t : ℕ) → OnErr result (task_goes_on w t self.old.part (Holding hand) ≡ None) }
        ensures kept { OnErr result (self.new ≡ self.old) }
        ensures running { (w : World) (t : ℕ) → IsRunning w t self.old → IsRunning w t self.new }
    {
        match hand.due {
            Due::Nothing => {
                if hand.subject {
                    self.execute(closes);
                } else {
                    self.execute_to_place(tables, closes);
                }
                Ok(())
            }
            _ => Err(NotPossible),
        }
    }

    /// Executes the next instruction or the one in hand, or ends the task before an instruction.
    fn proceed(&mut self, tables: &Tables, closes: Option<bool>) -> Result<(), NotPossible>
        requires budget { (h : Hand) → self.old.part.stage ≡ Holding h → self.old.part.state.done < self.old.budget }
        requires room { closes ≡ Some false → self.old.part.opened < SESSION_LIMIT }
        ensures done { Doing tables.now self.old closes (λ w t u. Gives result (task_goes_on w t u u.stage) self.new) }
        ensures refused { InPlaces tables.now self.old (λ w t u. OnErr result (task_goes_on w t u u.stage ≡ None)) }
        ensures kept { OnErr result (self.new ≡ self.old) }
        ensures running { (w : World) (t : ℕ) → IsRunning w t self.old → IsRunning w t self.new }
    {
        match self.stage {
            Stage::Ready => self.begin(tables, closes),
            Stage::Holding(hand) => self.go_on(tables, hand, closes),
            _ => Err(NotPossible),
        }
    }

    /// Executes the next instruction or the one in hand, or ends the task before an instruction; refused where a cell
    /// is to be fetched, marked, lifted, planted or closed before, or the task has ended.
    pub(crate) fn run(&mut self, t: TaskNo, plan: &Plan, tables: &Tables) -> Result<(), NotPossible>
        requires { (h : Hand) → self.old.part.stage ≡ Holding h → self.old.part.state.done < self.old.budget }
        ensures done { InPlan plan.now tables.now t.0 self.old (λ w u. Gives result (task_done w t.0 u u.stage) self.new) }
        ensures refused { InPlan plan.now tables.now t.0 self.old (λ w u. OnErr result (task_done w t.0 u u.stage ≡ None)) }
        ensures kept { OnErr result (self.new ≡ self.old) }
        ensures running { (w : World) → IsRunning w t.0 self.old → IsRunning w t.0 self.new }
    {
        let change = self.change(t, plan);
        if self.next_place(tables, &change).is_some() {
            return Err(NotPossible);
        }
        self.proceed(tables, closes(&change))
    }

    /// How it has ended.
    pub(crate) fn ending(&self) -> Option<Ending>
        ensures { result ≡ ending_of self.now.part.stage }
    {
        match self.stage {
            Stage::Ended(e) => Some(e),
            _ => None,
        }
    }

    /// Do, or the planting or closing that is due before.
    fn change_or_do(&self, t: TaskNo, plan: &Plan, tables: &Tables) -> Event
        ensures { InPlan plan.now tables.now t.0 self.now (λ w u. result ≡ change_or_do t (change_due w t.0 u u.stage)) }
    {
        match self.change_due(t, plan, tables) {
            Some(x) => if x.closes {
                Event::Close(x.session, x.place)
            } else {
                Event::Plant(x.session, x.place)
            },
            None => Event::Do(t),
        }
    }

    /// The event that is possible of it as task t; none where it has ended.
    pub(crate) fn next(&self, t: TaskNo, plan: &Plan, tables: &Tables) -> Option<Event>
        ensures { InPlan plan.now tables.now t.0 self.now (λ w u. result ≡ stage_event w t u u.stage) }
    {
        match self.stage {
            Stage::Ready => match self.instruction_due(tables) {
                Some(_) => Some(Event::Fetch(t)),
                None => Some(self.change_or_do(t, plan, tables)),
            },
            Stage::Awaiting => Some(Event::Fetch(t)),
            Stage::Holding(hand) => match hand.due {
                Due::Marking => Some(Event::Mark(t)),
                Due::Lifting => Some(Event::Lift(t)),
                Due::Nothing => Some(self.change_or_do(t, plan, tables)),
            },
            Stage::Ended(_) => None,
        }
    }

    /// A task of the job before its first instruction.
    pub(crate) fn new(
        alloc: Global,
        job: &'a Job,
        tables: &'a Tables,
        t: usize,
    ) -> Result<Running<'a>, NoMemory>
        requires task { t < length job.now.tasks }
        requires tables { All (IsIn job.now.images) tables.now.places }
        ensures running { IfOk result (IsRunning (world_of job.now tables.now) t) }
        ensures part { IfOk result (λ r. r.part ≡ first_part (task_of job.now t)) }
    {
        let budget = job.card(t).budget;
        let Begun { cpu, space, io } = begin(alloc, job, tables, t)?;
        Ok(Running {
            cpu,
            space,
            io,
            done: 0,
            budget,
            stage: Stage::Ready,
            opened: 0,
            is_open: false,
            changed: 0,
        })
    }
}
