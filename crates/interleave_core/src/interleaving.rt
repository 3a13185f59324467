//! The core.
ghost use Rattle.std.specs.Prelude.{◌≡◌, ℕ, ◌+◌, ◌*◌, ◌<◌, ◌≤◌, nat_lt, ◌||◌, true, false, [], length, All, IfOk, OnErr, IfSome, is_some, IsTrue, IsNone, ◌↔◌};
ghost use Rattle.std.specs.declared.option.Option.TheVariants.{Some, None};
ghost use Rattle.module_area.specs.Meaning.{word_at};
ghost use Rattle.brk_table.specs.Places.{IsIn};
ghost use Rattle.cov_base.specs.declared.limits.TheConstants.{SESSION_LIMIT};
ghost use Rattle.interleave_core.specs.Meaning.{first_parts, controller_of, whole_step, changed_cell, parts_step, run_on, set_of, next_of, results_of};
ghost use Rattle.interleave_core.specs.World.{IsWorld, world_of};
ghost use Rattle.interleave_core.specs.CoreState.{core_start, KeepsRule};
ghost use Rattle.interleave_core.specs.MeaningOfEvents.{Stands};
ghost use Rattle.interleave_core.specs.Core.{FollowsAll, FollowsNone};
ghost use Rattle.interleave_core.specs.declared.events.Event.{Event};
ghost use Rattle.interleave_core.specs.declared.events.Event.TheVariants as event;
ghost use Rattle.interleave_core.specs.Going.{HasGone, all_events};
ghost use Rattle.interleave_core.specs.Results.{IsDue, IsOver, Fits};
ghost use Rattle.interleave_core.specs.Quiet.{StayQuiet, DrainedStay};
ghost use Rattle.interleave_core.specs.Views.{AreSteady, IsPlaced, Leaves, Tries, change_by};

use crate::control::controller_of;
use crate::events::{Event, NotPossible, Shown};
use crate::fresh::{fresh_cells, fresh_sets, make_tasks};
use crate::hands::{breakpoint_of, due_after_fetch, due_after_mark, exchange, shown_of, with_due};
use crate::running::Running;
use crate::stage::{Due, Hand};
use brk_table::Tables;
use cov_base::{Bits, NoMemory, PlaceNo, SessNo, TaskNo};
use module_area::{Cell, Plan};
use phase_plan::plan_of;
use s370_state::{Cpu, Ending};
use session_book::{FactSets, Job, Results};
use std::alloc::Global;
use std::marker::Model;

/// The phase of a job that has one: a cell for each place, a set for each session and place, and for each task its
/// state, where it stands and the cell in hand. It keeps no logs.
#[derive(Drop)]
pub struct Core<'a> {
    job: &'a Job,
    tables: &'a Tables,
    plan: Plan,
    cells: Vec<Cell>,
    sets: Vec<Bits>,
    tasks: Vec<Running<'a>>,
}

impl<'a> Model for Core<'a> {
    ghost use Rattle.interleave_core.specs.World.{world_of};
    ghost use Rattle.interleave_core.specs.Views.{CoreView, IsCore, parts_of};

    ghost Value = { CoreView };

    ghost view = { λ c. record { world = world_of c.job.now c.tables.now; parts = record { cells = c.cells.items; sets = c.sets.items; tasks = parts_of c.tasks.items } } };

    ghost invariant = { λ c. IsCore (world_of c.job.now c.tables.now) c.cells.items c.sets.items c.plan c.tasks.items };
}

impl<'a> Core<'a> {
    fn fetch(&mut self, t: TaskNo) -> Result<Shown, NotPossible>
        ensures { Tries self.old (parts_step self.old.world self.old.parts (event.Fetch t)) self.new result }
    {
        let n = t.0 as usize;
        if n >= self.tasks.len() {
            return Err(NotPossible);
        }
        let task = &self.tasks[n];
        let Some(place) = task.place_due(self.tables) else {
            return Err(NotPossible);
        };
        let subject = task.is_awaiting();
        let cell = self.cells[place.0 as usize];
        let due = due_after_fetch(self.tables, subject, place, cell);
        let hand = Hand {
            subject,
            place,
            cell,
            due,
        };
        self.tasks[n].hold(hand);
        Ok(Shown::Fetched(cell))
    }

    fn mark(&mut self, t: TaskNo) -> Result<Shown, NotPossible>
        ensures { Tries self.old (parts_step self.old.world self.old.parts (event.Mark t)) self.new result }
    {
        let n = t.0 as usize;
        if n >= self.tasks.len() {
            return Err(NotPossible);
        }
        let task = &self.tasks[n];
        let Some(hand) = task.in_hand(Due::Marking) else {
            return Err(NotPossible);
        };
        let kind = self.tables.place(hand.place).kind;
        let went = task.went(hand.subject);
        let at = (hand.cell.tag / 2) as usize * self.cells.len() + hand.place.0 as usize;
        let found = self.sets[at];
        let facts = found.with(kind.fact(went));
        self.sets[at] = facts;
        self.tasks[n].hold(with_due(hand, due_after_mark(kind, facts)));
        Ok(Shown::Marked(found))
    }

    fn lift(&mut self, t: TaskNo) -> Result<Shown, NotPossible>
        ensures { Tries self.old (parts_step self.old.world self.old.parts (event.Lift t)) self.new result }
    {
        let n = t.0 as usize;
        if n >= self.tasks.len() {
            return Err(NotPossible);
        }
        let Some(hand) = self.tasks[n].in_hand(Due::Lifting) else {
            return Err(NotPossible);
        };
        let original = Cell {
            tag: hand.cell.tag,
            half: self.tables.place(hand.place).original,
        };
        let taken = exchange(&mut self.cells, hand.place.0 as usize, hand.cell, original);
        self.tasks[n].hold(with_due(hand, Due::Nothing));
        Ok(Shown::Lifted(taken))
    }

    fn run(&mut self, t: TaskNo) -> Result<Shown, NotPossible>
        ensures { Tries self.old (parts_step self.old.world self.old.parts (event.Do t)) self.new result }
    {
        let n = t.0 as usize;
        if n >= self.tasks.len() {
            return Err(NotPossible);
        }
        let Ok(()) = self.tasks[n].run(t, &self.plan, self.tables) else {
            return Err(NotPossible);
        };
        Ok(Shown::Done)
    }

    fn plant_whole(&mut self, s: SessNo, p: PlaceNo) -> Result<Shown, NotPossible>
        ensures { Tries self.old (whole_step self.old.world self.old.parts s.0 p.0) self.new result }
    {
        let n = p.0 as usize;
        if n >= self.cells.len() {
            return Err(NotPossible);
        }
        if s.0 == 0 || self.plan.window(p) != s.0 {
            return Err(NotPossible);
        }
        if self.cells[n].tag != 0 {
            return Err(NotPossible);
        }
        self.cells[n] = breakpoint_of(s);
        Ok(Shown::Planted)
    }

    /// Whether the session may be closed there, or else planted under its tag, which rises.
    fn may_follow(&self, closes: bool, s: SessNo, p: PlaceNo) -> bool
        requires { p.0 < length self.now.world.places }
        ensures { result ≡ (closes || nat_lt ((word_at self.now.parts.cells p.0).tag + 1) (2 * s.0)) }
    {
        closes || u64::from(self.cells[p.0 as usize].tag) + 1 < 2 * u64::from(s.0)
    }

    /// Whether this is the place at which task t is to plant or close this session.
    fn may_change(&self, closes: bool, s: SessNo, p: PlaceNo, t: TaskNo) -> bool
        ensures value { result ≡ is_some (change_by self.now closes s.0 p.0 t.0) }
        ensures placed { IsTrue result → IsPlaced self.now.world self.now.parts t.0 s.0 p.0 }
    {
        let n = t.0 as usize;
        if n >= self.tasks.len() {
            return false;
        }
        let Some(x) = self.tasks[n].change_due(t, &self.plan, self.tables) else {
            return false;
        };
        if x.closes != closes || x.session.0 != s.0 || x.place.0 != p.0 {
            return false;
        }
        self.may_follow(closes, s, p)
    }

    /// What the session leaves there as it is planted or closed.
    fn changed_cell(&self, closes: bool, s: SessNo, p: PlaceNo) -> Cell
        requires some { 0 < s.0 }
        requires few { s.0 ≤ SESSION_LIMIT }
        requires place { p.0 < length self.now.world.places }
        ensures { result ≡ changed_cell self.now.world (record { closes = closes; session = s.0; place = p }) }
    {
        if closes {
            Cell {
                tag: 2 * s.0,
                half: self.plan.original(p),
            }
        } else {
            breakpoint_of(s)
        }
    }

    /// Plants or closes the session there, where that is due of task t.
    fn change_by(
        &mut self,
        closes: bool,
        s: SessNo,
        p: PlaceNo,
        t: TaskNo,
    ) -> Result<Shown, NotPossible>
        requires { controller_of self.old.world s.0 ≡ Some t.0 }
        ensures { Tries self.old (change_by self.old closes s.0 p.0 t.0) self.new result }
    {
        if !self.may_change(closes, s, p, t) {
            return Err(NotPossible);
        }
        self.cells[p.0 as usize] = self.changed_cell(closes, s, p);
        self.tasks[t.0 as usize].changed();
        Ok(shown_of(closes))
    }

    fn plant(&mut self, s: SessNo, p: PlaceNo) -> Result<Shown, NotPossible>
        ensures { Tries self.old (parts_step self.old.world self.old.parts (event.Plant s p)) self.new result }
    {
        match controller_of(&self.plan.controlled, s) {
            Some(t) => self.change_by(false, s, p, t),
            None => self.plant_whole(s, p),
        }
    }

    fn close(&mut self, s: SessNo, p: PlaceNo) -> Result<Shown, NotPossible>
        ensures { Tries self.old (parts_step self.old.world self.old.parts (event.Close s p)) self.new result }
    {
        match controller_of(&self.plan.controlled, s) {
            Some(t) => self.change_by(true, s, p, t),
            None => Err(NotPossible),
        }
    }

    fn step(&mut self, e: Event) -> Result<Shown, NotPossible>
        ensures { Tries self.old (parts_step self.old.world self.old.parts e) self.new result }
    {
        match e {
            Event::Fetch(t) => self.fetch(t),
            Event::Mark(t) => self.mark(t),
            Event::Lift(t) => self.lift(t),
            Event::Do(t) => self.run(t),
            Event::Plant(s, p) => self.plant(s, p),
            Event::Close(s, p) => self.close(s, p),
        }
    }

    fn fits(&self)
        ensures fits { Fits self.now.world self.now.parts }
        ensures world { IsWorld self.now.world }
        ensures steady { AreSteady self.now.world self.now.parts }
    {
        // the proof reads it off the core's invariant
        let _ = &self.cells;
    }

    /// Makes the event. It isn't possible exactly where the core's step has no case for it, and leaves the core as it
    /// was then.
    pub fn apply(&mut self, e: Event) -> Result<Shown, NotPossible>
        ensures possible { IfOk result (Leaves (parts_step self.old.world self.old.parts e) self.new.parts) }
        ensures refused { OnErr result (parts_step self.old.world self.old.parts e ≡ None) }
        ensures kept { OnErr result (self.new ≡ self.old) }
        ensures world { self.new.world ≡ self.old.world }
        ensures fits { Fits self.new.world self.new.parts }

        // after each list of events that leaves what the core stored
        ensures follows { IfOk result (FollowsAll self.old.world self.old.parts e self.new.parts) }
        ensures never { OnErr result (FollowsNone self.old.world self.old.parts e) }

        // possible or not, it leaves a quiet session quiet and its sets as they were, and so those of a drained one
        ensures quiet { StayQuiet self.old.world self.old.parts self.new.parts }
        ensures drained { DrainedStay self.old.world self.old.parts self.new.parts }
    {
        self.fits();
        let answer = self.step(e);
        self.fits();
        answer
    }

    /// The one event that is possible of the task; none exactly where it doesn't exist or has ended.
    pub fn next(&self, t: TaskNo) -> Option<Event>
        ensures value { result ≡ next_of self.now.world self.now.parts t }
        ensures possible { IfSome result (IsDue self.now.world self.now.parts t.0) }
        ensures only { (e : Event) → IsDue self.now.world self.now.parts t.0 e → result ≡ Some e }
        ensures none { IsNone result ↔ (t.0 < length self.now.world.job.tasks → IsOver self.now.parts t.0) }
    {
        let n = t.0 as usize;
        if n >= self.tasks.len() {
            return None;
        }
        self.tasks[n].next(t, &self.plan, self.tables)
    }

    /// Makes the task's events until none is possible.
    fn go_on(&mut self, t: TaskNo)
        ensures world { self.new.world ≡ self.old.world }
        ensures fits { Fits self.new.world self.new.parts }
        ensures run { run_on self.old.world self.old.parts (all_events self.old.world self.old.parts t) ≡ Some self.new.parts }
        ensures ended { t.0 < length self.old.world.job.tasks → IsOver self.new.parts t.0 }
    {
        self.fits();
        while let Some(event) = self.next(t) {
            let Ok(_) = self.apply(event) else {
                unreachable!()
            };
        }
        self.fits();
    }

    /// Makes the task's events, one by one as each is possible, until it has ended. That isn't possible exactly where the
    /// task doesn't exist or has ended, and leaves the core as it was then.
    pub fn go(&mut self, t: TaskNo) -> Result<(), NotPossible>
        ensures gone { IfOk result (λ _. HasGone self.old.world self.old.parts self.new.parts t) }
        ensures refused { OnErr result (next_of self.old.world self.old.parts t ≡ None) }
        ensures kept { OnErr result (self.new ≡ self.old) }
        ensures world { self.new.world ≡ self.old.world }
        ensures fits { Fits self.new.world self.new.parts }
    {
        self.fits();
        if self.next(t).is_none() {
            return Err(NotPossible);
        }
        self.go_on(t);
        Ok(())
    }

    /// How the task of the job has ended; none exactly where it hasn't.
    pub fn ending(&self, t: TaskNo) -> Option<Ending>
        requires { t.0 < length self.now.world.job.tasks }
        ensures { result ≡ (results_of self.now.parts t.0).ending }
    {
        self.tasks[t.0 as usize].ending()
    }

    /// The set of the session of the job at the place of its tables.
    pub fn set(&self, s: SessNo, p: PlaceNo) -> Bits
        requires some { 0 < s.0 }
        requires session { s.0 ≤ length self.now.world.job.sessions }
        requires place { p.0 < length self.now.world.places }
        ensures { result ≡ set_of self.now.world self.now.parts s.0 p.0 }
    {
        let at = (s.0 as usize - 1) * self.cells.len() + p.0 as usize;
        self.sets[at]
    }
}

/// The core of a job of exactly one phase before any event: nothing is planted, no set has a fact, and each task is as
/// its card says. Takes all the memory that the core will ever need.
pub fn start<'a>(alloc: Global, job: &'a Job, tables: &'a Tables) -> Result<Core<'a>, NoMemory>
    requires phase { length job.now.phases ≡ 1 }
    requires tables { All (IsIn job.now.images) tables.now.places }
    ensures world { IfOk result (λ c. c.world ≡ world_of job.now tables.now) }
    ensures parts { IfOk result (λ c. c.parts ≡ first_parts (world_of job.now tables.now)) }
    ensures fits { IfOk result (λ c. Fits c.world c.parts) }
    ensures is_world { IfOk result (λ c. IsWorld c.world) }
    ensures stands { IfOk result (λ c. Stands c.world [] c.parts) }
    ensures rule { IfOk result (λ c. KeepsRule c.world [] (core_start c.world)) }
{
    let plan = plan_of(alloc, job, tables, 0)?;
    // the proof reads the rules that the job, a plan and its places keep off these looks at them
    let _ = job.task_count();
    let _ = &plan.windows;
    let _ = tables.len();
    let cells = fresh_cells(alloc, &plan.places)?;
    let sets = fresh_sets(alloc, plan.sessions as usize * plan.places.len())?;
    let tasks = make_tasks(alloc, job, tables)?;
    let core = Core {
        job,
        tables,
        plan,
        cells,
        sets,
        tasks,
    };
    core.fits();
    Ok(core)
}

impl<'a> FactSets for Core<'a> {
    ghost use Rattle.std.specs.Prelude.{length};
    ghost use Rattle.interleave_core.specs.Meaning.{set_of};

    ghost sessions = { λ c. length c.world.job.sessions };

    ghost places = { λ c. length c.world.places };

    ghost set_of = { λ c s p. set_of c.world c.parts s p };

    fn set(&self, s: SessNo, p: PlaceNo) -> Bits {
        Core::set(self, s, p)
    }
}

impl<'a> Results for Core<'a> {
    ghost use Rattle.std.specs.Prelude.{length};
    ghost use Rattle.interleave_core.specs.Meaning.{results_of};

    ghost tasks = { λ c. length c.world.job.tasks };

    ghost result_of = { λ c t. results_of c.parts t };

    fn ending(&self, t: TaskNo) -> Option<Ending> {
        self.tasks[t.0 as usize].ending()
    }

    fn done(&self, t: TaskNo) -> u32 {
        self.tasks[t.0 as usize].done
    }

    fn cpu(&self, t: TaskNo) -> &Cpu {
        &self.tasks[t.0 as usize].cpu
    }

    fn output(&self, t: TaskNo) -> &[u8] {
        self.tasks[t.0 as usize].io.output()
    }

    fn row(&self, t: TaskNo, n: u32) -> &[u8] {
        let space = &self.tasks[t.0 as usize].space;
        space.row(n)
    }
}
