//! Drains: by them a controller learns that a session that it has closed gets no fact any more.
ghost use Rattle.std.specs.Prelude.{◌≡◌, ℕ, ◌<◌, ◌≤◌, length, true, All, map, IfOk, drop};
ghost use Rattle.cov_base.specs.declared.numbers.TaskNo.{TaskNo as TaskNumber};
ghost use Rattle.module_area.specs.Notes.{is_final};
ghost use Rattle.module_area.specs.Rule.{has_task};
ghost use Rattle.early_report.specs.DrainView.{DrainView};
ghost use Rattle.early_report.specs.Meaning.{others};
ghost use Rattle.early_report.specs.Drains.{unused, has_controlled, controller_of, HasClosed, IsDrainOf, tasks_in, Begins, BeginsOthers, Polls, PollsDrain, from_entry, entry_of, polled, Reads, ReadsAll, AreKnown, AreFinal};
ghost use Rattle.early_report.specs.declared.drains.Stage.TheVariants.{Unused, Begun, Drained, Taken};

use cov_base::{Bits, NoMemory, PlaceNo, SessNo, TaskNo};
use module_area::{Drains, Plan};
use std::alloc::{AllocError, Global};
use std::marker::Model;

/// How far a drain has come.
#[derive(Clone, Copy)]
pub enum Stage {
    /// Its session isn't closed yet, or never will be.
    Unused,
    /// The other tasks' numbers were noted, and some task may still have its old one.
    Begun,
    /// Each other task has gone on, or had ended.
    Drained,
    /// The session's sets were read, and are final.
    Taken,
}

/// What a poll has found: a task that still has the number that was noted of it, or none.
#[derive(Clone, Copy)]
pub enum Poll {
    Pending { task: TaskNo, number: u64 },
    Drained,
}

/// The drain of a controlled session: the other tasks of the phase, in the plan's order, each with its noted number; the
/// entry that the last poll has stopped at; how many polls have answered Pending; the count that its user puts there; and a
/// set for each place of the session, in order of number.
#[derive(Drop)]
pub struct Drain {
    pub session: SessNo,
    pub stage: Stage,
    pub noted: Vec<(TaskNo, u64)>,
    pub last: Option<(TaskNo, u64)>,
    pub polls: u32,
    pub at: u32,
    pub sets: Vec<Bits>,
}

impl Model for Drain {
    ghost use Rattle.early_report.specs.DrainView.{DrainView};

    ghost Value = { DrainView };

    ghost view = { λ d. record { session = d.session.0; stage = d.stage; noted = d.noted.items; last = d.last; polls = d.polls; at = d.at; sets = d.sets.items } };
}

/// The task that controls the session.
fn controller(plan: &Plan, s: SessNo) -> TaskNo
    ensures { result.0 ≡ controller_of plan.now s.0 }
{
    for c in &plan.controlled {
        if c.session.0 == s.0 {
            return c.by;
        }
    }
    TaskNo(0)
}

/// The tasks but this one, each with the number 0.
fn entries(alloc: Global, tasks: &[TaskNo], by: TaskNo) -> Result<Vec<(TaskNo, u64)>, AllocError>
    ensures { IfOk result (λ v. v.items ≡ map (λ u. (u, 0)) (others tasks.now by.0)) }
{
    let mut entries = Vec::new(alloc);
    for task in tasks {
        if task.0 != by.0 {
            entries.push((*task, 0))?;
        }
    }
    Ok(entries)
}

/// The unused drain of a controlled session of the plan.
pub fn room(alloc: Global, plan: &Plan, s: SessNo) -> Result<Drain, NoMemory>
    requires { has_controlled plan.now s.0 ≡ true }
    ensures { IfOk result (λ d. d ≡ unused plan.now s.0) }
{
    let noted = entries(alloc, &plan.tasks, controller(plan, s))?;
    let sets = vec![in alloc; Bits::empty(); plan.places_under(s).len()]?;
    Ok(Drain {
        session: s,
        stage: Stage::Unused,
        noted,
        last: None,
        polls: 0,
        at: 0,
        sets,
    })
}

/// Notes the number of each entry's task.
fn note_all<C: Drains>(cells: &C, pass: &mut C::Pass, entries: &mut [(TaskNo, u64)])
    requires area { C.is_pass cells.now pass.old }
    requires tasks { All (λ (e : TaskNumber × ℕ). has_task (C.plan cells.now).tasks e.0.0 ≡ true) entries.old }
    ensures area { C.is_pass cells.now pass.new }
    ensures begins { Begins (C.notes pass.old) (C.notes pass.new) (tasks_in entries.old) entries.new }
{
    for i in 0..entries.len() {
        let task = entries[i].0;
        let number = cells.note(pass, task);
        entries[i] = (task, number);
    }
}

/// Begins the drain of a session that the pass's own task controls and has closed at all its places: notes every other task
/// of the phase. The drain is unused, and the pass has no breakpoint of the session in hand, as behind its next boundary.
pub fn drain_begin<C: Drains>(cells: &C, pass: &mut C::Pass, plan: &Plan, drain: &mut Drain)
    requires area { C.is_pass cells.now pass.old }
    requires plan { C.plan cells.now ≡ plan.now }
    requires unused { drain.old ≡ unused plan.now drain.old.session }
    requires closed { HasClosed plan.now (C.notes pass.old) drain.old.session }
    ensures area { C.is_pass cells.now pass.new }
    ensures begins { BeginsOthers plan.now (C.notes pass.old) (C.notes pass.new) drain.new.noted }
    ensures drain { drain.new ≡ record drain.old { stage = Begun; noted = drain.new.noted } }
    ensures tied { IsDrainOf plan.now (C.notes pass.new) drain.new }
{
    // Read for what every plan keeps.
    let _ = plan.places_len();
    note_all(cells, pass, &mut drain.noted);
    drain.stage = Stage::Begun;
}

/// Where the list has the entry at which the last poll has stopped; its first entry where there was none.
fn start(entries: &[(TaskNo, u64)], last: Option<(TaskNo, u64)>) -> usize
    ensures within { result ≤ length entries.now }
    ensures from { drop result entries.now ≡ from_entry last entries.now }
{
    match last {
        None => 0,
        Some((task, _)) => {
            for i in 0..entries.len() {
                if entries[i].0.0 == task.0 {
                    return i;
                }
            }
            entries.len()
        }
    }
}

/// The first entry from that index on whose number is even and whose task still has it.
fn first_standing<C: Drains>(
    cells: &C,
    pass: &mut C::Pass,
    entries: &[(TaskNo, u64)],
    from: usize,
) -> Option<(TaskNo, u64)>
    requires area { C.is_pass cells.now pass.old }
    requires tasks { All (λ (e : TaskNumber × ℕ). has_task (C.plan cells.now).tasks e.0.0 ≡ true) entries.now }
    requires within { from ≤ length entries.now }
    ensures area { C.is_pass cells.now pass.new }
    ensures polls { Polls (C.notes pass.old) (C.notes pass.new) (drop from entries.now) result }
{
    for i in from..entries.len() {
        let (task, number) = entries[i];
        if number % 2 == 0 && cells.note(pass, task) == number {
            return Some((task, number));
        }
    }
    None
}

/// Asks whether every other task has gone on since its number was noted, or had ended: looks at the words of those that aren't
/// known so yet, up to the first that still has its noted number. Then it answers Pending, with that entry, from which the
/// next poll goes on, and counts; else the drain is drained. The drain is begun, and fewer than 4,294,967,295 polls have
/// answered Pending.
pub fn drain_poll<C: Drains>(cells: &C, pass: &mut C::Pass, drain: &mut Drain) -> Poll
    requires area { C.is_pass cells.now pass.old }
    requires begun { drain.old.stage ≡ Begun }
    requires tied { IsDrainOf (C.plan cells.now) (C.notes pass.old) drain.old }
    requires count { drain.old.polls < 4294967295 }
    ensures area { C.is_pass cells.now pass.new }
    ensures polls { PollsDrain drain.old (C.notes pass.old) (C.notes pass.new) (entry_of result) }
    ensures drain { drain.new ≡ polled drain.old (entry_of result) }
    ensures tied { IsDrainOf (C.plan cells.now) (C.notes pass.new) drain.new }
{
    let from = start(&drain.noted, drain.last);
    match first_standing(cells, pass, &drain.noted, from) {
        Some((task, number)) => {
            drain.last = Some((task, number));
            drain.polls += 1;
            Poll::Pending { task, number }
        }
        None => {
            drain.stage = Stage::Drained;
            Poll::Drained
        }
    }
}

/// Reads the session's set at each of the places, in order.
fn read_all<C: Drains>(
    cells: &C,
    pass: &mut C::Pass,
    s: SessNo,
    places: &[PlaceNo],
    sets: &mut [Bits],
)
    requires area { C.is_pass cells.now pass.old }
    requires session { 0 < s.0 }
    requires of_plan { s.0 ≤ (C.plan cells.now).sessions }
    requires places { All (λ p. p.0 < length (C.plan cells.now).places) places.now }
    requires finals { All (λ p. is_final (C.plan cells.now) (C.notes pass.old) s.0 p.0 ≡ true) places.now }
    requires size { length sets.old ≡ length places.now }
    ensures area { C.is_pass cells.now pass.new }
    ensures reads { Reads (C.plan cells.now) s.0 (C.notes pass.old) (C.notes pass.new) places.now sets.new }
    ensures known { AreKnown (C.notes pass.new) s.0 places.now sets.new }
{
    for (i, place) in places.iter().enumerate() {
        sets[i] = cells.read_set(pass, s, *place);
    }
}

/// Reads the sets of a drained drain's session, which are its final ones.
pub fn drain_take<C: Drains>(cells: &C, pass: &mut C::Pass, plan: &Plan, drain: &mut Drain)
    requires area { C.is_pass cells.now pass.old }
    requires plan { C.plan cells.now ≡ plan.now }
    requires drained { drain.old.stage ≡ Drained }
    requires tied { IsDrainOf plan.now (C.notes pass.old) drain.old }
    ensures area { C.is_pass cells.now pass.new }
    ensures reads { ReadsAll plan.now drain.old.session (C.notes pass.old) (C.notes pass.new) drain.new.sets }
    ensures known { AreFinal plan.now (C.notes pass.new) drain.old.session drain.new.sets }
    ensures drain { drain.new ≡ record drain.old { stage = Taken; sets = drain.new.sets } }
    ensures tied { IsDrainOf plan.now (C.notes pass.new) drain.new }
{
    let s = drain.session;
    read_all(cells, pass, s, plan.places_under(s), &mut drain.sets);
    drain.stage = Stage::Taken;
}
