//! A controller's run, in which the sets of the sessions that it has closed are taken as soon as they are final.
ghost use Rattle.std.specs.Prelude.{◌≡◌, ◌+◌, ◌*◌, ◌<◌, ◌^◌, true, false, All, IfOk};
ghost use Rattle.std.specs.List.{list_any};
ghost use Rattle.module_area.specs.Notes.{is_working, own_number};
ghost use Rattle.module_area.specs.Rule.{IsPlan};
ghost use Rattle.task_run.specs.First.{CanBegin};
ghost use Rattle.task_run.specs.Meaning.{solo, is_opened};
ghost use Rattle.task_run.specs.Ran.{RanOver};
ghost use Rattle.early_report.specs.DrainView.{DrainView};
ghost use Rattle.early_report.specs.Drains.{IsDrainOf, IsLooking};
ghost use Rattle.early_report.specs.Followed.{IsReady, IsAsked, Went, HaveGone, first_drains, is_begun, closed_since};
ghost use Rattle.early_report.specs.Following.{following};
ghost use Rattle.early_report.specs.Start.{IsAtStart};
ghost use Rattle.early_report.specs.Told.{HasTold, HasToldSettled, AllStand, sessions_in};
ghost use Rattle.early_report.specs.declared.drains.Stage.TheVariants.{Begun};

use crate::drains::{Drain, Poll, Stage, drain_begin, drain_poll, drain_take, room};
use brk_table::Tables;
use cov_base::{NoMemory, SessNo, TaskNo};
use module_area::{Control, Drains, Plan};
use s370_state::{Ending, Next};
use std::alloc::Global;
use std::mem;
use task_run::{Bench, Hook, Planted, Runner, Task, Watch, run};

/// Polls a begun drain; where it is drained then, takes its sets at this count. Says whether it waits for a task.
fn ask<C: Drains>(cells: &C, pass: &mut C::Pass, plan: &Plan, drain: &mut Drain, done: u32) -> bool
    requires area { C.is_pass cells.now pass.old }
    requires plan { C.plan cells.now ≡ plan.now }
    requires begun { drain.old.stage ≡ Begun }
    requires tied { IsDrainOf plan.now (C.notes pass.old) drain.old }
    requires count { drain.old.polls < 4294967295 }
    ensures area { C.is_pass cells.now pass.new }
    ensures looking { IsLooking (C.notes pass.old) (C.notes pass.new) }
    ensures asked { IsAsked plan.now (C.notes pass.new) drain.old.session drain.old.polls done drain.new }
    ensures waits { result ≡ is_begun drain.new.stage }
{
    if let Poll::Pending { .. } = drain_poll(cells, pass, drain) {
        return true;
    }
    drain_take(cells, pass, plan, drain);
    drain.at = done;
    false
}

/// The session that is open.
fn open_session(control: &Control) -> Option<SessNo>
    ensures { result ≡ control.now.opened }
{
    control.opened
}

/// The session that was open before an instruction and isn't behind it.
fn closed_since(before: Option<SessNo>, after: Option<SessNo>) -> Option<SessNo>
    ensures { result ≡ closed_since before after }
{
    match after {
        None => before,
        Some(_) => None,
    }
}

/// Whether the session is that one.
fn is_session(s: SessNo, closed: Option<SessNo>) -> bool
    ensures { result ≡ is_opened s.0 closed }
{
    match closed {
        None => false,
        Some(t) => t.0 == s.0,
    }
}

/// Has a drain follow an instruction that has closed this session, or none: where it is the drain's, the drain is begun, and a
/// begun drain is polled. Says whether it then waits for a task.
fn follow<C: Drains>(
    cells: &C,
    pass: &mut C::Pass,
    plan: &Plan,
    drain: &mut Drain,
    closed: Option<SessNo>,
    done: u32,
) -> bool
    requires area { C.is_pass cells.now pass.old }
    requires plan { C.plan cells.now ≡ plan.now }
    requires ready { IsReady plan.now (C.notes pass.old) closed drain.old }
    ensures area { C.is_pass cells.now pass.new }
    ensures looking { IsLooking (C.notes pass.old) (C.notes pass.new) }
    ensures went { Went plan.now (C.notes pass.new) closed done drain.old drain.new }
    ensures waits { result ≡ is_begun drain.new.stage }
{
    match drain.stage {
        Stage::Unused => {
            if !is_session(drain.session, closed) {
                return false;
            }
            drain_begin(cells, pass, plan, drain);
            ask(cells, pass, plan, drain, done)
        }
        Stage::Begun => ask(cells, pass, plan, drain, done),
        _ => false,
    }
}

/// Has all drains follow the instruction. Says whether one then waits for a task.
fn follow_all<C: Drains>(
    cells: &C,
    pass: &mut C::Pass,
    plan: &Plan,
    drains: &mut Vec<Drain>,
    closed: Option<SessNo>,
    done: u32,
) -> bool
    requires area { C.is_pass cells.now pass.old }
    requires plan { C.plan cells.now ≡ plan.now }
    requires ready { All (IsReady plan.now (C.notes pass.old) closed) drains.old.items }
    ensures area { C.is_pass cells.now pass.new }
    ensures looking { IsLooking (C.notes pass.old) (C.notes pass.new) }
    ensures gone { HaveGone plan.now (C.notes pass.new) closed done drains.old.items drains.new.items }
    ensures waits { result ≡ list_any (λ (d : DrainView). is_begun d.stage) drains.new.items }
{
    let mut waits = false;
    for i in 0..drains.len() {
        if follow(cells, pass, plan, &mut drains[i], closed, done) {
            waits = true;
        }
    }
    waits
}

/// Has the drains follow the instruction, where one of them waits or a session was closed; else none has to.
fn follow_some<C: Drains>(
    cells: &C,
    pass: &mut C::Pass,
    plan: &Plan,
    drains: &mut Vec<Drain>,
    waits: bool,
    closed: Option<SessNo>,
    done: u32,
) -> bool
    requires area { C.is_pass cells.now pass.old }
    requires plan { C.plan cells.now ≡ plan.now }
    requires ready { All (IsReady plan.now (C.notes pass.old) closed) drains.old.items }
    requires waits { waits ≡ list_any (λ (d : DrainView). is_begun d.stage) drains.old.items }
    ensures area { C.is_pass cells.now pass.new }
    ensures looking { IsLooking (C.notes pass.old) (C.notes pass.new) }
    ensures gone { HaveGone plan.now (C.notes pass.new) closed done drains.old.items drains.new.items }
    ensures waits { result ≡ list_any (λ (d : DrainView). is_begun d.stage) drains.new.items }
{
    if waits || closed.is_some() {
        follow_all(cells, pass, plan, drains, closed, done)
    } else {
        false
    }
}

/// Makes a boundary behind each instruction, and has the drains of the task's sessions follow it. Knows whether one of them
/// waits for a task, and the session that was open behind the last instruction.
#[derive(Drop)]
struct Following {
    drains: Vec<Drain>,
    waits: bool,
    opened: Option<SessNo>,
}

impl<'a, C: Drains> Hook<Planted<'a, C>> for Following {
    ghost way = { following (λ o. o.plan.now) C.notes };

    fn behind(
        &mut self,
        observer: &Planted<'a, C>,
        pass: &mut C::Pass,
        tables: &Tables,
        bench: &mut Bench<'_>,
        done: u32,
        next: Next,
    ) -> Next {
        observer.cells.boundary(pass, false);
        let opened = open_session(&bench.control);
        let closed = closed_since(self.opened, opened);
        self.waits = follow_some(
            observer.cells,
            pass,
            observer.plan,
            &mut self.drains,
            self.waits,
            closed,
            done,
        );
        self.opened = opened;
        next
    }
}

/// Runs the task until it ends, as `run_task` does, with a boundary behind each instruction, by which its number comes to twice
/// their count, and with its drains, which are unused before.
fn run_steps<C: Drains>(
    cells: &C,
    pass: &mut C::Pass,
    tables: &Tables,
    plan: &Plan,
    drains: &mut Vec<Drain>,
    task: &mut Task<'_>,
) -> Ending
    requires can { CanBegin C.Cells cells.now pass.old plan.now tables.now task.old }
    requires start { IsAtStart plan.now (C.notes pass.old) drains.old.items }
    ensures area { C.is_pass cells.now pass.new }
    ensures is_plan { IsPlan plan.now }
    ensures ran { RanOver C.Cells solo cells.now pass.old pass.new task.old task.new result }
    ensures working { is_working (C.notes pass.new) ≡ true }
    ensures number { own_number (C.notes pass.new) < 2 ^ 62 }
    ensures boundaries { own_number (C.notes pass.new) ≡ 2 * task.new.done }
    ensures sessions { sessions_in drains.new.items ≡ sessions_in drains.old.items }
    ensures stand { AllStand plan.now (C.notes pass.new) task.old task.new drains.new.items }
{
    // Read for what every plan keeps.
    let _ = plan.places_len();
    let marks = Planted { cells, plan };
    let none = Vec::new(*drains.allocator());
    let mut hook = Following {
        drains: mem::replace(drains, none),
        waits: false,
        opened: open_session(&task.bench.control),
    };
    let watch = Watch {
        observer: &marks,
        tables,
    };
    let end = run(&watch, pass, &mut hook, &mut task.bench, task.budget);
    *drains = hook.drains;
    task.done = end.done;
    end.ending
}

/// Runs the task until it ends, as `run_task` does, with its drains; then a last boundary tells that the task has ended.
fn run_early<C: Drains>(
    cells: &C,
    pass: &mut C::Pass,
    tables: &Tables,
    plan: &Plan,
    drains: &mut Vec<Drain>,
    task: &mut Task<'_>,
) -> Ending
    requires can { CanBegin C.Cells cells.now pass.old plan.now tables.now task.old }
    requires start { IsAtStart plan.now (C.notes pass.old) drains.old.items }
    ensures area { C.is_pass cells.now pass.new }
    ensures ran { RanOver C.Cells solo cells.now pass.old pass.new task.old task.new result }
    ensures told { HasToldSettled (C.plan cells.now) (C.notes pass.new) plan.now task.old task.new drains.new.items }
    ensures ended { is_working (C.notes pass.new) ≡ false }
    ensures boundaries { own_number (C.notes pass.new) ≡ 2 * task.new.done + 1 }
{
    let ending = run_steps(cells, pass, tables, plan, drains, task);
    cells.boundary(pass, true);
    ending
}

/// The drains of the sessions that the task controls, in order, all unused.
fn make_drains(alloc: Global, plan: &Plan, task: TaskNo) -> Result<Vec<Drain>, NoMemory>
    ensures { IfOk result (λ v. v.items ≡ first_drains plan.now task.0) }
{
    let mut drains = Vec::new(alloc);
    for c in &plan.controlled {
        if c.by.0 == task.0 {
            drains.push(room(alloc, plan, c.session)?)?;
        }
    }
    Ok(drains)
}

/// Runs each task as it runs alone, and a controller's so that the sets of its sessions are taken while other tasks still
/// run: behind an SVC 5 that closes a session its drain is begun, polled at once and behind each further instruction of the
/// task, and where it is drained its sets are taken, at the task's count.
#[derive(Drop)]
pub struct EarlyRunner;

impl<C: Drains> Runner<C> for EarlyRunner {
    /// A drain for each session that the task controls, in order.
    type Extra = Vec<Drain>;

    ghost course = { λ r. solo };

    ghost begins = { λ plan t extra notes. (extra.items ≡ first_drains plan t) × (own_number notes ≡ 0) };

    ghost ends = { λ plan old new extra sets. HasTold plan old new extra.items sets };

    fn extra(&self, alloc: Global, plan: &Plan, task: TaskNo) -> Result<Vec<Drain>, NoMemory> {
        make_drains(alloc, plan, task)
    }

    fn run(
        &self,
        cells: &C,
        pass: &mut C::Pass,
        tables: &Tables,
        plan: &Plan,
        extra: &mut Vec<Drain>,
        task: &mut Task<'_>,
    ) -> Ending {
        run_early(cells, pass, tables, plan, extra, task)
    }
}
