//! The plan of a phase.
ghost use Rattle.std.specs.Prelude.{◌≡◌, ◌<◌, ◌≤◌, nat_eq, length, map, IfOk};
ghost use Rattle.std.specs.List.{list_any};
ghost use Rattle.cov_base.specs.declared.limits.TheConstants.{PLACE_LIMIT, SESSION_LIMIT, TASK_LIMIT};
ghost use Rattle.brk_table.specs.Places.{ArePlaces};
ghost use Rattle.session_book.specs.Meaning.{is_whole, observes};
ghost use Rattle.phase_plan.specs.Meaning.{window_from, window_of, tasks_from, places_from, controlled_from, plan_view};

use brk_table::Tables;
use cov_base::{NoMemory, PlaceNo, SessNo, TaskNo};
use module_area::{Controlled, Place, Plan};
use session_book::{Job, Session, TaskCard};
use std::alloc::Global;

/// Whether the module is among these, which are those that a session names.
pub fn has_module(modules: &[u32], m: u32) -> bool
    ensures { result ≡ list_any (nat_eq m) modules.now }
{
    modules.iter().any(|n| m == *n)
}

fn observes(session: &Session, phase: u32, m: u32) -> bool
    ensures { result ≡ observes phase m session.now }
{
    session.phase == phase && has_module(&session.modules, m)
}

fn is_whole(session: &Session) -> bool
    ensures { result ≡ is_whole session.now }
{
    session.by.is_none()
}

/// The number of the whole session that observes the module in the phase, or 0.
fn window_of(sessions: &[Session], phase: u32, m: u32) -> u32
    requires { length sessions.now ≤ SESSION_LIMIT }
    ensures { result ≡ window_from 1 sessions.now phase m }
{
    for i in 0..sessions.len() {
        if is_whole(&sessions[i]) && observes(&sessions[i], phase, m) {
            return i as u32 + 1;
        }
    }
    0
}

fn places_of(alloc: Global, tables: &Tables) -> Result<Vec<Place>, NoMemory>
    ensures value { IfOk result (λ v. v.items ≡ tables.now.places) }
    ensures places { IfOk result (λ v. ArePlaces v.items) }
{
    let mut places = Vec::new(alloc);
    let count = tables.len();
    for n in 0..count {
        places.push(*tables.place(PlaceNo(n)))?;
    }
    Ok(places)
}

fn windows_of(alloc: Global, job: &Job, places: &[Place], phase: u32) -> Result<Vec<u32>, NoMemory>
    ensures { IfOk result (λ v. v.items ≡ map (window_of job.now phase) places.now) }
{
    let mut windows = Vec::new(alloc);
    for place in places {
        windows.push(window_of(&job.sessions, phase, place.module))?;
    }
    Ok(windows)
}

fn is_of(task: &TaskCard, phase: u32) -> bool
    ensures { result ≡ nat_eq task.now.phase phase }
{
    task.phase == phase
}

fn tasks_of(alloc: Global, tasks: &[TaskCard], phase: u32) -> Result<Vec<TaskNo>, NoMemory>
    requires { length tasks.now ≤ TASK_LIMIT }
    ensures { IfOk result (λ v. v.items ≡ tasks_from 0 tasks.now phase) }
{
    let mut numbers = Vec::new(alloc);
    for i in 0..tasks.len() {
        if is_of(&tasks[i], phase) {
            numbers.push(TaskNo(i as u32))?;
        }
    }
    Ok(numbers)
}

/// The numbers of the places of these modules.
fn numbers_of(alloc: Global, places: &[Place], modules: &[u32]) -> Result<Vec<PlaceNo>, NoMemory>
    requires { length places.now ≤ PLACE_LIMIT }
    ensures { IfOk result (λ v. v.items ≡ places_from 0 places.now modules.now) }
{
    let mut numbers = Vec::new(alloc);
    for i in 0..places.len() {
        if has_module(modules, places[i].module) {
            numbers.push(PlaceNo(i as u32))?;
        }
    }
    Ok(numbers)
}

/// The controlled sessions of the phase, with their places.
fn controlled_of(
    alloc: Global,
    sessions: &[Session],
    places: &[Place],
    phase: u32,
) -> Result<Vec<Controlled>, NoMemory>
    requires sessions { length sessions.now ≤ SESSION_LIMIT }
    requires places { length places.now ≤ PLACE_LIMIT }
    ensures { IfOk result (λ v. v.items ≡ controlled_from 1 sessions.now places.now phase) }
{
    let mut controlled = Vec::new(alloc);
    for i in 0..sessions.len() {
        let session = &sessions[i];
        if session.phase == phase {
            if let Some(t) = session.by {
                let places = numbers_of(alloc, places, &session.modules)?;
                controlled.push(Controlled {
                    session: SessNo(i as u32 + 1),
                    by: TaskNo(t),
                    places,
                })?;
            }
        }
    }
    Ok(controlled)
}

/// The plan of a phase of the job, which numbers from 0, over the tables of the job's listings: every place, the number of the
/// whole session that observes it in this phase, or 0, the phase's controlled sessions with their places, its tasks, and how many
/// sessions the whole job has.
pub fn plan_of(alloc: Global, job: &Job, tables: &Tables, phase: u32) -> Result<Plan, NoMemory>
    requires phase { phase < length job.now.phases }
    ensures { IfOk result (λ plan. plan ≡ plan_view job.now tables.now.places phase) }
{
    let places = places_of(alloc, tables)?;
    let windows = windows_of(alloc, job, &places, phase)?;
    let tasks = tasks_of(alloc, &job.tasks, phase)?;
    let controlled = controlled_of(alloc, &job.sessions, &places, phase)?;
    Ok(Plan {
        places,
        windows,
        controlled,
        tasks,
        sessions: job.sessions.len() as u32,
    })
}
