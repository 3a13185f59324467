//! Plans that are tested at run time.
ghost use Rattle.std.specs.Prelude.{◌≡◌, ◌≢◌, ◌<◌, true, false, length, AllPairs, IfSome, IsNone, ◌↔◌};
ghost use Rattle.cov_base.specs.declared.numbers.TaskNo.{TaskNo};
ghost use Rattle.module_area.specs.Rule.{IsPlan};
ghost use Rattle.module_area.specs.PlanView.{MayStand, whole_plan};
ghost use Rattle.module_area.specs.Standing.{MayAllStand, IsNew};

use crate::places::Place;
use crate::plan::Plan;
use cov_base::{BREAKPOINT, PLACE_LIMIT, SESSION_LIMIT, TaskNo};
use s370_decode::kind;
use std::alloc::Global;

/// Whether the place may stand in a plan of so many sessions, under this window.
fn may_stand(place: &Place, window: u32, sessions: u32) -> bool
    ensures yes { result ≡ true → MayStand place.now window sessions }
    ensures no { result ≡ false → MayStand place.now window sessions → ⊥ }
{
    window <= sessions && place.original != BREAKPOINT && place.kind == kind(place.original)
}

/// Whether task n stands among those before it.
fn is_repeated(tasks: &[TaskNo], n: usize) -> bool
    requires { n < length tasks.now }
    ensures yes { result ≡ true → AllPairs (λ t u. t.0 ≢ u.0) tasks.now → ⊥ }
    ensures no { result ≡ false → IsNew tasks.now n }
{
    for i in 0..n {
        if tasks[i].0 == tasks[n].0 {
            return true;
        }
    }
    false
}

fn differ(tasks: &[TaskNo]) -> bool
    ensures yes { result ≡ true → AllPairs (λ t u. t.0 ≢ u.0) tasks.now }
    ensures no { result ≡ false → AllPairs (λ t u. t.0 ≢ u.0) tasks.now → ⊥ }
{
    for n in 0..tasks.len() {
        if is_repeated(tasks, n) {
            return false;
        }
    }
    true
}

/// Whether each place may stand under its window.
fn may_all_stand(places: &[Place], windows: &[u32], sessions: u32) -> bool
    requires { length windows.now ≡ length places.now }
    ensures yes { result ≡ true → MayAllStand places.now windows.now sessions }
    ensures no { result ≡ false → MayAllStand places.now windows.now sessions → ⊥ }
{
    for i in 0..places.len() {
        if !may_stand(&places[i], windows[i], sessions) {
            return false;
        }
    }
    true
}

impl Plan {
    /// The plan of these places, windows and tasks in so many sessions, without controlled ones; none exactly where
    /// they break a rule of plans: a window for each place, and each of them the number of a session or 0; at most
    /// 65,536 places and 16 sessions; no original that is the breakpoint, and kinds of the originals; no task twice.
    pub fn checked(
        alloc: Global,
        places: Vec<Place>,
        windows: Vec<u32>,
        tasks: Vec<TaskNo>,
        sessions: u32,
    ) -> Option<Plan>
        ensures value { IfSome result (λ p. p ≡ whole_plan places.items windows.items tasks.items sessions) }
        ensures none { IsNone result ↔ (IsPlan (whole_plan places.items windows.items tasks.items sessions) → ⊥) }
    {
        if places.len() > PLACE_LIMIT as usize
            || sessions > SESSION_LIMIT as u32
            || windows.len() != places.len()
        {
            return None;
        }
        if !differ(&tasks) || !may_all_stand(&places, &windows, sessions) {
            return None;
        }
        Some(Plan {
            places,
            windows,
            controlled: Vec::new(alloc),
            tasks,
            sessions,
        })
    }
}
