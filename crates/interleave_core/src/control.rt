//! The sessions that tasks open and close.
ghost use Rattle.std.specs.Prelude.{◌≡◌, ◌<◌, nat_eq, option_map, slice_get, IsSome};
ghost use Rattle.std.specs.List.{find};
ghost use Rattle.cov_base.specs.declared.limits.TheConstants.{SESSION_LIMIT};
ghost use Rattle.interleave_core.specs.Meaning.{next_place};
ghost use Rattle.interleave_core.specs.Views.{controlled_by, seen_change, seen_at};

use cov_base::{PlaceNo, SessNo, TaskNo};
use module_area::{Controlled, Plan};

/// The opening or the closing of a session.
#[derive(Clone, Copy)]
pub(crate) struct Change<'p> {
    pub(crate) closes: bool,
    pub(crate) session: &'p Controlled,
}

/// The planting or the closing of a session at a place.
#[derive(Clone, Copy)]
pub(crate) struct PlaceChange {
    pub(crate) closes: bool,
    pub(crate) session: SessNo,
    pub(crate) place: PlaceNo,
}

/// Of these sessions the one that comes n-th, from 0 on, of those that the task controls.
fn nth_of(controlled: &[Controlled], t: TaskNo, n: u32) -> Option<&Controlled>
    ensures { option_map (λ c. c.now) result ≡ slice_get (controlled_by t.0 controlled.now) n }
{
    let mut left = n;
    for c in controlled {
        if c.by.0 == t.0 {
            if left == 0 {
                return Some(c);
            }
            left -= 1;
        }
    }
    None
}

/// The session of the plan that comes n-th, from 0 on, of those that the task controls.
pub(crate) fn nth_session(plan: &Plan, t: TaskNo, n: u32) -> Option<&Controlled>
    ensures value { option_map (λ c. c.now) result ≡ slice_get (controlled_by t.0 plan.now.controlled) n }
    ensures room { IsSome result → n < SESSION_LIMIT }
{
    nth_of(&plan.controlled, t, n)
}

/// At the place that follows those that are done, in their order.
pub(crate) fn next_place(change: &Change, done: u32) -> Option<PlaceChange>
    ensures { seen_at result ≡ next_place done (seen_change change.now) }
{
    let session = change.session;
    match session.places.get(done as usize) {
        Some(place) => Some(PlaceChange {
            closes: change.closes,
            session: session.session,
            place: *place,
        }),
        None => None,
    }
}

/// The task that controls the session, where one does.
pub(crate) fn controller_of(controlled: &[Controlled], s: SessNo) -> Option<TaskNo>
    ensures { option_map (λ t. t.0) result ≡ option_map (λ c. c.by) (find (λ c. nat_eq c.session s.0) controlled.now) }
{
    for c in controlled {
        if c.session.0 == s.0 {
            return Some(c.by);
        }
    }
    None
}
