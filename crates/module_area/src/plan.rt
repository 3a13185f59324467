//! The plan of a phase.
ghost use Rattle.std.specs.Prelude.{◌≡◌, ◌≢◌, ◌<◌, ◌≤◌, length, IfOk};
ghost use Rattle.cov_base.specs.Meaning.{breakpoint, kind_of};
ghost use Rattle.module_area.specs.Meaning.{original_at, kind_at, window_at, places_under, first_control};
ghost use Rattle.module_area.specs.Rule.{IsPlan};

use crate::control::Control;
use crate::places::Place;
use cov_base::{Kind, PlaceNo, SessNo, TaskNo};
use std::alloc::{AllocError, Global};
use std::marker::Model;

/// A session that a task of the phase opens and closes, and its places, rising.
#[derive(Drop)]
pub struct Controlled {
    pub session: SessNo,
    pub by: TaskNo,
    pub places: Vec<PlaceNo>,
}

impl Model for Controlled {
    ghost use Rattle.module_area.specs.Meaning.{ControlledView};

    ghost Value = { ControlledView };

    ghost view = { λ c. record { session = c.session.0; by = c.by.0; places = c.places.items } };
}

impl Controlled {
    /// A copy.
    pub fn to_controlled(&self, alloc: Global) -> Result<Controlled, AllocError>
        ensures { IfOk result (λ c. c ≡ self.now) }
    {
        let places = Vec::from_slice(alloc, &self.places)?;
        Ok(Controlled {
            session: self.session,
            by: self.by,
            places,
        })
    }
}

/// A phase's plan: at most 65,536 places, for each of them the number of the whole session over it or 0, the
/// controlled sessions in job order, the tasks, none twice, and the number of sessions of the whole job, at
/// most 16.
#[derive(Drop)]
pub struct Plan {
    pub places: Vec<Place>,
    pub windows: Vec<u32>,
    pub controlled: Vec<Controlled>,
    pub tasks: Vec<TaskNo>,
    pub sessions: u32,
}

impl Model for Plan {
    ghost use Rattle.module_area.specs.Meaning.{PlanView};
    ghost use Rattle.module_area.specs.Rule.{IsPlan};

    ghost Value = { PlanView };

    ghost view = { λ p. record { places = p.places.items; windows = p.windows.items; controlled = p.controlled.items; tasks = p.tasks.items; sessions = p.sessions } };

    ghost invariant = { λ p. IsPlan (record { places = p.places.items; windows = p.windows.items; controlled = p.controlled.items; tasks = p.tasks.items; sessions = p.sessions }) };
}

impl Plan {
    /// The number of places.
    pub fn places_len(&self) -> u32
        ensures value { result ≡ length self.now.places }
        ensures plan { IsPlan self.now }
    {
        self.places.len() as u32
    }

    /// The original halfword at a place of the plan, which is never the breakpoint.
    pub fn original(&self, place: PlaceNo) -> u16
        requires { place.0 < length self.now.places }
        ensures value { result ≡ original_at self.now place.0 }
        ensures other { result ≢ breakpoint }
    {
        self.places[place.0 as usize].original
    }

    /// The kind of a place of the plan, which is that of the original.
    pub fn kind(&self, place: PlaceNo) -> Kind
        requires { place.0 < length self.now.places }
        ensures value { result ≡ kind_at self.now place.0 }
        ensures kind { result ≡ kind_of (original_at self.now place.0) }
    {
        self.places[place.0 as usize].kind
    }

    /// The number of the whole session over a place of the plan, or 0.
    pub fn window(&self, place: PlaceNo) -> u32
        requires { place.0 < length self.now.places }
        ensures value { result ≡ window_at self.now place.0 }
        ensures session { result ≤ self.now.sessions }
    {
        self.windows[place.0 as usize]
    }

    /// The places of the controlled session of that number, rising; none where there is no such session.
    pub fn places_under(&self, s: SessNo) -> &[PlaceNo]
        ensures value { result.now ≡ places_under self.now s.0 }
        ensures plan { IsPlan self.now }
    {
        for c in &self.controlled {
            if c.session.0 == s.0 {
                return &c.places;
            }
        }
        &[]
    }

    /// The control of the task, which has opened none of its sessions.
    pub fn control_of(&self, alloc: Global, task: TaskNo) -> Result<Control, AllocError>
        ensures value { IfOk result (λ c. c ≡ first_control self.now task.0) }
        ensures plan { IfOk result (λ c. IsPlan self.now) }
    {
        let mut sessions = Vec::new(alloc);
        for c in &self.controlled {
            if c.by.0 == task.0 {
                sessions.push(c.session)?;
            }
        }
        Ok(Control {
            sessions,
            next: 0,
            opened: None,
        })
    }

    /// A copy.
    pub fn to_plan(&self, alloc: Global) -> Result<Plan, AllocError>
        ensures { IfOk result (λ p. p ≡ self.now) }
    {
        let places = Vec::from_slice(alloc, &self.places)?;
        let windows = Vec::from_slice(alloc, &self.windows)?;
        let tasks = Vec::from_slice(alloc, &self.tasks)?;
        let controlled = copies(alloc, &self.controlled)?;
        Ok(Plan {
            places,
            windows,
            controlled,
            tasks,
            sessions: self.sessions,
        })
    }
}

fn copies(alloc: Global, controlled: &[Controlled]) -> Result<Vec<Controlled>, AllocError>
    ensures { IfOk result (λ v. v.items ≡ controlled.now) }
{
    let mut copies = Vec::with_capacity(alloc, controlled.len())?;
    for c in controlled {
        copies.push(c.to_controlled(alloc)?)?;
    }
    Ok(copies)
}
