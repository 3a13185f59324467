//! The sessions of a task that opens and closes them itself.

use cov_base::SessNo;
use std::marker::Model;

/// A controller's sessions in job order, the index of the first that was not yet opened, and the open one.
#[derive(Drop)]
pub struct Control {
    pub sessions: Vec<SessNo>,
    pub next: u32,
    pub opened: Option<SessNo>,
}

impl Model for Control {
    ghost use Rattle.module_area.specs.Meaning.{ControlView};

    ghost Value = { ControlView };

    ghost view = { λ c. record { sessions = c.sessions.items; next = c.next; opened = c.opened } };
}
