//! The core: cells, sets and tasks under every order of their events.
#![tactic(auto)]

mod control;
mod events;
mod fresh;
mod hands;
mod interleaving;
mod running;
mod stage;
pub mod theorems;

pub use events::{Event, NotPossible, Shown};
pub use interleaving::{Core, start};
pub use stage::{Due, Hand, Stage};
