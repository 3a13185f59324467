//! Sets of sessions that are final before all tasks of their phase have ended, and the report that tells of it.
#![tactic(auto)]

mod drains;
mod runner;
mod text;
pub mod theorems;

pub use drains::{Drain, Poll, Stage, drain_begin, drain_poll, drain_take, room};
pub use runner::EarlyRunner;
pub use text::early;
