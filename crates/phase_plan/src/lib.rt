//! What a job says of each phase: the plan that observes it, and each task before its first instruction.
#![tactic(auto)]

mod beginning;
mod plans;

pub use beginning::{Begun, begin};
pub use plans::{has_module, plan_of};
