//! A job: modules, listings, services, phases, sessions and tasks, and what its tasks have come to.
#![tactic(auto)]

mod job;
mod results;
mod services;

pub use job::{Job, JobCards, Session, TaskCard};
pub use results::{FactCounts, FactSets, Results};
pub use services::Service;
