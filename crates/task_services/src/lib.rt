//! Tasks whose supervisor calls are answered by routines of the job: their course, what runs a task by it over cells in which
//! breakpoints stand, and a task's run alone, over modules that were never planted, of which an observer is shown each visit.
//! And tasks with an exit for their program interruptions, which SVC 6 names.
#![tactic(auto)]

mod alone;
mod begin;
mod exit_run;
mod exit_runner;
mod exits;
mod run;
mod runner;
mod services;

pub use alone::run_alone;
pub use begin::begin_alone;
pub use exit_runner::ExitRunner;
pub use exits::Exit;
pub use run::run_under;
pub use runner::JobRunner;
pub use services::SERVICE_RETURN;
