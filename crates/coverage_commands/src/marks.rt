//! The marks file of a session of a job that is run.
ghost use Rattle.std.specs.Prelude.{◌<◌, ◌^◌};
ghost use Rattle.job_input.specs.declared.words.Command.TheVariants.{Marks};
ghost use Rattle.coverage_commands.specs.Calls.{Answered};

use crate::refusing::refuse;
use crate::ways::{asks_session, to_end};
use cov_base::Name;
use cov_outside::{Gate, Sink, Source};
use job_answers::make_ready;
use job_text::Grammar;
use module_area::Areas;
use refusals::Status;
use run_reports::{Host, write_marks};
use std::sync::Wait;
use std::thread::Threads;
use task_services::JobRunner;

/// Reads a job, runs its tasks with its services, and writes the marks file of the session of the name.
pub fn answer_marks<T: Threads + Wait + Sync, S: Source, K: Sink, A: Areas, G: Gate + Sync>(
    host: &Host<T, G>,
    name: Name,
    by: Grammar,
    from: &mut S,
    to: &mut K,
    areas: &mut A,
) -> Status
    requires { A.made areas.old < 2 ^ 61 }
    ensures { Answered S.Source A.Areas K.Sink (Marks name by) from.old from.new areas.old areas.new to.old to.new result }
{
    match make_ready(host.alloc, from, to_end(by), &asks_session(name, false)) {
        Ok(ready) => {
            let job = &ready.input.job;
            let runner = JobRunner {
                services: job.services(),
            };
            write_marks(host, &runner, job, &ready.tables, ready.session, to, areas)
        },
        Err(refusal) => refuse(to, &refusal),
    }
}
