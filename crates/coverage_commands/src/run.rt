//! The report of a job.
ghost use Rattle.std.specs.Prelude.{◌<◌, ◌^◌};
ghost use Rattle.job_input.specs.declared.words.Command.TheVariants.{Run};
ghost use Rattle.coverage_commands.specs.Calls.{Answered};

use crate::refusing::refuse;
use crate::ways::to_end;
use cov_outside::{Gate, Sink, Source};
use job_answers::{Asked, make_ready};
use job_text::Grammar;
use module_area::Areas;
use refusals::Status;
use run_reports::{Host, write_report};
use std::sync::Wait;
use std::thread::Threads;
use task_services::JobRunner;

/// Reads a job, runs its tasks with its services, and writes its report.
pub fn answer_run<T: Threads + Wait + Sync, S: Source, K: Sink, A: Areas, G: Gate + Sync>(
    host: &Host<T, G>,
    grammar: Grammar,
    from: &mut S,
    to: &mut K,
    areas: &mut A,
) -> Status
    requires { A.made areas.old < 2 ^ 61 }
    ensures { Answered S.Source A.Areas K.Sink (Run grammar) from.old from.new areas.old areas.new to.old to.new result }
{
    match make_ready(host.alloc, from, to_end(grammar), &Asked::AnyJob) {
        Ok(ready) => {
            let job = &ready.input.job;
            let runner = JobRunner {
                services: job.services(),
            };
            write_report(host, &runner, job, &ready.tables, to, areas)
        },
        Err(refusal) => refuse(to, &refusal),
    }
}
