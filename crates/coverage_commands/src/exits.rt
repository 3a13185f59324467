//! The report of a job whose tasks may name exits.
ghost use Rattle.std.specs.Prelude.{◌<◌, ◌^◌};
ghost use Rattle.job_input.specs.declared.words.Command.TheVariants.{Exits};
ghost use Rattle.coverage_commands.specs.Calls.{Answered};

use crate::refusing::refuse;
use crate::ways::to_end;
use cov_outside::{Gate, Sink, Source};
use job_answers::{Asked, make_ready};
use job_text::Grammar;
use module_area::Areas;
use refusals::Status;
use run_reports::{Host, write_report};
use std::sync::Wait;
use std::thread::Threads;
use task_services::ExitRunner;

/// Reads a job, runs its tasks, each of which goes on at the exit that it has named, and writes its report.
pub fn answer_exits<T: Threads + Wait + Sync, S: Source, K: Sink, A: Areas, G: Gate + Sync>(
    host: &Host<T, G>,
    source: &mut S,
    sink: &mut K,
    areas: &mut A,
) -> Status
    requires { A.made areas.old < 2 ^ 61 }
    ensures { Answered S.Source A.Areas K.Sink Exits source.old source.new areas.old areas.new sink.old sink.new result }
{
    match make_ready(host.alloc, source, to_end(Grammar::Plain), &Asked::AnyJob) {
        Ok(ready) => {
            let job = &ready.input.job;
            write_report(host, &ExitRunner, job, &ready.tables, sink, areas)
        },
        Err(refusal) => refuse(sink, &refusal),
    }
}
