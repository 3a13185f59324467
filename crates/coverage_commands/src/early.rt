//! The report of a job, with when the sets of its controlled sessions were taken.
ghost use Rattle.std.specs.Prelude.{◌<◌, ◌^◌};
ghost use Rattle.job_input.specs.declared.words.Command.TheVariants.{Early};
ghost use Rattle.coverage_commands.specs.Calls.{Answered};

use crate::refusing::refuse;
use crate::ways::to_end;
use cov_outside::{Gate, Sink, Source};
use job_answers::{Asked, make_ready};
use job_text::Grammar;
use module_area::Areas;
use refusals::Status;
use run_reports::{Host, write_drained};
use std::sync::Wait;
use std::thread::Threads;

/// Reads a job, runs its tasks, and writes its report with that.
pub fn answer_early<T: Threads + Wait + Sync, S: Source, K: Sink, A: Areas, G: Gate + Sync>(
    host: &Host<T, G>,
    source: &mut S,
    sink: &mut K,
    areas: &mut A,
) -> Status
    requires { A.made areas.old < 2 ^ 61 }
    ensures { Answered S.Source A.Areas K.Sink Early source.old source.new areas.old areas.new sink.old sink.new result }
{
    match make_ready(host.alloc, source, to_end(Grammar::Plain), &Asked::AnyJob) {
        Ok(ready) => write_drained(host, &ready.input.job, &ready.tables, sink, areas),
        Err(refusal) => refuse(sink, &refusal),
    }
}
