//! A schedule of a job's events.
ghost use Rattle.job_input.specs.declared.words.Command.TheVariants.{Replay};
ghost use Rattle.coverage_commands.specs.Calls.{AnsweredAlone};

use crate::refusing::refuse;
use crate::ways::to_go_on;
use cov_outside::{Sink, Source};
use job_answers::{Asked, make_ready, write_schedule};
use job_text::Grammar;
use refusals::Status;
use std::alloc::Global;

/// Reads a job and the schedule behind it, and writes what its items have shown.
pub fn answer_replay<S: Source, K: Sink>(alloc: Global, source: &mut S, sink: &mut K) -> Status
    ensures { AnsweredAlone S.Source K.Sink Replay source.old source.new sink.old sink.new result }
{
    match make_ready(alloc, source, to_go_on(Grammar::Plain), &Asked::AnyJob) {
        Ok(ready) => {
            let input = &ready.input;
            write_schedule(
                alloc,
                &input.job,
                &ready.tables,
                input.lines,
                &input.rest,
                sink,
            )
        },
        Err(refusal) => refuse(sink, &refusal),
    }
}
