//! Where a job's tasks end.
ghost use Rattle.job_input.specs.declared.words.Command.TheVariants.{Ends};
ghost use Rattle.coverage_commands.specs.Calls.{AnsweredAlone};

use crate::refusing::refuse;
use crate::ways::to_end;
use cov_outside::{Sink, Source};
use job_answers::{Asked, make_ready, write_job_ends};
use job_text::Grammar;
use refusals::Status;
use std::alloc::Global;

/// Reads a job, and writes where each of its tasks ends, and what ran where no place begins.
pub fn answer_ends<S: Source, K: Sink>(
    alloc: Global,
    grammar: Grammar,
    source: &mut S,
    sink: &mut K,
) -> Status
    ensures { AnsweredAlone S.Source K.Sink (Ends grammar) source.old source.new sink.old sink.new result }
{
    match make_ready(alloc, source, to_end(grammar), &Asked::AnyJob) {
        Ok(ready) => write_job_ends(alloc, &ready.input.job, &ready.tables, sink),
        Err(refusal) => refuse(sink, &refusal),
    }
}
