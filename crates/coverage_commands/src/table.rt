//! The places of a job's modules.
ghost use Rattle.job_input.specs.declared.words.Command.TheVariants.{Table};
ghost use Rattle.coverage_commands.specs.Calls.{AnsweredAlone};

use crate::refusing::refuse;
use crate::ways::to_end;
use cov_outside::{Sink, Source};
use job_answers::{Asked, make_ready};
use job_text::Grammar;
use refusals::{Status, status_of};
use report_text::table;
use std::alloc::Global;

/// Reads a job, and writes the places of its modules.
pub fn answer_table<S: Source, K: Sink>(
    alloc: Global,
    grammar: Grammar,
    source: &mut S,
    sink: &mut K,
) -> Status
    ensures { AnsweredAlone S.Source K.Sink (Table grammar) source.old source.new sink.old sink.new result }
{
    match make_ready(alloc, source, to_end(grammar), &Asked::AnyJob) {
        Ok(ready) => status_of(table(sink, &ready.input.job, &ready.tables)),
        Err(refusal) => refuse(sink, &refusal),
    }
}
