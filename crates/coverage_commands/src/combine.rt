//! The union of marks files.
ghost use Rattle.job_input.specs.declared.words.Command.TheVariants.{Combine};
ghost use Rattle.coverage_commands.specs.Calls.{AnsweredAlone};

use crate::refusing::refuse;
use cov_outside::{Sink, Source};
use job_answers::write_union;
use job_input::read_input;
use refusals::{Status, read_refusal};
use std::alloc::Global;

/// Reads marks files, and writes the file of their union.
pub fn answer_combine<S: Source, K: Sink>(alloc: Global, source: &mut S, sink: &mut K) -> Status
    ensures { AnsweredAlone S.Source K.Sink Combine source.old source.new sink.old sink.new result }
{
    match read_input(alloc, source) {
        Ok(input) => write_union(alloc, &input, sink),
        Err(fault) => refuse(sink, &read_refusal(fault)),
    }
}
