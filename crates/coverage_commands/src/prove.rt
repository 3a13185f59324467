//! The evidence of a session's facts.
ghost use Rattle.job_input.specs.declared.words.Command.TheVariants.{Prove};
ghost use Rattle.coverage_commands.specs.Calls.{AnsweredAlone};

use crate::refusing::refuse;
use crate::ways::{asks_session, to_end};
use cov_base::Name;
use cov_outside::{Sink, Source};
use job_answers::{make_ready, write_evidence};
use job_text::Grammar;
use refusals::Status;
use std::alloc::Global;

/// Reads a job, and writes the evidence of the session of the name, which has no controller.
pub fn answer_prove<S: Source, K: Sink>(
    alloc: Global,
    name: Name,
    source: &mut S,
    sink: &mut K,
) -> Status
    ensures { AnsweredAlone S.Source K.Sink (Prove name) source.old source.new sink.old sink.new result }
{
    match make_ready(
        alloc,
        source,
        to_end(Grammar::Plain),
        &asks_session(name, true),
    ) {
        Ok(ready) => write_evidence(alloc, &ready.input.job, &ready.tables, ready.session, sink),
        Err(refusal) => refuse(sink, &refusal),
    }
}
