//! Marks and evidence of a session, checked.
ghost use Rattle.job_input.specs.declared.words.Command.TheVariants.{Verify};
ghost use Rattle.coverage_commands.specs.Calls.{AnsweredAlone};

use crate::refusing::refuse;
use crate::ways::{asks_session, to_go_on};
use cov_base::Name;
use cov_outside::{Sink, Source};
use job_answers::{make_ready, write_verdict};
use job_text::Grammar;
use refusals::Status;
use std::alloc::Global;

/// Reads a job and behind it marks and evidence, and says whether they are those of the session of the name.
pub fn answer_verify<S: Source, K: Sink>(
    alloc: Global,
    name: Name,
    source: &mut S,
    sink: &mut K,
) -> Status
    ensures { AnsweredAlone S.Source K.Sink (Verify name) source.old source.new sink.old sink.new result }
{
    match make_ready(
        alloc,
        source,
        to_go_on(Grammar::Plain),
        &asks_session(name, true),
    ) {
        Ok(ready) => {
            let input = &ready.input;
            write_verdict(
                alloc,
                &name,
                &input.job,
                &ready.tables,
                ready.session,
                &input.rest,
                sink,
            )
        },
        Err(refusal) => refuse(sink, &refusal),
    }
}
