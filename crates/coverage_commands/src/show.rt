//! A session's listings, marked by a marks file.
ghost use Rattle.job_input.specs.declared.words.Command.TheVariants.{Show};
ghost use Rattle.coverage_commands.specs.Calls.{AnsweredAlone};

use crate::refusing::refuse;
use crate::ways::{asks_session, to_go_on};
use cov_base::Name;
use cov_outside::{Sink, Source};
use job_answers::{make_ready, write_shown};
use job_text::Grammar;
use refusals::Status;
use std::alloc::Global;

/// Reads a job and the marks file behind it, and writes the listings of the session of the name with its marks.
pub fn answer_show<S: Source, K: Sink>(
    alloc: Global,
    name: Name,
    grammar: Grammar,
    source: &mut S,
    sink: &mut K,
) -> Status
    ensures { AnsweredAlone S.Source K.Sink (Show name grammar) source.old source.new sink.old sink.new result }
{
    match make_ready(alloc, source, to_go_on(grammar), &asks_session(name, false)) {
        Ok(ready) => write_shown(alloc, &ready, sink),
        Err(refusal) => refuse(sink, &refusal),
    }
}
