//! The counts of a job's sessions.
ghost use Rattle.std.specs.Prelude.{◌≡◌, None};
ghost use Rattle.job_input.specs.Tables.{IsReadyJob};
ghost use Rattle.job_answers.specs.Meaning.{first_controlled};
ghost use Rattle.job_input.specs.declared.words.Command.TheVariants.{Count};
ghost use Rattle.coverage_commands.specs.Calls.{AnsweredAlone, IsCount};
ghost use Rattle.refusals.specs.Told.{Tells};

use crate::refusing::refuse;
use crate::ways::to_end;
use brk_table::Tables;
use count_session::count_job;
use cov_outside::{Gate, Sink, Source};
use job_answers::{Asked, make_ready};
use job_text::Grammar;
use refusals::{Status, status_of, told_no_memory};
use report_text::count_text;
use run_reports::Host;
use session_book::Job;
use std::sync::Wait;
use std::thread::Threads;

/// Counts a job whose sessions have no controller, and writes its counts.
#[tactic(auto, using(brk_table::proofs::Laws::are_in))]
fn write_counts<T: Threads + Wait + Sync, K: Sink, G: Gate + Sync>(
    host: &Host<T, G>,
    job: &Job,
    tables: &Tables,
    sink: &mut K,
) -> Status
    requires free { first_controlled job.now ≡ None }
    requires job { IsReadyJob job.now tables.now }
    ensures { Tells K.Sink (IsCount job.now tables.now) sink.old sink.new result }
{
    let Ok(counted) = count_job(host.rt, host.alloc, host.gate, job, tables) else {
        return told_no_memory(sink);
    };
    status_of(count_text(sink, job, tables, &counted))
}

/// Reads a job whose sessions have no controllers, runs its tasks, and writes how often each fact was met.
pub fn answer_count<T: Threads + Wait + Sync, S: Source, K: Sink, G: Gate + Sync>(
    host: &Host<T, G>,
    grammar: Grammar,
    source: &mut S,
    sink: &mut K,
) -> Status
    ensures { AnsweredAlone S.Source K.Sink (Count grammar) source.old source.new sink.old sink.new result }
{
    match make_ready(host.alloc, source, to_end(grammar), &Asked::AllWhole) {
        Ok(ready) => write_counts(host, &ready.input.job, &ready.tables, sink),
        Err(refusal) => refuse(sink, &refusal),
    }
}
