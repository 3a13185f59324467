//! Where the tasks of a job end.
ghost use Rattle.job_input.specs.Tables.{IsReadyJob};
ghost use Rattle.job_answers.specs.Calls.{IsEnds};
ghost use Rattle.refusals.specs.Told.{Tells};

use brk_table::Tables;
use cov_outside::Sink;
use refusals::{Status, status_of, told_no_memory};
use session_book::Job;
use std::alloc::Global;
use task_ends::{find_ends, write_ends};

/// Runs each task of a job once, with the job's services, and writes where each has ended and what ran where no place begins.
pub fn write_job_ends<K: Sink>(alloc: Global, job: &Job, tables: &Tables, sink: &mut K) -> Status
    requires { IsReadyJob job.now tables.now }
    ensures { Tells K.Sink (IsEnds job.now tables.now) sink.old sink.new result }
{
    let ends = match find_ends(alloc, job, tables) {
        Ok(ends) => ends,
        Err(_) => return told_no_memory(sink),
    };
    status_of(write_ends(sink, job, &ends))
}
