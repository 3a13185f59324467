//! The run of a generated job.
ghost use Rattle.std.specs.Prelude.{◌<◌, ◌≤◌, ◌^◌, length};
ghost use Rattle.job_input.specs.Tables.{IsReadyJob};
ghost use Rattle.run_reports.specs.Calls.{Tried};

use crate::host::Host;
use brk_table::Tables;
use cov_outside::{Gate, Sink};
use job_run::run_job;
use module_area::Areas;
use refusals::{Status, status_of, told_no_memory};
use report_text::trial_text;
use session_book::Job;
use std::sync::Wait;
use std::thread::Threads;

/// Runs a job that has so many tasks at least and a session, each task alone, and writes the summary of the first session, in
/// which the job bears this number.
#[tactic(auto, using(brk_table::proofs::Laws::are_in))]
pub fn write_trial<T: Threads + Wait + Sync, K: Sink, A: Areas, G: Gate + Sync>(
    host: &Host<T, G>,
    number: u32,
    tasks: u32,
    job: &Job,
    tables: &Tables,
    sink: &mut K,
    areas: &mut A,
) -> Status
    requires tasks { tasks ≤ length job.now.tasks }
    requires session { 0 < length job.now.sessions }
    requires job { IsReadyJob job.now tables.now }
    requires room { A.made areas.old < 2 ^ 61 }
    ensures { Tried A.Areas K.Sink number tasks job.now tables.now areas.old areas.new sink.old sink.new result }
{
    let Ok(outcome) = run_job(host.rt, host.alloc, areas, host.gate, job, tables) else {
        return told_no_memory(sink);
    };
    status_of(trial_text(sink, number, tasks, tables, &outcome))
}
