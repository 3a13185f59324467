//! The report of a job whose controllers drain the sessions that they have closed.
ghost use Rattle.std.specs.Prelude.{◌<◌, ◌^◌};
ghost use Rattle.job_input.specs.Tables.{IsReadyJob};
ghost use Rattle.run_reports.specs.Calls.{ReportedEarly};

use crate::host::Host;
use brk_table::Tables;
use cov_outside::{Gate, Sink};
use early_report::{EarlyRunner, early};
use job_run::run_job_with;
use module_area::Areas;
use refusals::{Status, status_of, told_no_memory};
use session_book::Job;
use std::sync::Wait;
use std::thread::Threads;

/// Runs a job, each controller with the drains of its sessions, and writes its report.
#[tactic(auto, using(brk_table::proofs::Laws::are_in))]
pub fn write_drained<T: Threads + Wait + Sync, K: Sink, A: Areas, G: Gate + Sync>(
    host: &Host<T, G>,
    job: &Job,
    tables: &Tables,
    sink: &mut K,
    areas: &mut A,
) -> Status
    requires job { IsReadyJob job.now tables.now }
    requires room { A.made areas.old < 2 ^ 61 }
    ensures { ReportedEarly A.Areas K.Sink job.now tables.now areas.old areas.new sink.old sink.new result }
{
    let runner = EarlyRunner;
    let (outcome, drains) = match run_job_with(
        host.rt, host.alloc, areas, host.gate, &runner, job, tables,
    ) {
        Ok(ran) => ran,
        Err(_) => return told_no_memory(sink),
    };
    status_of(early(sink, job, tables, &outcome, &drains))
}
