//! The run of a job's tasks over areas.
ghost use Rattle.std.specs.Prelude.{◌<◌, ◌≤◌, ◌^◌, length};
ghost use Rattle.job_input.specs.Tables.{IsReadyJob};
ghost use Rattle.run_reports.specs.Calls.{Marked, Reported};

use crate::host::Host;
use brk_table::Tables;
use cov_base::SessNo;
use cov_outside::{Gate, Sink};
use job_run::run_job_with;
use marks_file::write;
use module_area::Areas;
use refusals::{Status, status_of, told_no_memory};
use report_text::report;
use session_book::Job;
use session_marks::{NoSets, fill_marks, marks_of};
use std::sync::Wait;
use std::thread::Threads;
use task_run::Runner;

/// Runs a job, each task along the course of what it runs by, and writes its report.
#[tactic(auto, using(brk_table::proofs::Laws::are_in))]
pub fn write_report<
    T: Threads + Wait + Sync,
    K: Sink,
    A: Areas,
    G: Gate + Sync,
    R: Runner<A::C> + Sync,
>(host: &Host<T, G>, by: &R, job: &Job, tables: &Tables, sink: &mut K, areas: &mut A) -> Status
    requires job { IsReadyJob job.now tables.now }
    requires room { A.made areas.old < 2 ^ 61 }
    ensures { Reported A.Areas K.Sink (R.course by.now) job.now tables.now areas.old areas.new sink.old sink.new result }
{
    let (outcome, _) = match run_job_with(host.rt, host.alloc, areas, host.gate, by, job, tables) {
        Ok(ran) => ran,
        Err(_) => return told_no_memory(sink),
    };
    status_of(report(sink, job, tables, &outcome))
}

/// Runs a job, each task along the course of what it runs by, and writes the marks file of its session s.
#[tactic(auto, using(brk_table::proofs::Laws::are_in))]
pub fn write_marks<
    T: Threads + Wait + Sync,
    K: Sink,
    A: Areas,
    G: Gate + Sync,
    R: Runner<A::C> + Sync,
>(
    host: &Host<T, G>,
    by: &R,
    job: &Job,
    tables: &Tables,
    s: SessNo,
    sink: &mut K,
    areas: &mut A,
) -> Status
    requires from { 0 < s.0 }
    requires to { s.0 ≤ length job.now.sessions }
    requires job { IsReadyJob job.now tables.now }
    requires room { A.made areas.old < 2 ^ 61 }
    ensures { Marked A.Areas K.Sink (R.course by.now) job.now tables.now s.0 areas.old areas.new sink.old sink.new result }
{
    // The memory of the marks is taken before a task runs.
    let none = NoSets {
        sessions: s.0,
        places: tables.len(),
    };
    let Ok(mut marks) = marks_of(host.alloc, job, tables, &none, s) else {
        return told_no_memory(sink);
    };
    let Ok((outcome, _)) = run_job_with(host.rt, host.alloc, areas, host.gate, by, job, tables)
    else {
        return told_no_memory(sink);
    };
    fill_marks(&mut marks, job, tables, &outcome, s);
    status_of(write(sink, &marks))
}
