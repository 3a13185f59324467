//! The run of a generated job.
ghost use Rattle.std.specs.Prelude.{◌≡◌, ◌<◌, ◌≤◌, ◌^◌, None, IfOk};
ghost use Rattle.job_input.specs.Meaning.{job_fault};
ghost use Rattle.job_input.specs.Tables.{IsReadyJob};
ghost use Rattle.report_text.specs.Conditions.{HasFewLines};
ghost use Rattle.coverage_commands.specs.Calls.{AnsweredUnread};

use brk_table::Tables;
use cov_base::NoMemory;
use cov_outside::{Gate, Sink};
use job_gen::trial;
use job_input::{Command, TablesFault, tables_of};
use module_area::Areas;
use refusals::{Status, told_no_memory};
use run_reports::{Host, write_trial};
use session_book::Job;
use std::alloc::Global;
use std::sync::Wait;
use std::thread::Threads;

/// The tables of a job whose listings have no fault.
pub fn faultless_tables(alloc: Global, job: &Job) -> Result<Tables, NoMemory>
    requires few { HasFewLines job.now }
    requires faultless { job_fault job.now ≡ None }
    ensures { IfOk result (IsReadyJob job.now) }
{
    match tables_of(alloc, job) {
        Ok(tables) => Ok(tables),
        Err(TablesFault::NoMemory) => Err(NoMemory),
        Err(TablesFault::List { .. } | TablesFault::Build { .. }) => unreachable!(),
    }
}

/// Makes the job of this number and so many tasks, runs it, and writes its summary.
pub fn answer_trial<T: Threads + Wait + Sync, K: Sink, A: Areas, G: Gate + Sync>(
    host: &Host<T, G>,
    number: u32,
    tasks: u32,
    sink: &mut K,
    areas: &mut A,
) -> Status
    requires some { 1 ≤ tasks }
    requires most { tasks ≤ 64 }
    requires room { A.made areas.old < 2 ^ 61 }
    ensures { AnsweredUnread A.Areas K.Sink (Command.Trial number tasks) areas.old areas.new sink.old sink.new result }
{
    let Ok(job) = trial(host.alloc, number, tasks) else {
        return told_no_memory(sink);
    };
    let Ok(tables) = faultless_tables(host.alloc, &job) else {
        return told_no_memory(sink);
    };
    write_trial(host, number, tasks, &job, &tables, sink, areas)
}
