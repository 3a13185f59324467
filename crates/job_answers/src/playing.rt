//! A schedule of a job's events.
ghost use Rattle.std.specs.Prelude.{◌+◌, ◌<◌, ◌^◌, length};
ghost use Rattle.job_input.specs.Tables.{IsReadyJob};
ghost use Rattle.job_answers.specs.Calls.{IsReplayed};
ghost use Rattle.refusals.specs.Told.{Tells};

use brk_table::Tables;
use cov_outside::Sink;
use refusals::{Reason, Status, bad_schedule_line, status_of, told, told_no_memory};
use schedule_play::{ScheduleFault, replay, replay_text};
use session_book::Job;
use std::alloc::Global;

/// Plays the schedule behind a job's lines, so many, and writes what its items have shown. Refused by 9 at the first line that is no
/// item or isn't possible, where the schedule has no end or lines behind it, and where the job hasn't one phase.
pub fn write_schedule<K: Sink>(
    alloc: Global,
    job: &Job,
    tables: &Tables,
    lines: u32,
    schedule: &[u8],
    sink: &mut K,
) -> Status
    requires job { IsReadyJob job.now tables.now }
    requires numbers { lines + 1 + length schedule.now < 2 ^ 32 }
    ensures { Tells K.Sink (IsReplayed job.now tables.now lines schedule.now) sink.old sink.new result }
{
    let replayed = match replay(alloc, job, tables, lines, schedule) {
        Ok(replayed) => replayed,
        Err(ScheduleFault::Bad { line }) => return told(
            sink,
            &bad_schedule_line(line),
            Reason::BadSchedule,
        ),
        Err(ScheduleFault::NoMemory) => return told_no_memory(sink),
    };
    status_of(replay_text(sink, job, tables, &replayed.core, &replayed.played))
}
