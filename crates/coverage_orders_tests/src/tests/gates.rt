//! Gates: each task of a phase is held until all have arrived, so they run at once; and each task arrives once, but none of a
//! job that is refused.

use super::held::Held;
use super::jobs::job_of;
use super::noted::{came_of, number_in};
use super::serving::serve_over;
use cov_base::TaskNo;
use cov_outside::Gate;
use shared_area::SharedAreas;
use std::alloc::Global;
use std::sync::Wait;
use std::sync::atomic::{AtomicU64, Ordering};
use std::test::Fail;
use std::thread::Threads;

/// At most so many looks at how many tasks have arrived.
const TURNS: u64 = 1_000_000_000;

/// Holds each task until so many have arrived, and counts those that went on then.
#[derive(Drop)]
struct Meeting {
    awaited: u64,
    arrived: AtomicU64,
    met: AtomicU64,
}

impl Meeting {
    /// Whether all arrive within the turns.
    fn is_met(&self) -> bool {
        for _ in 0..TURNS {
            if self.arrived.load(Ordering::SeqCst) >= self.awaited {
                return true;
            }
        }
        false
    }
}

impl Gate for Meeting {
    fn arrive(&self, _task: TaskNo) {
        let _ = self.arrived.fetch_add(1, Ordering::SeqCst);
        if self.is_met() {
            let _ = self.met.fetch_add(1, Ordering::SeqCst);
        } else {
            // no other task waits any more
            self.arrived.store(self.awaited, Ordering::SeqCst);
        }
    }
}

/// The own lines of jobs of a branch: two tasks, a line behind these, no end, a session that the second task opens and closes, and
/// five tasks.
static JOBS: &str = "\
@job TWO\n\
SESSION S M\n\
TASK A 100000 16 100 0\n\
TASK B 100000 16 100 0\n\
REG 1 00000001\n\
ENDJOB\n\
@job LONGER\n\
SESSION S M\n\
TASK A 100000 16 100 0\n\
TASK B 100000 16 100 0\n\
REG 1 00000001\n\
ENDJOB\n\
\n\
@job CUT\n\
SESSION S M\n\
TASK A 100000 16 100 0\n\
TASK B 100000 16 100 0\n\
@job CONTROLLED\n\
SESSION S BY B M\n\
TASK A 100000 16 100 0\n\
TASK B 100000 16 100 0\n\
REG 1 00000001\n\
ENDJOB\n\
@job FIVE\n\
SESSION S M\n\
TASK A 100000 16 100 0\n\
TASK B 100000 16 100 0\n\
TASK C 100000 16 100 0\n\
TASK D 100000 16 100 0\n\
TASK E 100000 16 100 0\n\
ENDJOB\n";

/// The lines of the job of this name.
fn lines_of(name: &str) -> &'static str {
    for entry in JOBS.split("@job ") {
        let (own, lines) = entry.split_once('\n').unwrap_or(("", ""));
        if own == name {
            return lines;
        }
    }
    "no job\n"
}

/// How many tasks a phase has, the job and the words. `trial` reads no job.
static MEETINGS: &str = "\
2 TWO run\n\
2 TWO count\n\
5 FIVE run\n\
5 FIVE early\n\
5 FIVE count\n\
64 NONE trial 7 64\n";

/// Whether all tasks of the phase meet, by such a line.
fn meet<T: Threads + Wait + Sync>(rt: &T, alloc: Global, line: &str) -> Result<bool, Fail> {
    let (tasks, rest) = line.split_once(' ').unwrap_or(("", ""));
    let (name, words) = rest.split_once(' ').unwrap_or(("", ""));
    let tasks = u64::from(number_in(tasks));
    let gate = Meeting {
        awaited: tasks,
        arrived: AtomicU64::new(0),
        met: AtomicU64::new(0),
    };
    let job = job_of(alloc, "BRANCH", lines_of(name))?;
    let mut areas = SharedAreas::new(alloc, 1)?;
    let (status, _) = serve_over(rt, alloc, words, &job, &mut areas, &gate)?;
    Ok(status == 0 && gate.met.load(Ordering::SeqCst) == tasks)
}

#[test]
fn all_tasks_of_a_phase_run_at_once(rt: HostRuntime) -> Result<(), Fail> {
    for line in MEETINGS.lines() {
        if !meet(&rt, rt.alloc(), line)? {
            return Err(Fail::new(line));
        }
    }
    Ok(())
}

/// The status that words are answered with, how often each of the two tasks then has arrived, the job and the words.
static PASSES: &str = "\
0 1 TWO run\n\
0 1 TWO exits\n\
0 1 CONTROLLED early\n\
0 1 TWO count\n\
0 1 TWO marks S\n\
0 1 TWO trial 7 2\n\
2 0 CUT run\n\
2 0 LONGER exits\n\
2 0 CUT early\n\
14 0 CONTROLLED count\n\
13 0 TWO marks X\n\
2 0 LONGER marks S\n\
1 0 TWO trial 7 0\n\
0 0 TWO table\n\
0 0 TWO ends\n\
0 0 TWO prove S\n";

/// Whether the words are answered so, and the tasks have arrived so often, and no other has.
fn arrives<T: Threads + Wait + Sync>(rt: &T, alloc: Global, line: &str) -> Result<bool, Fail> {
    let (status, rest) = line.split_once(' ').unwrap_or(("", ""));
    let (times, rest) = rest.split_once(' ').unwrap_or(("", ""));
    let (name, words) = rest.split_once(' ').unwrap_or(("", ""));
    let times = u64::from(number_in(times));
    let came = came_of(rt, alloc, words, "BRANCH", lines_of(name), Held::none())?;
    Ok(u32::from(came.status) == number_in(status) && came.arrived == [times, times, 0])
}

#[test]
fn each_task_arrives_once_and_none_of_a_refused_job(rt: HostRuntime) -> Result<(), Fail> {
    for line in PASSES.lines() {
        if !arrives(&rt, rt.alloc(), line)? {
            return Err(Fail::new(line));
        }
    }
    Ok(())
}
