//! Controllers that drain their sessions while a task of the phase is held before its first instruction: another one, which
//! goes on at a look of the controller, which then waits for its boundary, or once the controller has ended; or the controller
//! itself, until the other has ended.

use super::jobs::joined;
use super::noted::came_of;
use cov_base::TaskNo;
use std::alloc::Global;
use std::sync::Wait;
use std::sync::atomic::{AtomicU64, Ordering};
use std::test::Fail;
use std::thread::Threads;

/// At most so many looks at another task's word.
const TURNS: u64 = 1_000_000_000;

/// The task that is held, the look at which it goes on, if it does at one, and for how many other tasks' ends it waits; how many
/// looks there were at words of tasks, how many boundaries the held task has made and how many the others have, and how many of
/// these have ended.
#[derive(Drop)]
pub struct Held {
    task: u32,
    look: u64,
    ends: u64,
    looks: AtomicU64,
    went_on: AtomicU64,
    others: AtomicU64,
    ended: AtomicU64,
}

/// Whether the word comes to be so much within the turns.
fn comes(word: &AtomicU64, least: u64) -> bool {
    for _ in 0..TURNS {
        if word.load(Ordering::SeqCst) >= least {
            return true;
        }
    }
    false
}

impl Held {
    /// None is held.
    pub fn none() -> Held {
        Held::new(u32::MAX, 0, 0)
    }

    /// Before the first look.
    pub fn new(task: u32, look: u64, ends: u64) -> Held {
        Held {
            task,
            look,
            ends,
            looks: AtomicU64::new(0),
            went_on: AtomicU64::new(0),
            others: AtomicU64::new(0),
            ended: AtomicU64::new(0),
        }
    }

    /// A task comes to its first instruction: the held one waits.
    pub fn arrive(&self, task: TaskNo) {
        if task.0 == self.task {
            comes(&self.looks, self.look);
            comes(&self.ended, self.ends);
        }
    }

    /// A task has made a boundary, its last one where it has ended.
    pub fn go_on(&self, task: Option<u32>, ended: bool) {
        if task == Some(self.task) {
            let _ = self.went_on.fetch_add(1, Ordering::SeqCst);
            return;
        }
        let _ = self.others.fetch_add(1, Ordering::SeqCst);
        if ended {
            let _ = self.ended.fetch_add(1, Ordering::SeqCst);
        }
    }

    /// How many boundaries the other tasks have made.
    pub fn boundaries(&self) -> u64 {
        self.others.load(Ordering::SeqCst)
    }

    /// A look at a task's word: the last one before the held task goes on waits for it.
    pub fn look(&self) {
        let looks = self.looks.load(Ordering::SeqCst).saturating_add(1);
        self.looks.store(looks, Ordering::SeqCst);
        if looks == self.look {
            comes(&self.went_on, 1);
        }
    }
}

/// Task C goes through nothing while session S is open, closes it, and counts down from 2,000 while task A waits to go through
/// the module.
const COUNTING: &str = "\
SESSION S BY C M\n\
TASK A 100000 16 100 0\n\
TASK C 000000 32 3000 0\n\
REG 2 000007D0\n\
DATA 0 0A040A054620000407FE\n\
ENDJOB\n";

/// Task C opens and closes two sessions, one after the other; task A goes through the module.
const TWO: &str = "\
SESSION S1 BY C M\n\
SESSION S2 BY C M\n\
TASK A 100000 16 100 0\n\
TASK C 000000 16 100 0\n\
DATA 0 0A040A050A040A0507FE\n\
ENDJOB\n";

/// A report's lines up to how task C has ended.
const FRONT: &str = "\
COVERAGE REPORT\n\
TASK A RETURNED COUNT 3 CC 2\n\
R0 00000000 0000000A 00000000 00000000 00000000 00000000 00000000 00000000\n\
R8 00000000 00000000 00000000 00000000 00000000 00000000 00FFFFFE 00100000\n\
OUT 0\n";

/// Behind that, up to its first session's name.
const LAST: &str = "\
R0 00000000 00000000 00000000 00000000 00000000 00000000 00000000 00000000\n\
R8 00000000 00000000 00000000 00000000 00000000 00000000 00FFFFFE 00000000\n\
OUT 0\n";

/// A session that has found nothing.
const UNMARKED: &str = "\
MODULE M PLACES 3 EXECUTED 0 FACTS 0 OF 3\n\
\x20   Loc  Object Code    Addr1 Addr2  Stmt   Source Statement\n\
^ 000000 4110 0005                      1          LA\n\
^ 000004 1A11                           2          AR\n\
^ 000006 07FE                           3          BR\n\
NOT EXECUTED 000000-000007\n";

/// Whether this is the line on the drain where the other task is held so.
fn is_told<T: Threads + Wait + Sync>(
    rt: &T,
    alloc: Global,
    held: Held,
    line: &str,
) -> Result<bool, Fail> {
    let came = came_of(rt, alloc, "early", "LOAD", COUNTING, held)?;
    let ended = "TASK C RETURNED COUNT 2003 CC 0\n";
    let lines = [
        FRONT,
        ended,
        LAST,
        "SESSION S PHASE P\n",
        UNMARKED,
        line,
        "END\n",
    ];
    let wanted = joined(alloc, &lines)?;
    Ok(came.status == 0 && came.text == wanted)
}

#[test]
fn drains_at_the_look_at_which_a_held_task_goes_on(rt: HostRuntime) -> Result<(), Fail> {
    let alloc = rt.alloc();
    assert!(rt; is_told(&rt, alloc, Held::new(0, 10, 0), "DRAINED COUNT 11\n")?);
    assert!(rt; is_told(&rt, alloc, Held::new(0, 1500, 0), "DRAINED COUNT 1501\n")?);
    Ok(())
}

#[test]
fn drains_nothing_where_a_task_is_held_to_the_end(rt: HostRuntime) -> Result<(), Fail> {
    assert!(rt; is_told(&rt, rt.alloc(), Held::new(0, 0, 1), "NOT DRAINED\n")?);
    Ok(())
}

/// Whether both sessions are drained as they are closed, where the controller is held until the other task has ended, which has
/// made a boundary behind each of its three instructions, and the last one.
fn waits_for_no_end<T: Threads + Wait + Sync>(rt: &T, alloc: Global) -> Result<bool, Fail> {
    let came = came_of(rt, alloc, "early", "LOAD", TWO, Held::new(1, 0, 1))?;
    let ended = "TASK C RETURNED COUNT 5 CC 0\n";
    let lines = [
        FRONT,
        ended,
        LAST,
        "SESSION S1 PHASE P\n",
        UNMARKED,
        "DRAINED COUNT 2\n",
        "SESSION S2 PHASE P\n",
        UNMARKED,
        "DRAINED COUNT 4\nEND\n",
    ];
    let wanted = joined(alloc, &lines)?;
    Ok(came.status == 0 && came.boundaries == 4 && came.text == wanted)
}

#[test]
fn a_task_that_has_ended_is_not_waited_for(rt: HostRuntime) -> Result<(), Fail> {
    assert!(rt; waits_for_no_end(&rt, rt.alloc())?);
    Ok(())
}
