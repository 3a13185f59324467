//! The calls on cells come in the order of the instructions: each place of a whole session is planted first, then the task
//! arrives at the gate, once, and a trap marks and then lifts before the instruction is done; a task's own sessions it plants
//! and closes where its calls stand, each place in order of number, and no session twice. A task that comes to a place when another
//! has ended meets what that has left there.

use super::held::Held;
use super::noted::{are_calls, came_of, number_in};
use module_area::Tally;
use std::alloc::Global;
use std::sync::Wait;
use std::test::Fail;
use std::thread::Threads;

/// Each behind `@row`: how many tasks the job has, its program and its name; the calls on its last area; plants, fetches, marks,
/// lifts and closes there; and its own lines.
static ORDERS: &str = "\
@row 1 COUNT a count down\n\
plant 0, plant 1, arrive 1, fetch 0, went 0, fetch 0, went 0, fetch 0, stayed 0, lift 0, fetch 1, ran 1, lift 1\n\
2 4 4 2 0\n\
SESSION S M\n\
TASK A 100000 16 100 0\n\
REG 1 00000003\n\
ENDJOB\n\
@row 1 EXECUTE a subject that is itself EX\n\
plant 0, plant 1, plant 2, arrive 1, fetch 0, ran 0, lift 0, fetch 1\n\
3 2 1 1 0\n\
SESSION S M\n\
TASK A 100000 16 100 0\n\
ENDJOB\n\
@row 1 LOAD a session that its task opens and closes around the module\n\
arrive 1, plant 0, plant 1, plant 2, fetch 0, ran 0, lift 0, fetch 1, ran 1, lift 1, fetch 2, ran 2, lift 2, \
close 0, close 1, close 2\n\
3 3 3 3 3\n\
SESSION S BY C M\n\
TASK C 000000 32 100 0\n\
REG 1 00100000\n\
REG 13 00FFFFFE\n\
DATA 0 0A0445E010000A0507FD\n\
ENDJOB\n\
@row 1 LOAD a session that its task opens, and goes past the module\n\
arrive 1, plant 0, plant 1, plant 2\n\
3 0 0 0 0\n\
SESSION S BY C M\n\
TASK C 000000 32 100 0\n\
REG 1 00100000\n\
REG 13 00FFFFFE\n\
DATA 0 0A0445E010080A0507FD\n\
ENDJOB\n\
@row 1 LOAD a session that its task leaves open\n\
arrive 1, plant 0, plant 1, plant 2, fetch 0, ran 0, lift 0, fetch 1, ran 1, lift 1, fetch 2, ran 2, lift 2\n\
3 3 3 3 0\n\
SESSION S BY C M\n\
TASK C 000000 32 100 0\n\
REG 1 00100000\n\
REG 13 00FFFFFE\n\
DATA 0 0A0445E0100007FD\n\
ENDJOB\n\
@row 2 LOAD a session that is never opened\n\
arrive 1, fetch 0, fetch 1, fetch 2\n\
0 3 0 0 0\n\
SESSION S BY C M\n\
TASK A 100000 16 100 0\n\
TASK C 000000 16 100 0\n\
DATA 0 07FE\n\
ENDJOB\n\
@row 1 LOAD two sessions, with a close, an open, a close and an open that do nothing before, between and behind\n\
arrive 1, plant 0, plant 1, plant 2, close 0, close 1, close 2, plant 0, plant 1, plant 2, close 0, close 1, close 2\n\
6 0 0 0 6\n\
SESSION S1 BY C M\n\
SESSION S2 BY C M\n\
TASK C 000000 16 100 0\n\
DATA 0 0A050A040A040A050A040A050A0407FE\n\
ENDJOB\n\
@row 1 NONE calls in a module that a whole session observes, of a task that controls a session of another module\n\
plant 0, plant 1, plant 2, arrive 1, fetch 0, ran 0, lift 0, plant 3, fetch 1, ran 1, lift 1, close 3, fetch 2, ran 2, lift 2\n\
4 3 3 3 1\n\
COVERJOB 1\n\
MODULE M 100000 6\n\
TEXT 0A040A0507FE\n\
LISTING 4\n\
\x20 Loc  Object Code    Addr1 Addr2  Stmt   Source Statement\n\
000000 0A04                           1          SVC\n\
000002 0A05                           2          SVC\n\
000004 07FE                           3          BR\n\
MODULE N 200000 2\n\
TEXT 07FE\n\
LISTING 2\n\
\x20 Loc  Object Code    Addr1 Addr2  Stmt   Source Statement\n\
000000 07FE                           1          BR\n\
PHASE P\n\
SESSION S M\n\
SESSION T BY A N\n\
TASK A 100000 16 100 0\n\
ENDJOB\n\
@row 3 NONE tasks of two phases, one in code that isn't listed, which makes no call, and one spent at its second instruction\n\
plant 0, plant 1, arrive 1, fetch 0, ran 0, lift 0\n\
2 1 1 1 0\n\
COVERJOB 1\n\
MODULE M 100000 4\n\
TEXT 182207FE\n\
LISTING 3\n\
\x20 Loc  Object Code    Addr1 Addr2  Stmt   Source Statement\n\
000000 1822                           1          LR\n\
000002 07FE                           2          BR\n\
MODULE N 200000 2\n\
TEXT 07FE\n\
PHASE P\n\
TASK A 100000 16 100 0\n\
PHASE Q\n\
SESSION S M\n\
TASK B 200000 16 100 0\n\
TASK C 100000 16 1 0\n\
ENDJOB\n";

/// The same of jobs of two tasks, of which the second begins when the first has ended.
static BEHIND: &str = "\
@row 2 COUNT where a place's set is full the second task meets no breakpoint\n\
plant 0, plant 1, arrive 1, fetch 0, went 0, fetch 0, went 0, fetch 0, stayed 0, lift 0, fetch 1, ran 1, lift 1, \
arrive 1, fetch 0, fetch 0, fetch 1\n\
2 7 4 2 0\n\
SESSION S M\n\
TASK A 100000 16 100 0\n\
REG 1 00000003\n\
TASK Z 100000 16 100 0\n\
REG 1 00000002\n\
ENDJOB\n\
@row 2 EXECUTE nor at an EX that was executed\n\
plant 0, plant 1, plant 2, arrive 1, fetch 0, ran 0, lift 0, fetch 1, arrive 1, fetch 0, fetch 1\n\
3 4 1 1 0\n\
SESSION S M\n\
TASK A 100000 16 100 0\n\
TASK Z 100000 16 100 0\n\
ENDJOB\n\
@row 2 EXECUTE but one at the EX that was its subject\n\
plant 0, plant 1, plant 2, arrive 1, fetch 0, ran 0, lift 0, fetch 1, arrive 1, fetch 1, ran 1, lift 1, fetch 0\n\
3 4 2 2 0\n\
SESSION S M\n\
TASK A 100000 16 100 0\n\
TASK Z 100004 16 100 0\n\
REG 15 00100000\n\
ENDJOB\n";

/// Whether these are the counts.
fn are_counts(counts: &[u64], words: &str) -> bool {
    let mut had = 0usize;
    for word in words.split(' ') {
        match counts.get(had) {
            Some(count) if *count == u64::from(number_in(word)) => had = had.wrapping_add(1),
            _ => return false,
        }
    }
    had == counts.len()
}

/// The counts of the last tally: plants, fetches, marks, lifts and closes.
pub fn counts_of(tallies: &[Tally]) -> Option<[u64; 5]> {
    match tallies.get(tallies.len().wrapping_sub(1)) {
        Some(tally) => Some([
            tally.plants,
            tally.fetches,
            tally.marks,
            tally.lifts,
            tally.closes,
        ]),
        None => None,
    }
}

/// Whether there are counts, and these are they.
pub fn are_last(counts: &Option<[u64; 5]>, words: &str) -> bool {
    match counts {
        Some(counts) => are_counts(counts.as_slice(), words),
        None => false,
    }
}

/// Whether each of so many tasks has arrived once, where they are one or two, and else the first two, and each of the others.
fn have_arrived(arrived: &[u64; 3], tasks: u32) -> bool {
    arrived[0] == 1
        && arrived[1] == if tasks > 1 { 1 } else { 0 }
        && arrived[2] == u64::from(tasks.saturating_sub(2))
}

/// Whether the words make the calls of the row's job on its last area, where a task is held so.
fn makes<T: Threads + Wait + Sync>(
    rt: &T,
    alloc: Global,
    words: &str,
    row: &str,
    held: Held,
) -> Result<bool, Fail> {
    let (tasks, rest) = row.split_once(' ').unwrap_or(("", ""));
    let (program, rest) = rest.split_once(' ').unwrap_or(("", ""));
    let (_, rest) = rest.split_once('\n').unwrap_or(("", ""));
    let (calls, rest) = rest.split_once('\n').unwrap_or(("", ""));
    let (counts, own) = rest.split_once('\n').unwrap_or(("", ""));
    let came = came_of(rt, alloc, words, program, own, held)?;
    Ok(
        came.status == 0
            && are_calls(&came.calls, calls)
            && are_last(&came.counts, counts)
            && have_arrived(&came.arrived, number_in(tasks)),
    )
}

/// A failure that names the row.
fn fail_of(row: &'static str) -> Fail {
    let (head, _) = row.split_once('\n').unwrap_or((row, ""));
    Fail::new(head)
}

#[test]
fn makes_its_calls_in_the_order_of_the_instructions(rt: HostRuntime) -> Result<(), Fail> {
    for row in ORDERS.split("@row ") {
        if !row.is_empty() && !makes(&rt, rt.alloc(), "run", row, Held::none())? {
            return Err(fail_of(row));
        }
    }
    Ok(())
}

/// By `early` each task makes boundaries, and the second task is held until the first has ended.
#[test]
fn a_task_meets_what_an_ended_one_has_left(rt: HostRuntime) -> Result<(), Fail> {
    for row in BEHIND.split("@row ") {
        if !row.is_empty() && !makes(&rt, rt.alloc(), "early", row, Held::new(1, 0, 1))? {
            return Err(fail_of(row));
        }
    }
    Ok(())
}
