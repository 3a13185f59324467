//! Words that are served over areas, and without them.
ghost use Rattle.std.specs.Prelude.{◌<◌};

use super::jobs::{FROM_3, job_of};
use cov_outside::{MemSink, MemSource, OpenGate, SureSink, SureSource};
use coverage_commands::{cover, cover_one};
use module_area::{Areas, Tally};
use shared_area::SharedAreas;
use std::alloc::Global;
use std::sync::Wait;
use std::test::Fail;
use std::thread::Threads;

/// The places of a count.
const PLACES: &[u8] =
    b"COVERAGE TABLE\nMODULE M PLACES 2\nPLACE 000000 4 C 4610\nPLACE 000004 2 S 07FE\nEND\n";

const USAGE: &[u8] =
    b"USAGE: run | marks NAME | trial NUMBER TASKS | table | replay | combine | show NAME | early | count | exits | prove NAME | verify NAME | ends | services COMMAND\n";

/// The words that blanks part, each a string of its own.
fn words_of(alloc: Global, words: &str) -> Result<Vec<String>, Fail> {
    let mut all = Vec::new(alloc);
    for word in words.split(' ') {
        all.push(String::from_str(alloc, word)?)?;
    }
    Ok(all)
}

/// Serves the words over these areas, where a read gives 64 bytes and a write takes so many, and one of each fails, 0 for none: the
/// status and the text.
pub fn serve_with<T: Threads + Wait + Sync>(
    rt: &T,
    alloc: Global,
    words: &str,
    input: &[u8],
    piece: usize,
    faults: [u64; 2],
) -> Result<(u8, Vec<u8>), Fail>
    requires { 0 < piece }
{
    let all = words_of(alloc, words)?;
    let mut areas = SharedAreas::new(alloc, 2)?;
    let mut source = MemSource::new(input.to_vec(alloc)?, 64, faults[..1].to_vec(alloc)?);
    let mut sink = MemSink::new(alloc, 4096, piece, faults[1..].to_vec(alloc)?)?;
    let status = cover(
        rt,
        alloc,
        &all,
        &mut source,
        &mut sink,
        &mut areas,
        &OpenGate,
    );
    Ok((status.code(), sink.bytes().to_vec(alloc)?))
}

/// Whether the words have this status and this text without areas, on the job of a count.
fn is_told(alloc: Global, words: &str, number: u8, text: &[u8]) -> Result<bool, Fail> {
    let all = words_of(alloc, words)?;
    let mut source = MemSource::new(job_of(alloc, "COUNT", FROM_3)?, 64, Vec::new(alloc));
    let mut sink = MemSink::new(alloc, 4096, 4096, Vec::new(alloc))?;
    let status = cover_one(alloc, &all, &mut source, &mut sink);
    Ok(status.code() == number && sink.bytes() == text)
}

#[test]
fn runs_nothing_and_lists_places_without_areas(rt: HostRuntime) -> Result<(), Fail> {
    assert!(rt; is_told(rt.alloc(), "run", 1, USAGE)? && is_told(rt.alloc(), "table", 0, PLACES)?);
    Ok(())
}

/// Whether one area was finished, of so many plants, fetches, marks, lifts and closes.
fn is_only_tally(tallies: &[Tally], counts: &[u64; 5]) -> bool {
    match tallies {
        [tally] => {
            tally.plants == counts[0]
                && tally.fetches == counts[1]
                && tally.marks == counts[2]
                && tally.lifts == counts[3]
                && tally.closes == counts[4]
        }
        _ => false,
    }
}

/// Whether the words have this status on the job of a count over devices that never fail, and the one area these counts; no area is
/// made where there are none.
fn is_served_surely<T: Threads + Wait + Sync>(
    rt: &T,
    alloc: Global,
    words: &str,
    number: u8,
    counts: &Option<[u64; 5]>,
) -> Result<bool, Fail> {
    let all = words_of(alloc, words)?;
    let mut source = SureSource::new(job_of(alloc, "COUNT", FROM_3)?, 64);
    let mut sink = SureSink::new();
    let mut areas = SharedAreas::new(alloc, 2)?;
    let status = cover(
        rt,
        alloc,
        &all,
        &mut source,
        &mut sink,
        &mut areas,
        &OpenGate,
    );
    let is_so = match counts {
        Some(counts) => is_only_tally(areas.ledger(), counts),
        None => areas.ledger().len() == 0,
    };
    Ok(status.code() == number && is_so)
}

#[test]
fn runs_over_devices_that_never_fail(rt: HostRuntime) -> Result<(), Fail> {
    assert!(rt; is_served_surely(&rt, rt.alloc(), "run", 0, &Some([2, 4, 4, 2, 0]))?);
    assert!(rt; is_served_surely(&rt, rt.alloc(), "runs", 1, &None)?);
    Ok(())
}
