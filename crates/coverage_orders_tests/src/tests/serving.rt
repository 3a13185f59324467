//! Words that are served over areas and a gate.
ghost use Rattle.std.specs.Prelude.{◌<◌, ◌^◌};

use cov_outside::{Gate, MemSink, MemSource};
use coverage_commands::cover;
use module_area::Areas;
use std::alloc::Global;
use std::sync::Wait;
use std::test::Fail;
use std::thread::Threads;

/// The words that blanks part, each a string of its own.
fn words_of(alloc: Global, words: &str) -> Result<Vec<String>, Fail> {
    let mut all = Vec::new(alloc);
    for word in words.split(' ') {
        all.push(String::from_str(alloc, word)?)?;
    }
    Ok(all)
}

/// Serves the words over these areas and this gate, where a read gives 64 bytes: the status and the text.
pub fn serve_over<T: Threads + Wait + Sync, A: Areas, G: Gate + Sync>(
    rt: &T,
    alloc: Global,
    words: &str,
    input: &[u8],
    areas: &mut A,
    gate: &G,
) -> Result<(u8, Vec<u8>), Fail>
    requires room { A.made areas.old < 2 ^ 61 }
{
    let all = words_of(alloc, words)?;
    let mut source = MemSource::new(input.to_vec(alloc)?, 64, Vec::new(alloc));
    let mut sink = MemSink::new(alloc, 4096, 4096, Vec::new(alloc))?;
    let status = cover(rt, alloc, &all, &mut source, &mut sink, areas, gate);
    Ok((status.code(), sink.bytes().to_vec(alloc)?))
}
