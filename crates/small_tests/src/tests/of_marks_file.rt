//! A file of 2,000 places is written in pieces, and what is left of it where a piece fails. What is read, and what is refused,
//! stands in tests/damaged_cases.py and tests/rows.
ghost use Rattle.std.specs.Prelude.{◌<◌};

use cov_outside::MemSink;
use marks_file::{Marks, read, write};
use std::alloc::Global;
use std::test::Fail;

/// A file of one module and so many places.
fn many_places(alloc: Global, count: u32) -> Result<Vec<u8>, Fail>
    requires { count < 65536 }
{
    let mut bytes = Vec::from_slice(alloc, b"S370COV2        \0\0\x01\0\0\x01M       \0\x10\0\0")?;
    bytes.extend_from_slice(&(2 * count).to_be_bytes())?;
    bytes.extend_from_slice(&count.to_be_bytes())?;
    for i in 0..count {
        bytes.extend_from_slice(&(2 * i).to_be_bytes())?;
        bytes.extend_from_slice(&[2, 0, 0x07, 0xFE, 1])?;
    }
    Ok(bytes)
}

/// A sink's room, the bytes that it takes at a time, which of its writes fails, 0 for none; how many bytes it then has, and how
/// many writes it was given, 0 where that isn't asked.
static SINKS: [(usize, usize, u64, usize, u64); 9] = [
    (20_000, 20_000, 0, 18_042, 5),
    (20_000, 7, 0, 18_042, 0),
    (40, 64, 0, 40, 0),
    (20_000, 20_000, 1, 0, 0),
    (20_000, 20_000, 2, 4096, 0),
    (20_000, 20_000, 3, 8192, 0),
    (20_000, 20_000, 4, 12_288, 0),
    (20_000, 20_000, 5, 16_384, 0),
    (18_042, 64, 0, 18_042, 0),
];

/// Whether the sink has taken so many of the first bytes of the file, all of them where no write has failed, and one else.
fn has_taken(sink: &MemSink, is_whole: bool, file: &[u8], size: usize, calls: u64) -> bool {
    file.get(..size) == Some(sink.bytes())
        && is_whole == (size == file.len())
        && sink.faults() == if is_whole { 0 } else { 1 }
        && (calls == 0 || sink.calls() == calls)
}

/// The first of the sinks to which the file is written otherwise.
fn wrong_sink(alloc: Global, marks: &Marks, file: &[u8]) -> Result<Option<usize>, Fail> {
    for n in 0..9 {
        let (room, piece, fail, size, calls) = SINKS[n];
        if piece == 0 {
            return Ok(Some(n));
        }
        let Ok(mut sink) = MemSink::new(alloc, room, piece, Vec::from_slice(alloc, &[fail])?) else {
            return Err(Fail::from("no memory"));
        };
        let is_whole = write(&mut sink, marks).is_ok();
        if !has_taken(&sink, is_whole, file, size, calls) {
            return Ok(Some(n));
        }
    }
    Ok(None)
}

#[test]
fn a_file_is_written_in_pieces_up_to_a_fault(rt: HostRuntime) -> Result<(), Fail> {
    let file = many_places(rt.alloc(), 2000)?;
    match read(rt.alloc(), &file, 0) {
        Ok((marks, _)) => assert_eq!(rt; wrong_sink(rt.alloc(), &marks, &file)?, None),
        Err(_) => return Err(Fail::from("not read")),
    }
    Ok(())
}
