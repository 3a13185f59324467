//! Faults in mid-stream, at the call that is listed and at the next, and each call with ample memory.
ghost use Rattle.std.specs.Prelude.{◌<◌, ◌≤◌};

use cov_outside::{
    Failed, MemSink, MemSource, ReadFault, Sink, Source, StdSink, StdSource, SureSink, SureSource,
    WriteBuffer, read_all, write_all,
};
use std::alloc::Global;
use std::io::{BufWriter, Error, ErrorKind, Read, Result as IoResult, Write};
use std::test::Fail;

/// Takes nothing.
#[derive(Drop)]
struct Stuck;

impl Write for Stuck {
    fn write(&mut self, _piece: &[u8]) -> IoResult<usize> {
        Ok(0)
    }

    fn flush(&mut self) -> IoResult<()> {
        Ok(())
    }
}

/// Takes all, and fails as it is to hand it on.
#[derive(Drop)]
struct Holding;

impl Write for Holding {
    fn write(&mut self, piece: &[u8]) -> IoResult<usize> {
        Ok(piece.len())
    }

    fn flush(&mut self) -> IoResult<()> {
        Err(Error::from(ErrorKind::Other))
    }
}

/// Gives a byte at each call but the second.
#[derive(Drop)]
struct Halting {
    calls: u8,
}

impl Read for Halting {
    fn read(&mut self, buf: &mut [u8]) -> IoResult<usize> {
        self.calls = self.calls.saturating_add(1);
        if self.calls == 2 {
            return Err(Error::from(ErrorKind::Other));
        }
        if buf.is_empty() || self.calls > 3 {
            return Ok(0);
        }
        buf[0] = b'A';
        Ok(1)
    }
}

/// Whether 200 bytes come whole in pieces of 64, and no fault is counted.
fn come_whole(alloc: Global) -> Result<bool, Fail> {
    let text = Vec::from_slice(alloc, &[b'T'; 200])?;
    let mut source = MemSource::new(text, 64, Vec::new(alloc));
    let read = read_all(alloc, &mut source, 200);
    Ok(matches!(&read, Ok(all) if all.as_slice() == [b'T'; 200].as_slice()) && source.faults() == 0)
}

/// Reads three bytes in pieces of two, of which it takes so many at most.
fn read_sure(alloc: Global, limit: usize) -> Result<Result<Vec<u8>, ReadFault>, Fail>
    requires { limit ≤ 3 }
{
    let mut sure = SureSource::new(Vec::from_slice(alloc, b"ABC")?, 2);
    Ok(read_all(alloc, &mut sure, limit))
}

#[test]
fn reads_pieces_to_the_end(rt: HostRuntime) -> Result<(), Fail> {
    let alloc = rt.alloc();
    assert!(rt; come_whole(alloc)?);
    assert!(rt; matches!(&read_sure(alloc, 3)?, Ok(all) if all.as_slice() == b"ABC".as_slice()));
    assert!(rt; matches!(read_sure(alloc, 2)?.err(), Some(ReadFault::TooLarge)));
    Ok(())
}

/// Whether the third read fails alone, and is counted.
fn third_read_fails(alloc: Global) -> Result<bool, Fail> {
    let text = Vec::from_slice(alloc, &[b'T'; 200])?;
    let mut source = MemSource::new(text, 64, Vec::from_slice(alloc, &[3])?);
    let first = read_all(alloc, &mut source, 200).err();
    let faults = source.faults();
    let rest = read_all(alloc, &mut source, 200);
    Ok(
        matches!(first, Some(ReadFault::Failed))
            && faults == 1
            && matches!(&rest, Ok(left) if left.len() == 72),
    )
}

#[test]
fn fails_at_the_third_read(rt: HostRuntime) -> Result<(), Fail> {
    assert!(rt; third_read_fails(rt.alloc())?);
    Ok(())
}

/// Whether a sink of ten bytes, which takes four at a time, fails at its second write and where it is full.
fn second_write_fails(sink: &mut MemSink) -> bool {
    matches!(write_all(sink, b"ABCDEF"), Err(Failed))
        && sink.bytes() == b"ABCD".as_slice()
        && sink.faults() == 1
        && matches!(write_all(sink, b"EF"), Ok(()))
        && matches!(write_all(sink, b"GHIJKL"), Err(Failed))
        && sink.bytes() == b"ABCDEFGHIJ".as_slice()
        && sink.faults() == 2
}

/// A sink of so many bytes, which takes so many at a time, and which fails at these writes.
fn mem_sink(alloc: Global, room: usize, piece: usize, fail: &[u64]) -> Result<MemSink, Fail>
    requires { 0 < piece }
{
    match MemSink::new(alloc, room, piece, Vec::from_slice(alloc, fail)?) {
        Ok(sink) => Ok(sink),
        Err(_) => Err(Fail::from("no memory")),
    }
}

#[test]
fn fails_at_the_second_write_and_where_it_is_full(rt: HostRuntime) -> Result<(), Fail> {
    let mut sink = mem_sink(rt.alloc(), 10, 4, &[2])?;
    assert!(rt; second_write_fails(&mut sink));
    assert!(rt; matches!(write_all(&mut SureSink::new(), b"ABC"), Ok(())));
    Ok(())
}

/// Whether a source fails at its second call alone, and counts that.
fn counts_a_read() -> bool {
    let mut source = StdSource::new(Halting { calls: 0 });
    let mut buf = [0; 8];
    matches!(source.read(&mut buf), Ok(1))
        && source.faults() == 0
        && matches!(source.read(&mut buf), Err(Failed))
        && source.faults() == 1
        && matches!(source.read(&mut buf), Ok(1))
        && source.faults() == 1
}

/// Whether a sink that takes nothing fails at a write, and counts that.
fn counts_a_write() -> bool {
    let mut sink = StdSink::new(Stuck);
    matches!(sink.write(b"A"), Err(Failed)) && sink.faults() == 1
}

/// Whether a sink over a writer that holds a byte fails as that can't be handed on, and counts that.
fn counts_a_flush<W: Write + Drop>(writer: BufWriter<W>) -> bool {
    let mut sink = StdSink::new(writer);
    matches!(sink.write(b"A"), Ok(1))
        && sink.faults() == 0
        && matches!(sink.flush(), Err(Failed))
        && sink.faults() == 1
}

#[test]
fn counts_the_faults_of_std(rt: HostRuntime) -> Result<(), Fail> {
    assert!(rt; counts_a_read());
    assert!(rt; counts_a_write());
    assert!(rt; counts_a_flush(BufWriter::new(rt.alloc(), Holding)?));
    assert!(rt; counts_a_flush(BufWriter::new(rt.alloc(), Stuck)?));
    Ok(())
}

/// Whether a buffer takes 455 pieces of nine bytes, and the sink has then no call.
fn takes_pieces(buffer: &mut WriteBuffer, sink: &mut MemSink) -> bool {
    for _i in 0..455 {
        if !matches!(buffer.put(sink, b"ABCDEFGHI"), Ok(())) {
            return false;
        }
    }
    sink.calls() == 0
}

/// Whether the buffer gives its bytes with the next piece, and the rest at a flush.
fn gives_pieces(buffer: &mut WriteBuffer, sink: &mut MemSink) -> bool {
    matches!(buffer.put(sink, b"JKLMNOPQR"), Ok(()))
        && sink.calls() == 1
        && sink.bytes().len() == 4096
        && matches!(buffer.flush(sink), Ok(()))
        && sink.calls() == 2
        && sink.bytes().len() == 4104
        && &sink.bytes()[4094..] == b"IJKLMNOPQR".as_slice()
        && matches!(buffer.flush(sink), Ok(()))
}

/// Whether it gives a long piece at once.
fn gives_a_long_piece(buffer: &mut WriteBuffer, sink: &mut MemSink) -> bool {
    matches!(buffer.put(sink, &[b'T'; 9000]), Ok(()))
        && sink.calls() == 4
        && sink.bytes().len() == 13_104
}

#[test]
fn a_buffer_gives_when_it_is_full(rt: HostRuntime) -> Result<(), Fail> {
    let mut sink = mem_sink(rt.alloc(), 20_000, 20_000, &[])?;
    let mut buffer = WriteBuffer::new();
    assert!(rt; takes_pieces(&mut buffer, &mut sink));
    assert!(rt; gives_pieces(&mut buffer, &mut sink));
    assert!(rt; gives_a_long_piece(&mut buffer, &mut sink));
    Ok(())
}

/// Whether a buffer whose bytes a sink has refused gives those that come later alone.
fn gives_later_bytes(buffer: &mut WriteBuffer, sink: &mut MemSink) -> bool {
    matches!(buffer.put(sink, b"ABC"), Ok(()))
        && matches!(buffer.flush(sink), Err(Failed))
        && matches!(buffer.put(sink, b"DE"), Ok(()))
        && matches!(buffer.flush(sink), Ok(()))
        && sink.bytes() == b"DE".as_slice()
}

#[test]
fn a_buffer_holds_nothing_after_a_fault(rt: HostRuntime) -> Result<(), Fail> {
    let mut sink = mem_sink(rt.alloc(), 20, 20, &[1])?;
    assert!(rt; gives_later_bytes(&mut WriteBuffer::new(), &mut sink));
    Ok(())
}
