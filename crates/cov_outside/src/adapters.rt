//! A source over any reader and a sink over any writer of std.
ghost use Rattle.std.specs.Prelude.{◌≡◌, ◌<◌, ◌≤◌, [], length, IfOk, OnOk, OnErr};
ghost use Rattle.std.specs.Io.{ReadsAtMost};
ghost use Rattle.std.specs.Io.Buffered.{writer_buffer};
ghost use Rattle.std.specs.Io.KnownBytes.{Keeps, ReadConsumes, WriteAppends};
ghost use Rattle.cov_outside.specs.Meaning.{raised};
ghost use Rattle.cov_outside.specs.Causes.{HasCause};
ghost use Rattle.cov_outside.specs.Adapters.{reader_of, read_faults, writer_of, write_faults, written_by};

use crate::streams::{Failed, Sink, Source};
use std::io::{BufWriter, Read, Write};

/// A source over a reader of std. It tells the bytes left where the reader does; a file or a terminal does not.
#[derive(Drop)]
pub struct StdSource<R> {
    inner: R,
    faults: u64,
}

impl<R: Read> StdSource<R> {
    /// A source over the reader, which has not failed yet.
    pub fn new(inner: R) -> StdSource<R>
        ensures inner { reader_of result ≡ inner }
        ensures faults { read_faults result ≡ 0 }
    {
        StdSource { inner, faults: 0 }
    }

    /// How often it has failed, to 2^64 - 1.
    pub fn faults(&self) -> u64
        ensures { result ≡ read_faults self.now }
    {
        self.faults
    }
}

impl<R: Read> Source for StdSource<R> {
    ghost left = { λ s. R.remaining (reader_of s) };

    ghost faults = { λ s. read_faults s };

    /// One call of the reader. Failed where that answers an error, which raises the count by one.
    fn read(&mut self, buf: &mut [u8]) -> Result<usize, Failed>
        ensures bound { ReadsAtMost result buf.new }
        ensures bytes { ReadConsumes (R.remaining (reader_of self.old)) (R.remaining (reader_of self.new)) result buf.new }
        ensures cause { HasCause (read_faults self.old) (read_faults self.new) result }
        ensures no_fault { OnOk result (read_faults self.new ≡ read_faults self.old) }
        ensures one { OnErr result (read_faults self.new ≡ raised (read_faults self.old)) }
    {
        match self.inner.read(buf) {
            Ok(count) => Ok(count),
            Err(_) => {
                self.faults = self.faults.saturating_add(1);
                Err(Failed)
            }
        }
    }
}

/// A sink over a writer of std. It tells the bytes written where the writer does; a file or a terminal does not.
#[derive(Drop)]
pub struct StdSink<W> {
    inner: W,
    faults: u64,
}

impl<W: Write> StdSink<W> {
    /// A sink over the writer, which has not failed yet.
    pub fn new(inner: W) -> StdSink<W>
        ensures inner { writer_of result ≡ inner }
        ensures faults { write_faults result ≡ 0 }
    {
        StdSink { inner, faults: 0 }
    }

    /// How often it has failed, to 2^64 - 1.
    pub fn faults(&self) -> u64
        ensures { result ≡ write_faults self.now }
    {
        self.faults
    }
}

impl<W: Write + Drop> StdSink<BufWriter<W>> {
    /// Hands on what the writer still holds: after an Ok it holds nothing. Failed where that answers an error, which raises
    /// the count by one.
    pub fn flush(&mut self) -> Result<(), Failed>
        ensures kept { Keeps (written_by W.contents self.old) (written_by W.contents self.new) }
        ensures none_held { OnOk result (writer_buffer (writer_of self.new) ≡ []) }
        ensures no_fault { OnOk result (write_faults self.new ≡ write_faults self.old) }
        ensures one { OnErr result (write_faults self.new ≡ raised (write_faults self.old)) }
    {
        if self.inner.flush().is_err() {
            self.faults = self.faults.saturating_add(1);
            return Err(Failed);
        }
        Ok(())
    }
}

impl<W: Write> Sink for StdSink<W> {
    ghost written = { λ s. W.contents (writer_of s) };

    ghost faults = { λ s. write_faults s };

    /// One call of the writer. Failed where that answers an error or takes nothing, which raises the count by one.
    fn write(&mut self, piece: &[u8]) -> Result<usize, Failed>
        requires { 0 < length piece.now }
        ensures some { IfOk result (λ n. 0 < n) }
        ensures bound { IfOk result (λ n. n ≤ length piece.now) }
        ensures bytes { WriteAppends (W.contents (writer_of self.old)) (W.contents (writer_of self.new)) result piece.now }
        ensures cause { HasCause (write_faults self.old) (write_faults self.new) result }
        ensures no_fault { OnOk result (write_faults self.new ≡ write_faults self.old) }
        ensures one { OnErr result (write_faults self.new ≡ raised (write_faults self.old)) }
    {
        match self.inner.write(piece) {
            Ok(count) if count > 0 => Ok(count),
            _ => {
                self.faults = self.faults.saturating_add(1);
                Err(Failed)
            }
        }
    }
}
