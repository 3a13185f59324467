//! A source and a sink in memory, which fail at the calls that are listed.
ghost use Rattle.std.specs.Prelude.{◌≡◌, ◌<◌, ◌≤◌, ◌++◌, ◌-◌, ◌+◌, true, false, [], ℕ, length, take, drop, min, IfOk, OnOk, OnErr};
ghost use Rattle.std.specs.declared.option.Option.TheVariants.{Some};
ghost use Rattle.std.specs.Io.{ReadsAtMost};
ghost use Rattle.std.specs.Io.KnownBytes.{ReadConsumes, WriteAppends};
ghost use Rattle.cov_outside.specs.Causes.{HasCause};
ghost use Rattle.cov_outside.specs.Memory.{fresh_source, fresh_sink, is_listed, given_count, after_read, after_failed_read, is_refusing, taken_count, after_write, after_failed_write};

use crate::streams::{Failed, Sink, Source};
use cov_base::NoMemory;
use std::alloc::Global;
use std::marker::Model;

/// Gives at most `piece` bytes per call, and fails exactly at the calls that `fail` lists, counted from 1.
#[derive(Drop)]
pub struct MemSource {
    bytes: Vec<u8>,
    at: usize,
    piece: usize,
    fail: Vec<u64>,
    calls: u64,
    faults: u64,
}

impl Model for MemSource {
    ghost use Rattle.std.specs.Prelude.{◌≤◌, ◌<◌, length, drop};
    ghost use Rattle.cov_outside.specs.Memory.{SourceView};

    ghost Value = { SourceView };

    ghost view = { λ s. record { left = drop s.at s.bytes.items; piece = s.piece; fail = s.fail.items; calls = s.calls; faults = s.faults } };

    ghost invariant = { λ s. (s.at ≤ length s.bytes.items) × (0 < s.piece) };
}

impl MemSource {
    /// A source of these bytes; `piece` is at least 1.
    pub fn new(bytes: Vec<u8>, piece: usize, fail: Vec<u64>) -> MemSource
        requires { 0 < piece }
        ensures { result ≡ fresh_source bytes.items piece fail.items }
    {
        MemSource {
            bytes,
            at: 0,
            piece,
            fail,
            calls: 0,
            faults: 0,
        }
    }

    /// How often it has failed, to 2^64 - 1.
    pub fn faults(&self) -> u64
        ensures { result ≡ self.now.faults }
    {
        self.faults
    }
}

impl Source for MemSource {
    ghost left = { λ s. Some s.left };

    ghost faults = { λ s. s.faults };

    /// Failed exactly at the listed calls, each of which raises the count by one.
    fn read(&mut self, buf: &mut [u8]) -> Result<usize, Failed>
        ensures bound { ReadsAtMost result buf.new }
        ensures bytes { ReadConsumes (Some self.old.left) (Some self.new.left) result buf.new }
        ensures cause { HasCause self.old.faults self.new.faults result }
        ensures no_fault { OnOk result (self.new.faults ≡ self.old.faults) }
        ensures count { IfOk result (λ n. n ≡ given_count self.old.left self.old.piece (length buf.old)) }
        ensures unlisted { OnOk result (is_listed self.old.calls self.old.fail ≡ false) }
        ensures listed { OnErr result (is_listed self.old.calls self.old.fail ≡ true) }
        ensures after { IfOk result (λ n. self.new ≡ after_read self.old n) }
        ensures fault { OnErr result (self.new ≡ after_failed_read self.old) }
    {
        let listed = is_listed(self.calls, &self.fail);
        self.calls = self.calls.saturating_add(1);
        if listed {
            self.faults = self.faults.saturating_add(1);
            return Err(Failed);
        }
        let count = give(&self.bytes, self.at, self.piece, buf);
        self.at += count;
        Ok(count)
    }
}

/// Whether the call after so many is listed.
fn is_listed(calls: u64, fail: &[u64]) -> bool
    ensures { result ≡ is_listed calls fail.now }
{
    calls < u64::MAX && fail.contains(&(calls + 1))
}

/// Copies bytes from `at` on, at most `piece` of them, to the front of the buffer, and answers with how many.
pub(crate) fn give(bytes: &[u8], at: usize, piece: usize, buf: &mut [u8]) -> usize
    requires inside { at ≤ length bytes.now }
    requires some { 0 < piece }
    ensures count { result ≡ given_count (drop at bytes.now) piece (length buf.old) }
    ensures fits { at + result ≤ length bytes.now }
    ensures bound { result ≤ length buf.new }
    ensures given { drop at bytes.now ≡ take result buf.new ++ drop (at + result) bytes.now }
    ensures end { result ≡ 0 → 0 < length buf.new → drop (at + result) bytes.now ≡ [] }
{
    let count = buf.len().min(piece).min(bytes.len() - at);
    buf[..count].copy_from_slice(&bytes[at..at + count]);
    count
}

/// Takes at most `piece` bytes per call and no more than its room, and fails exactly at the calls that
/// `fail` lists, counted from 1, and where its room is full.
#[derive(Drop)]
pub struct MemSink {
    bytes: Vec<u8>,
    room: usize,
    piece: usize,
    fail: Vec<u64>,
    calls: u64,
    faults: u64,
}

impl Model for MemSink {
    ghost use Rattle.std.specs.Prelude.{◌≤◌, ◌<◌, length, vec_capacity};
    ghost use Rattle.cov_outside.specs.Memory.{SinkView};

    ghost Value = { SinkView };

    ghost view = { λ s. record { written = s.bytes.items; room = s.room; piece = s.piece; fail = s.fail.items; calls = s.calls; faults = s.faults } };

    ghost invariant = { λ s. (length s.bytes.items ≤ s.room) × (s.room ≤ vec_capacity s.bytes) × (0 < s.piece) };
}

impl MemSink {
    /// Takes the memory of its whole room, in bytes; `piece` is at least 1.
    pub fn new(
        alloc: Global,
        room: usize,
        piece: usize,
        fail: Vec<u64>,
    ) -> Result<MemSink, NoMemory>
        requires { 0 < piece }
        ensures { IfOk result (λ s. s ≡ fresh_sink room piece fail.items) }
    {
        let bytes = Vec::with_capacity(alloc, room)?;
        Ok(MemSink {
            bytes,
            room,
            piece,
            fail,
            calls: 0,
            faults: 0,
        })
    }

    /// What was written so far.
    pub fn bytes(&self) -> &[u8]
        ensures { result.now ≡ self.now.written }
    {
        &self.bytes
    }

    /// How often it was called, to 2^64 - 1.
    pub fn calls(&self) -> u64
        ensures { result ≡ self.now.calls }
    {
        self.calls
    }

    /// How often it has failed, to 2^64 - 1.
    pub fn faults(&self) -> u64
        ensures { result ≡ self.now.faults }
    {
        self.faults
    }
}

impl Sink for MemSink {
    ghost written = { λ s. Some s.written };

    ghost faults = { λ s. s.faults };

    /// Failed exactly at the listed calls and where the room is full, each of which raises the count by one.
    fn write(&mut self, piece: &[u8]) -> Result<usize, Failed>
        requires { 0 < length piece.now }
        ensures some { IfOk result (λ n. 0 < n) }
        ensures bound { IfOk result (λ n. n ≤ length piece.now) }
        ensures bytes { WriteAppends (Some self.old.written) (Some self.new.written) result piece.now }
        ensures cause { HasCause self.old.faults self.new.faults result }
        ensures count { IfOk result (λ n. n ≡ taken_count self.old (length piece.now)) }
        ensures unlisted { OnOk result (is_refusing self.old ≡ false) }
        ensures listed { OnErr result (is_refusing self.old ≡ true) }
        ensures after { IfOk result (λ n. self.new ≡ after_write self.old (take n piece.now)) }
        ensures fault { OnErr result (self.new ≡ after_failed_write self.old) }
    {
        let refusing = is_listed(self.calls, &self.fail) || self.bytes.len() == self.room;
        self.calls = self.calls.saturating_add(1);
        if refusing {
            self.faults = self.faults.saturating_add(1);
            return Err(Failed);
        }
        let free = self.room - self.bytes.len();
        let count = piece.len().min(self.piece).min(free);
        let Ok(()) = self.bytes.extend_from_slice(&piece[..count]) else {
            unreachable!()
        };
        Ok(count)
    }
}
