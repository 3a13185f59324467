//! Whole inputs and whole texts.
ghost use Rattle.std.specs.Prelude.{◌≡◌, ◌<◌, ◌≤◌, ◌^◌, length, take, IfOk, OnOk, OnErr, IsErrOf};
ghost use Rattle.std.specs.Io.KnownBytes.{Consumes, IsAtEnd};
ghost use Rattle.cov_outside.specs.Meaning.{Rose, IsWhole, HasMoreThan};
ghost use Rattle.cov_outside.specs.Whole.{HasAtMost, ConsumesSome};
ghost use Rattle.cov_outside.specs.Writes.{Writes};

use crate::streams::{Failed, Sink, Source};
use std::alloc::{AllocError, Global};

/// Why an input was not read whole.
#[derive(Clone, Copy)]
pub enum ReadFault {
    /// The source failed.
    Failed,
    /// More bytes were left than the limit.
    TooLarge,
    /// The bytes found no memory.
    NoMemory,
}

impl From<Failed> for ReadFault {
    ghost use Rattle.std.specs.Prelude.{◌≡◌};
    ghost use Rattle.cov_outside.specs.declared.whole.ReadFault.TheVariants.{Failed as FailedFault};

    ghost from_gives = { λ _ e. e ≡ FailedFault };

    fn from(_: Failed) -> Self {
        ReadFault::Failed
    }
}

impl From<AllocError> for ReadFault {
    ghost use Rattle.std.specs.Prelude.{◌≡◌};
    ghost use Rattle.cov_outside.specs.declared.whole.ReadFault.TheVariants.{NoMemory};

    ghost from_gives = { λ _ e. e ≡ NoMemory };

    fn from(_: AllocError) -> Self {
        ReadFault::NoMemory
    }
}

/// Reads the next bytes of an input into the front of a buffer that isn't empty, and answers with how many; with 0 only
/// at its end. TooLarge where more than `room` bytes come; a fault that comes after the first byte past them is not met.
/// Failed where the source failed. NoMemory is never answered.
pub fn read_piece<S: Source>(
    source: &mut S,
    buffer: &mut [u8],
    room: usize,
) -> Result<usize, ReadFault>
    requires { 0 < length buffer.old }
    ensures bytes { IfOk result (λ n. Consumes (S.left source.old) (S.left source.new) (take n buffer.new)) }
    ensures end { IfOk result (λ n. n ≡ 0 → IsAtEnd (S.left source.new)) }
    ensures bound { IfOk result (λ n. n ≤ length buffer.new) }
    ensures within { IfOk result (λ n. n ≤ room) }
    ensures rest { OnErr result (ConsumesSome (S.left source.old) (S.left source.new)) }
    ensures large { IsErrOf result ReadFault.TooLarge → HasMoreThan (S.left source.old) room }
    ensures failed { IsErrOf result ReadFault.Failed → Rose (S.faults source.old) (S.faults source.new) }
    ensures no_memory { IsErrOf result ReadFault.NoMemory → ⊥ }
    ensures no_fault { OnOk result (S.faults source.new ≡ S.faults source.old) }
    ensures no_fault_large { IsErrOf result ReadFault.TooLarge → S.faults source.new ≡ S.faults source.old }
    ensures later { S.faults source.old ≤ S.faults source.new }
{
    let count = source.read(buffer)?;
    if count > room {
        return Err(ReadFault::TooLarge);
    }
    Ok(count)
}

/// Reads a source to its end, with one more read to tell the end. TooLarge where more than `limit` bytes
/// were left, as soon as the first past the limit comes; a fault that comes after that byte is not met.
pub fn read_all<S: Source>(
    alloc: Global,
    source: &mut S,
    limit: usize,
) -> Result<Vec<u8>, ReadFault>
    requires { limit < 2 ^ 32 }
    ensures bytes { IfOk result (λ v. IsWhole (S.left source.old) (S.left source.new) v.items) }
    ensures within { IfOk result (λ v. length v.items ≤ limit) }
    ensures fits { OnOk result (HasAtMost (S.left source.old) limit) }
    ensures rest { OnErr result (ConsumesSome (S.left source.old) (S.left source.new)) }
    ensures large { IsErrOf result ReadFault.TooLarge → HasMoreThan (S.left source.old) limit }
    ensures failed { IsErrOf result ReadFault.Failed → Rose (S.faults source.old) (S.faults source.new) }
    ensures no_fault { OnOk result (S.faults source.new ≡ S.faults source.old) }
    ensures no_fault_large { IsErrOf result ReadFault.TooLarge → S.faults source.new ≡ S.faults source.old }
    ensures no_fault_memory { IsErrOf result ReadFault.NoMemory → S.faults source.new ≡ S.faults source.old }
    ensures later { S.faults source.old ≤ S.faults source.new }
{
    let mut all = Vec::new(alloc);
    let mut piece = [0u8; 4096];
    for _turn in 0..limit + 1 {
        let count = read_piece(source, &mut piece, limit - all.len())?;
        if count == 0 {
            return Ok(all);
        }
        all.extend_from_slice(&piece[..count])?;
    }
    Err(ReadFault::TooLarge)
}

/// Writes a text whole, or its first bytes where the sink fails.
pub fn write_all<K: Sink>(sink: &mut K, text: &[u8]) -> Result<(), Failed>
    ensures { Writes K.written K.faults sink.old sink.new result text.now }
{
    let mut at = 0;
    while at < text.len() {
        at += sink.write(&text[at..])?;
    }
    Ok(())
}
