//! The fields of evidence.
ghost use Rattle.std.specs.Prelude.{◌≡◌, ◌+◌, ◌≤◌, ◌<◌, ◌^◌, ◌&&◌, length, take, drop, nat_le, nat_lt, slice_index};
ghost use Rattle.std.specs.Str.{bytes_eq};
ghost use Rattle.byteorder.specs.Endian.{big_number};
ghost use Rattle.cov_base.specs.declared.limits.TheConstants.{BUDGET_LIMIT};
ghost use Rattle.marks_file.specs.Meaning.{first_bad};
ghost use Rattle.evidence_check.specs.Meaning.{evidence_magic, entry_fields, entries_fields, evidence_fields};

use crate::writing::magic;
use byteorder::{BigEndian, ByteOrder};
use cov_base::BUDGET_LIMIT;

fn has_task(bytes: &[u8], tasks: usize) -> bool
    ensures { result ≡ (nat_le 2 (length bytes.now) && nat_lt (big_number 2 bytes.now) tasks) }
{
    bytes.len() >= 2 && usize::from(BigEndian::read_u16(bytes)) < tasks
}

fn number_at(bytes: &[u8]) -> u32
    requires { 6 ≤ length bytes.now }
    ensures { result ≡ big_number 4 (drop 2 bytes.now) }
{
    BigEndian::read_u32(&bytes[2..])
}

fn has_number(bytes: &[u8]) -> bool
    ensures { result ≡ (nat_le 6 (length bytes.now) && nat_lt (big_number 4 (drop 2 bytes.now)) BUDGET_LIMIT) }
{
    bytes.len() >= 6 && number_at(bytes) < BUDGET_LIMIT
}

fn has_last(bytes: &[u8]) -> bool
    ensures { result ≡ (nat_le 7 (length bytes.now) && nat_le (slice_index bytes.now 6) 1) }
{
    bytes.len() >= 7 && bytes[6] <= 1
}

/// The offset of the first bad field of the entry that begins there.
fn bad_in_entry(bytes: &[u8], at: usize, tasks: usize) -> Option<usize>
    requires { at < 2 ^ 63 }
    ensures { result ≡ first_bad (entry_fields tasks at bytes.now) }
{
    if !has_task(bytes, tasks) {
        return Some(at);
    }
    if !has_number(bytes) {
        return Some(at + 2);
    }
    if !has_last(bytes) {
        return Some(at + 6);
    }
    None
}

/// The bytes from there on.
fn rest_of(bytes: &[u8], at: usize) -> &[u8]
    requires { at ≤ length bytes.now }
    ensures { result.now ≡ drop at bytes.now }
{
    &bytes[at..]
}

/// The offset of the first bad field of so many entries from there on, or of what stands behind them.
fn bad_in_entries(bytes: &[u8], from: usize, count: u32, tasks: usize) -> Option<usize>
    requires { from ≤ length bytes.now }
    ensures { result ≡ first_bad (entries_fields tasks from count (drop from bytes.now)) }
{
    let mut at = from;
    for _i in 0..count {
        match bad_in_entry(rest_of(bytes, at), at, tasks) {
            Some(bad) => return Some(bad),
            None => at += 7,
        }
    }
    if at < bytes.len() { Some(at) } else { None }
}

fn has_magic(bytes: &[u8]) -> bool
    requires { 8 ≤ length bytes.now }
    ensures { result ≡ bytes_eq (take 8 bytes.now) evidence_magic }
{
    &bytes[..8] == magic().as_slice()
}

/// The offset of the first bad field of evidence with so many entries, of a job of so many tasks.
pub(crate) fn bad_field(bytes: &[u8], count: u32, tasks: usize) -> Option<usize>
    ensures { result ≡ first_bad (evidence_fields tasks count bytes.now) }
{
    if bytes.len() < 8 {
        return Some(0);
    }
    if !has_magic(bytes) {
        return Some(0);
    }
    bad_in_entries(bytes, 8, count, tasks)
}
