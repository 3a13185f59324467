//! The object code of a line: one to three groups of four hexadecimal digits.
ghost use Rattle.std.specs.Prelude.{◌≡◌, ◌+◌, ◌*◌, ◌<◌, ◌≤◌, ◌^◌, ◌==◌, IfSome};
ghost use Rattle.cov_base.specs.Meaning.{length_of};
ghost use Rattle.s370_decode.specs.Meaning.{first_half};
ghost use Rattle.listing_reader.specs.Meaning.{fits_groups, are_groups, byte_in, byte_of, code_in, code_with, object_of};

use crate::columns::{Columns, column};
use crate::fields::{digit, is_blank_at};
use cov_base::Addr;
use s370_decode::{Code, length};

fn fits_groups(line: &[u8], shift: u8, first: usize, groups: usize, k: usize) -> bool
    requires first { 1 ≤ first }
    requires fits { first + k < 2 ^ 64 }
    ensures { result ≡ fits_groups line.now shift first groups k }
{
    if k % 5 < 4 && k / 5 < groups {
        digit(column(line, shift, first + k)).is_some()
    } else {
        is_blank_at(line, shift, first + k)
    }
}

#[tactic(auto, using(crate::proofs::Digits::all_below_none, crate::proofs::Digits::all_below_more), unfolding(crate::specs::Meaning::are_groups))]
fn are_groups(line: &[u8], shift: u8, columns: Columns, groups: usize) -> bool
    requires { 1 ≤ columns.object }
    ensures { result ≡ are_groups columns line.now shift groups }
{
    for k in 0..columns.room as usize {
        if !fits_groups(line, shift, columns.object as usize, groups, k) {
            return false;
        }
    }
    true
}

/// The byte at i, of two digits.
fn byte_in(line: &[u8], shift: u8, columns: Columns, i: usize) -> u8
    requires place { i < 6 }
    requires first { 1 ≤ columns.object }
    ensures { result ≡ byte_in columns line.now shift i }
{
    let first = columns.object as usize + 5 * (i / 2) + 2 * (i % 2);
    match digit(column(line, shift, first)) {
        None => 0,
        Some(high) => match digit(column(line, shift, first + 1)) {
            None => 0,
            Some(low) => 16 * high + low,
        },
    }
}

fn byte_of(line: &[u8], shift: u8, columns: Columns, groups: usize, i: usize) -> u8
    requires place { i < 6 }
    requires first { 1 ≤ columns.object }
    requires groups { groups ≤ 3 }
    ensures { result ≡ byte_of columns line.now shift groups i }
{
    if i < 2 * groups {
        byte_in(line, shift, columns, i)
    } else {
        0
    }
}

fn code_in(line: &[u8], shift: u8, columns: Columns, groups: u8) -> Code
    requires groups { groups ≤ 3 }
    requires first { 1 ≤ columns.object }
    ensures { result ≡ code_in columns line.now shift groups }
{
    let n = usize::from(groups);
    Code {
        at: Addr::of(0),
        bytes: [
            byte_of(line, shift, columns, n, 0),
            byte_of(line, shift, columns, n, 1),
            byte_of(line, shift, columns, n, 2),
            byte_of(line, shift, columns, n, 3),
            byte_of(line, shift, columns, n, 4),
            byte_of(line, shift, columns, n, 5),
        ],
        len: 2 * groups,
    }
}

#[tactic(auto, unfolding(crate::specs::Meaning::code_in))]
fn code_with(line: &[u8], shift: u8, columns: Columns, groups: u8) -> Option<Code>
    requires groups { groups ≤ 3 }
    requires first { 1 ≤ columns.object }
    ensures value { result ≡ code_with columns line.now shift groups }
    ensures sound { IfSome result (λ c. c.len ≡ length_of (first_half c)) }
{
    if !are_groups(line, shift, columns, usize::from(groups)) {
        return None;
    }
    let code = code_in(line, shift, columns, groups);
    if length(code.first_half()) == 2 * groups {
        Some(code)
    } else {
        None
    }
}

#[tactic(auto, unfolding(crate::specs::Meaning::object_of))]
/// The object code; none exactly where the columns are not one to three groups, or where the first byte gives
/// another length.
pub fn object_of(line: &[u8], shift: u8, columns: Columns) -> Option<Code>
    requires { 1 ≤ columns.object }
    ensures value { result ≡ object_of columns line.now shift }
    ensures sound { IfSome result (λ c. c.len ≡ length_of (first_half c)) }
{
    if let Some(code) = code_with(line, shift, columns, 1) {
        return Some(code);
    }
    if let Some(code) = code_with(line, shift, columns, 2) {
        return Some(code);
    }
    code_with(line, shift, columns, 3)
}
