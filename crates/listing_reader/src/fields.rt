//! Blanks and hexadecimal digits in the columns of a line.
ghost use Rattle.std.specs.Prelude.{◌≡◌, ◌+◌, ◌*◌, ◌<◌, ◌≤◌, ◌^◌, IfSome};
ghost use Rattle.hex.specs.Hex.{hex_digit_value};
ghost use Rattle.listing_reader.specs.Meaning.{are_blank, is_blank_at, number_in};

use crate::columns::column;

/// The value of a hexadecimal digit of either case.
pub fn digit(b: u8) -> Option<u8>
    ensures value { result ≡ hex_digit_value b }
    ensures below { IfSome result (λ d. d < 16) }
{
    match b {
        b'0'..=b'9' => Some(b - b'0'),
        b'A'..=b'F' => Some(b - 55),
        b'a'..=b'f' => Some(b - 87),
        _ => None,
    }
}

/// Whether a column of the line, counted from 1, is a blank.
pub fn is_blank_at(line: &[u8], shift: u8, n: usize) -> bool
    requires { 1 ≤ n }
    ensures { result ≡ is_blank_at line.now shift n }
{
    column(line, shift, n) == b' '
}

/// Whether so many columns from one on are blank.
#[tactic(auto, using(crate::proofs::Digits::all_below_none, crate::proofs::Digits::all_below_more), unfolding(crate::specs::Meaning::are_blank))]
pub fn are_blank(line: &[u8], shift: u8, from: usize, count: usize) -> bool
    requires from { 1 ≤ from }
    requires fits { from + count < 2 ^ 64 }
    ensures { result ≡ are_blank line.now shift from count }
{
    for k in 0..count {
        if !is_blank_at(line, shift, from + k) {
            return false;
        }
    }
    true
}

/// The number that so many hexadecimal digits, at most eight, spell from a column on.
pub fn number_in(line: &[u8], shift: u8, from: usize, count: usize) -> Option<u32>
    requires from { 1 ≤ from }
    requires count { count ≤ 8 }
    requires fits { from + count < 2 ^ 64 }
    ensures { result ≡ number_in line.now shift from count }
{
    let mut number: u32 = 0;
    for k in 0..count {
        match digit(column(line, shift, from + k)) {
            None => return None,
            Some(d) => number = 16 * number + u32::from(d),
        }
    }
    Some(number)
}
