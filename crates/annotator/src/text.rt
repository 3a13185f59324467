//! Pieces of a line of at most 160 bytes. Each call needs the room for what it adds, and takes no memory.
ghost use Rattle.std.specs.Prelude.{◌≡◌, ◌+◌, ◌<◌, ◌≤◌, ◌^◌, ◌++◌, length, true, decimal};
ghost use Rattle.std.specs.Fmt.{digit_glyph};
ghost use Rattle.arrayvec.specs.ArrayVec.{array_vec_len};
ghost use Rattle.annotator.specs.Meaning.{hex_digits};

use arrayvec::ArrayVec;
use itoa::Buffer;

/// Adds the text.
pub fn add_text(line: &mut ArrayVec<u8, 160>, text: &[u8])
    requires { array_vec_len line.old + length text.now ≤ 160 }
    ensures items { line.new.items ≡ line.old.items ++ text.now }
    ensures len { array_vec_len line.new ≡ array_vec_len line.old + length text.now }
{
    let Ok(()) = line.try_extend_from_slice(text) else {
        unreachable!()
    };
}

/// The hexadecimal digit of a number below 16, in ASCII.
fn hex_digit(value: u8) -> u8
    requires { value < 16 }
    ensures { result ≡ digit_glyph true value }
{
    if value < 10 { 48 + value } else { 55 + value }
}

/// Adds the number in so many hexadecimal digits, at most 8, which hold it; letters are upper case.
pub fn add_hex(line: &mut ArrayVec<u8, 160>, value: u32, digits: u8)
    requires width { digits ≤ 8 }
    requires fits { value < 16 ^ digits }
    requires room { array_vec_len line.old + digits ≤ 160 }
    ensures items { line.new.items ≡ line.old.items ++ hex_digits digits value }
    ensures len { array_vec_len line.new ≡ array_vec_len line.old + digits }
{
    let first = 8 - digits as usize;
    let mut out = [0u8; 8];
    let mut rest = value;
    let mut at = 8;
    while at > first {
        at -= 1;
        out[at] = hex_digit((rest % 16) as u8);
        rest /= 16;
    }
    add_text(line, &out[first..]);
}

/// Adds the number in decimal without leading zeros; the line has room for 20 digits.
#[tactic(auto, using(crate::proofs::DigitLemmas::decimal_of_word, crate::proofs::DigitLemmas::decimal_of_double))]
pub fn add_number(line: &mut ArrayVec<u8, 160>, value: u64)
    requires { array_vec_len line.old + 20 ≤ 160 }
    ensures items { line.new.items ≡ line.old.items ++ decimal value }
    ensures len { array_vec_len line.new ≡ array_vec_len line.old + length (decimal value) }
    ensures short { array_vec_len line.new ≤ array_vec_len line.old + 20 }
    ensures word { value < 2 ^ 32 → array_vec_len line.new ≤ array_vec_len line.old + 10 }
{
    let mut buffer = Buffer::new();
    add_text(line, buffer.format(value).as_bytes());
}
