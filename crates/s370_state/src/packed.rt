//! Packed decimal fields in storage (Principles of Operation, "Decimal Instructions", "Data Format"). A field of length code
//! l has l + 1 bytes: 2l + 1 digits, then the sign in the last half byte.
ghost use Rattle.std.specs.Prelude.{◌≡◌, ◌+◌, ◌-◌, ◌*◌, ◌/◌, ◌%◌, ◌^◌, ◌<◌, ◌≤◌, ◌&&◌, true, false, take, drop, length, slice_index, ℕ, IfSome, IfNone, Some, ℤ, pos, neg_ℤ, ◌<ℤ◌};
ghost use Rattle.std.specs.List.{list_all};
ghost use Rattle.cov_base.specs.Meaning.{can_reach, can_store};
ghost use Rattle.s370_state.specs.Fields.{AreBytes};
ghost use Rattle.s370_state.specs.Halves.{halves_of, AreSmall};
ghost use Rattle.s370_state.specs.Meaning.{is_sign, is_minus, sign_half, is_digit, halves_at, decimal, field_at, number_at, number, digits_of, bytes_of, store_field};

use crate::operands::byte_of;
use crate::space::Space;
use crate::words::doubleword;
use cov_base::Addr;

/// What a field holds.
#[derive(Clone, Copy)]
pub struct Field {
    /// The number that its digits make, below 10^31.
    pub magnitude: u128,
    /// Whether its sign is minus, which that of a zero may be too.
    pub minus: bool,
}

/// Whether the half byte is a digit.
pub fn is_digit(half: u8) -> bool
    ensures { result ≡ is_digit half }
{
    half < 10
}

/// Whether the half byte is a sign, 10 to 15, and no digit.
pub fn is_sign(half: u8) -> bool
    ensures { result ≡ is_sign half }
{
    half >= 10
}

/// Whether the sign is minus, which 11 and 13 are.
pub fn is_minus(half: u8) -> bool
    ensures { result ≡ is_minus half }
{
    half == 11 || half == 13
}

/// The sign that is made: 13 for minus, 12 for plus.
fn sign_half(minus: bool) -> u8
    ensures value { result ≡ sign_half minus }
    ensures below { result < 16 }
{
    if minus { 13 } else { 12 }
}

/// Whether both halves of the byte are digits.
fn is_pair(byte: u8) -> bool
    ensures { result ≡ (is_digit (byte / 16) && is_digit (byte % 16)) }
{
    is_digit(byte / 16) && is_digit(byte % 16)
}

/// Whether the halves of a field's last byte are a digit and a sign.
fn is_last(byte: u8) -> bool
    ensures { result ≡ (is_digit (byte / 16) && is_sign (byte % 16)) }
{
    is_digit(byte / 16) && is_sign(byte % 16)
}

/// The number of the digits in the first n bytes of a row; none where a half byte of these is no digit.
#[inline(always)]
fn pairs<P: Space>(_from: &P, at: Addr, n: u32, row: &[u8]) -> Option<u128>
    requires most { n ≤ 15 }
    requires row { AreBytes (P.memory _from.now) (P.bytes _from.now) at (n + 1) row.now }
    ensures good { IfSome result (λ _. list_all is_digit (halves_at (P.memory _from.now) (P.bytes _from.now) at n) ≡ true) }
    ensures value { IfSome result (λ v. v ≡ decimal 0 (halves_at (P.memory _from.now) (P.bytes _from.now) at n)) }
    ensures below { IfSome result (λ v. v < 100 ^ n) }
    ensures bad { IfNone result (list_all is_digit (halves_at (P.memory _from.now) (P.bytes _from.now) at n) ≡ false) }
{
    let mut v: u128 = 0;
    for i in 0..n {
        let byte = row[i as usize];
        if !is_pair(byte) {
            return None;
        }
        v = v * 100 + u128::from(byte / 16 * 10 + byte % 16);
    }
    Some(v)
}

/// What the field of length code l holds, whose bytes stand in a row; none where a digit or the sign is bad.
fn field_in<P: Space>(_from: &P, at: Addr, l: u8, row: &[u8]) -> Option<Field>
    requires length { l ≤ 15 }
    requires row { AreBytes (P.memory _from.now) (P.bytes _from.now) at (l + 1) row.now }
    ensures { result ≡ field_at (P.memory _from.now) (P.bytes _from.now) at l }
{
    let n = u32::from(l);
    let last = row[usize::from(l)];
    match pairs(_from, at, n, row) {
        Some(high) => {
            if is_last(last) {
                Some(Field {
                    magnitude: high * 10 + u128::from(last / 16),
                    minus: is_minus(last % 16),
                })
            } else {
                None
            }
        }
        None => None,
    }
}

/// The bytes of an operand, one at a time, in front.
fn gathered<P: Space>(space: &P, at: Addr, n: u32) -> [u8; 16]
    requires most { n ≤ 16 }
    requires reach { can_reach (P.memory space.now) at n ≡ true }
    ensures { AreBytes (P.memory space.now) (P.bytes space.now) at n (take n result) }
{
    let mut row = [0u8; 16];
    for i in 0..n {
        row[i as usize] = byte_of(space, at, i, n);
    }
    row
}

/// What a field holds, by its bytes one at a time.
#[cold]
#[inline(never)]
fn any_field<P: Space>(space: &P, at: Addr, l: u8) -> Option<Field>
    requires length { l ≤ 15 }
    requires reach { can_reach (P.memory space.now) at (l + 1) ≡ true }
    ensures { result ≡ field_at (P.memory space.now) (P.bytes space.now) at l }
{
    let n = u32::from(l) + 1;
    field_in(space, at, l, &gathered(space, at, n)[..n as usize])
}

/// The right half of each byte of a doubleword.
const RIGHT_HALVES: u64 = 0x0F0F_0F0F_0F0F_0F0F;

/// The right byte of each halfword.
const RIGHT_BYTES: u64 = 0x00FF_00FF_00FF_00FF;

/// The right halfword of each word.
const RIGHT_HALFWORDS: u64 = 0x0000_FFFF_0000_FFFF;

/// Where it is added, a byte of 10 to 15 has a left half that isn't zero.
const SIXES: u64 = 0x0606_0606_0606_0606;

/// The left half of each byte.
const LEFT_HALVES: u64 = 0xF0F0_F0F0_F0F0_F0F0;

/// The number of 16 digits, all at once: two neighbours become a number to 99, two of these one to 9999, and so on. None where a
/// half byte is no digit.
#[inline(always)]
fn number_in(x: u64) -> Option<u64>
    ensures good { IfSome result (λ _. list_all is_digit (halves_of 16 x) ≡ true) }
    ensures value { IfSome result (λ v. v ≡ decimal 0 (halves_of 16 x)) }
{
    let right = x & RIGHT_HALVES;
    let left = (x - right) / 16;
    if (right + SIXES) & LEFT_HALVES != 0 || (left + SIXES) & LEFT_HALVES != 0 {
        return None;
    }
    let pairs = left * 10 + right;
    let right = pairs & RIGHT_BYTES;
    let fours = (pairs - right) / 256 * 100 + right;
    let right = fours & RIGHT_HALFWORDS;
    let eights = (fours - right) / 65_536 * 10_000 + right;
    Some(eights / 4_294_967_296 * 100_000_000 + eights % 4_294_967_296)
}

/// The number of up to 8 bytes, where the doubleword that they end stands in a row.
#[inline(always)]
fn word_ending<P: Space>(space: &P, at: Addr, l: u8) -> Option<u64>
    requires { l ≤ 7 }
    ensures number { IfSome result (λ x. x ≡ number_at (P.memory space.now) (P.bytes space.now) at (l + 1)) }
    ensures bytes { IfSome result (λ _. AreSmall (P.memory space.now) (P.bytes space.now) at (l + 1)) }
{
    match space.slice(at.plus(16_777_209 + u32::from(l)), 8) {
        Some(row) => {
            let before = 8 * (7 - l);
            Some(doubleword(row, 0) << before >> before)
        }
        None => None,
    }
}

/// What a good field of up to 8 bytes holds, where the doubleword that it ends stands in a row; none of any other.
#[inline(always)]
fn short_field<P: Space>(space: &P, at: Addr, l: u8) -> Option<Field>
    ensures field { IfSome result (λ f. Some f ≡ field_at (P.memory space.now) (P.bytes space.now) at l) }
    ensures most { IfSome result (λ f. f.magnitude < 18446744073709551616) }
{
    if l > 7 {
        return None;
    }
    match word_ending(space, at, l) {
        Some(x) => {
            let sign = (x % 16) as u8;
            if !is_sign(sign) {
                return None;
            }
            match number_in(x / 16) {
                Some(v) => Some(Field {
                    magnitude: u128::from(v),
                    minus: is_minus(sign),
                }),
                None => None,
            }
        }
        None => None,
    }
}

/// The same of more than 8 bytes, of which the last 8 are a field by themselves.
#[inline(always)]
fn long_field<P: Space>(space: &P, at: Addr, l: u8) -> Option<Field>
    requires { l ≤ 15 }
    ensures { IfSome result (λ f. Some f ≡ field_at (P.memory space.now) (P.bytes space.now) at l) }
{
    if l < 8 {
        return None;
    }
    match word_ending(space, at, l - 8) {
        Some(x) => match number_in(x) {
            Some(high) => match short_field(space, at.plus(u32::from(l - 7)), 7) {
                Some(low) => Some(Field {
                    magnitude: u128::from(high) * 1_000_000_000_000_000 + low.magnitude,
                    minus: low.minus,
                }),
                None => None,
            },
            None => None,
        },
        None => None,
    }
}

/// What a field holds that isn't a short one, good and in a row. Marked cold, so that the way of those stays straight.
#[cold]
#[inline(never)]
fn other_field<P: Space>(space: &P, at: Addr, l: u8) -> Option<Field>
    requires length { l ≤ 15 }
    requires reach { can_reach (P.memory space.now) at (l + 1) ≡ true }
    ensures { result ≡ field_at (P.memory space.now) (P.bytes space.now) at l }
{
    match long_field(space, at, l) {
        Some(f) => Some(f),
        None => any_field(space, at, l),
    }
}

/// What the field of length code l holds, whose bytes were tested; none where a digit or the sign is bad.
#[inline(always)]
#[tactic(auto, using(crate::proofs::ShortFields::field_below, crate::proofs::ShortFields::field_most))]
pub fn field_at<P: Space>(space: &P, at: Addr, l: u8) -> Option<Field>
    requires length { l ≤ 15 }
    requires reach { can_reach (P.memory space.now) at (l + 1) ≡ true }
    ensures field { result ≡ field_at (P.memory space.now) (P.bytes space.now) at l }
    ensures below { IfSome result (λ f. f.magnitude < 10 ^ (2 * l + 1)) }
    ensures most { IfSome result (λ f. f.magnitude < 10000000000000000000000000000000) }
{
    match short_field(space, at, l) {
        Some(f) => Some(f),
        None => other_field(space, at, l),
    }
}

/// The field, whose magnitude is below 10^31, as a number, where a zero has no sign.
#[tactic(auto, unfolding(crate::specs::Meaning::number))]
pub fn number(f: Field) -> i128
    requires { f.magnitude < 10000000000000000000000000000000 }
    ensures value { result ≡ number f }
    ensures low { neg_ℤ (pos 10000000000000000000000000000000) <ℤ result }
    ensures high { result <ℤ pos 10000000000000000000000000000000 }
{
    if f.minus {
        -(f.magnitude as i128)
    } else {
        f.magnitude as i128
    }
}

/// The first n bytes of a row, which are zeros, become the 2n low digits of v.
fn put_low(row: &mut [u8], n: usize, v: u64)
    requires inside { n ≤ length row.old }
    requires most { n ≤ 15 }
    requires zeros { (i : ℕ) → i < n → slice_index row.old i ≡ 0 }
    ensures digits { take n row.new ≡ bytes_of (digits_of (2 * n) v) }
    ensures rest { drop n row.new ≡ drop n row.old }
    ensures filled { length row.new ≡ length row.old }
{
    if v == 0 {
        return;
    }
    if n == 0 {
        return;
    }
    let pair = (v % 100) as u8;
    row[n - 1] = pair + pair / 10 * 6;
    put_low(row, n - 1, v / 100);
}

/// The same of a number that may need more than 64 bits, whose division is long.
fn put_digits(row: &mut [u8], n: usize, v: u128)
    requires inside { n ≤ length row.old }
    requires most { n ≤ 15 }
    requires zeros { (i : ℕ) → i < n → slice_index row.old i ≡ 0 }
    ensures digits { take n row.new ≡ bytes_of (digits_of (2 * n) v) }
    ensures rest { drop n row.new ≡ drop n row.old }
    ensures filled { length row.new ≡ length row.old }
{
    if v < 18_446_744_073_709_551_616 {
        put_low(row, n, v as u64);
        return;
    }
    if n == 0 {
        return;
    }
    row[n - 1] = (v / 10 % 10 * 16 + v % 10) as u8;
    put_digits(row, n - 1, v / 100);
}

/// A magnitude's digits but the last, and that one.
fn digits_and_last(v: u128) -> (u128, u8)
    ensures digits { result.0 ≡ v / 10 }
    ensures last { result.1 ≡ v % 10 }
{
    if v < 18_446_744_073_709_551_616 {
        let low = v as u64;
        (u128::from(low / 10), (low % 10) as u8)
    } else {
        (v / 10, (v % 10) as u8)
    }
}

/// The field of length code l, whose bytes were tested, becomes the low digits of a magnitude and a sign.
pub fn put_field<P: Space>(space: &mut P, at: Addr, l: u8, v: u128, minus: bool)
    requires length { l ≤ 15 }
    requires store { can_store (P.memory space.old) at (l + 1) ≡ true }
    ensures memory { P.memory space.new ≡ P.memory space.old }
    ensures bytes { P.bytes space.new ≡ store_field (P.bytes space.old) at l v minus }
{
    let mut row = [0u8; 16];
    let n = usize::from(l);
    let (digits, last) = digits_and_last(v);
    put_digits(&mut row, n, digits);
    row[n] = last * 16 + sign_half(minus);
    space.put_slice(at, &row[..n + 1]);
}
