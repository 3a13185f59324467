//! Signed shifts of a register or a pair.
#![tactic(auto, using(s370_state::proofs::Laws::at_once, s370_state::proofs::Laws::ill_formed, s370_state::proofs::Laws::well_at_once))]

ghost use Rattle.std.specs.Prelude.{◌≡◌, ◌+◌, ◌-◌, ◌*◌, ◌/◌, ◌%◌, ◌^◌, ◌<◌, ◌≤◌, if◌then◌else◌};
ghost use Rattle.s370_state.specs.Meaning.{next_after, signed};
ghost use Rattle.s370_state.specs.Row.{Performs};
ghost use Rattle.s370_decode.specs.Meaning.{e2};
ghost use Rattle.s370_fixed.specs.Meaning.{low_word, is_word, is_doubleword, sign_code, left_by, right_by, with_sign, fixed_row};

use crate::operands::load;
use crate::words::{is_word, low_word, sign_code};
use s370_decode::{Decoded, Op};
use s370_state::{Cpu, Ending, Next, Space, next_after, signed};

/// The value of a word's sign bit.
const WORD_SIGN: u64 = 2_147_483_648;

/// The value of a doubleword's.
const DOUBLE_SIGN: u64 = 9_223_372_036_854_775_808;

/// How far the shift goes, 0 to 63.
fn distance(cpu: &Cpu, it: &Decoded) -> u32
    ensures value { result ≡ e2 cpu.now it.now.code % 64 }
    ensures below { result < 64 }
{
    cpu.second_based(it).get() % 64
}

/// The number times 2^n.
#[tactic(auto, using(crate::proofs::Powers::power_below))]
fn left_by(x: i64, n: u32) -> i128
    requires { n < 64 }
    ensures { result ≡ left_by x n }
{
    i128::from(x) * i128::from(1u64 << n)
}

/// The product's low bits behind the sign bit of x.
#[tactic(auto, unfolding(crate::specs::Meaning::with_sign))]
fn with_sign(sign: u64, x: i64, z: i128) -> u64
    requires positive { 0 < sign }
    requires most { sign ≤ 9223372036854775808 }
    ensures value { result ≡ with_sign sign x z }
    ensures below { result < 2 * sign }
{
    let bit = if x < 0 { sign } else { 0 };
    let m = u128::from(sign);
    if z >= 0 {
        bit + (z as u128 % m) as u64
    } else {
        bit + (sign - 1 - (!z as u128 % m) as u64)
    }
}

/// Whether the product fits a signed doubleword.
#[tactic(auto, unfolding(crate::specs::Meaning::is_doubleword))]
fn is_doubleword(z: i128) -> bool
    ensures { result ≡ is_doubleword z }
{
    -9_223_372_036_854_775_808 <= z && z < 9_223_372_036_854_775_808
}

/// The number divided by 2^n, rounded down.
#[tactic(auto, using(crate::proofs::Powers::right_is))]
fn right_by(x: i64, n: u32) -> i64
    requires { n < 64 }
    ensures { result ≡ right_by x n }
{
    x >> n
}

/// The condition code of a left shift: the given one, or 3 with an overflow.
fn set_code(cpu: &mut Cpu, kept: bool, code: u8) -> Next
    requires { code ≤ 3 }
    ensures cpu { cpu.new ≡ record cpu.old { condition = if kept then code else 3 } }
    ensures next { result ≡ next_after cpu.old.mask (if kept then 0 else 8) }
{
    if kept {
        cpu.set_cc(code);
        next_after(cpu.mask(), 0)
    } else {
        cpu.set_cc(3);
        next_after(cpu.mask(), 8)
    }
}

/// SLA: shifts R1 to the left behind its sign; lost digits overflow.
pub fn shift_left<P: Space>(cpu: &mut Cpu, space: &mut P, it: &Decoded) -> Next
    ensures { Performs P.memory P.bytes (fixed_row Op.SLA it.now.code) cpu.old space.old cpu.new space.new result }
{
    let n = distance(cpu, it);
    let x = signed(cpu.reg(it.first));
    let z = left_by(x, n);
    cpu.set_reg(it.first, with_sign(WORD_SIGN, x, z) as u32);
    set_code(cpu, is_word(z), sign_code(z))
}

/// SRA: shifts R1 to the right, filled with its sign.
pub fn shift_right<P: Space>(cpu: &mut Cpu, space: &mut P, it: &Decoded) -> Next
    ensures { Performs P.memory P.bytes (fixed_row Op.SRA it.now.code) cpu.old space.old cpu.new space.new result }
{
    let n = distance(cpu, it);
    let z = right_by(signed(cpu.reg(it.first)), n);
    cpu.set_reg(it.first, low_word(z));
    cpu.set_cc(sign_code(i128::from(z)));
    Next::On
}

/// SLDA: shifts the pair R1 to the left behind its sign; lost digits overflow.
pub fn shift_left_double<P: Space>(cpu: &mut Cpu, space: &mut P, it: &Decoded) -> Next
    ensures { Performs P.memory P.bytes (fixed_row Op.SLDA it.now.code) cpu.old space.old cpu.new space.new result }
{
    let r = it.first;
    if r % 2 != 0 {
        return Next::Ended(Ending::Abend(6));
    }
    let n = distance(cpu, it);
    let x = cpu.pair(r).cast_signed();
    let z = left_by(x, n);
    cpu.set_pair(r, with_sign(DOUBLE_SIGN, x, z));
    set_code(cpu, is_doubleword(z), sign_code(z))
}

/// SRDA: shifts the pair R1 to the right, filled with its sign.
pub fn shift_right_double<P: Space>(cpu: &mut Cpu, space: &mut P, it: &Decoded) -> Next
    ensures { Performs P.memory P.bytes (fixed_row Op.SRDA it.now.code) cpu.old space.old cpu.new space.new result }
{
    let r = it.first;
    if r % 2 != 0 {
        return Next::Ended(Ending::Abend(6));
    }
    let n = distance(cpu, it);
    let z = right_by(cpu.pair(r).cast_signed(), n);
    cpu.set_pair(r, z.cast_unsigned());
    cpu.set_cc(sign_code(i128::from(z)));
    Next::On
}
