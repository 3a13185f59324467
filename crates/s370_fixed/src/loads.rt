//! Loads and stores of one register, and complements. Each call does what `fixed` does for its operation, refusals too.
#![tactic(auto, using(s370_state::proofs::Laws::at_once, s370_state::proofs::Laws::passes, s370_state::proofs::Laws::refuses))]

ghost use Rattle.std.specs.Prelude.{◌≡◌, ◌<◌, ◌≤◌, ℤ, pos, neg_ℤ, ◌≤ℤ◌, ◌<ℤ◌, if◌then◌else◌};
ghost use Rattle.std.specs.Int.RustNames.{unsigned_abs};
ghost use Rattle.s370_state.specs.Row.{Performs};
ghost use Rattle.s370_fixed.specs.Meaning.{fixed_row};

use crate::operands::{half_at, load, set_result};
use crate::words::{low_word, sign_code};
use s370_decode::{Decoded, Op};
use s370_state::{Cpu, Next, Space, put_into, put_word, read_word, signed, test_store};

/// The magnitude of a register's number.
fn magnitude(z: i64) -> i64
    requires low { neg_ℤ (pos 2147483648) ≤ℤ z }
    requires high { z <ℤ pos 2147483648 }
    ensures value { result ≡ pos (unsigned_abs z) }
    ensures most { result ≤ℤ pos 2147483648 }
{
    if z < 0 { -z } else { z }
}

/// LR: loads R1 from R2.
#[inline(always)]
pub fn load_register<P: Space>(cpu: &mut Cpu, space: &mut P, it: &Decoded) -> Next
    ensures { Performs P.memory P.bytes (fixed_row Op.LR it.now.code) cpu.old space.old cpu.new space.new result }
{
    load(cpu, it.first, cpu.reg(it.second))
}

/// L: loads R1 from a word.
#[inline(always)]
pub fn load_word<P: Space>(cpu: &mut Cpu, space: &mut P, it: &Decoded) -> Next
    ensures { Performs P.memory P.bytes (fixed_row Op.L it.now.code) cpu.old space.old cpu.new space.new result }
{
    match read_word(space, cpu.second_indexed(it)) {
        Ok(v) => load(cpu, it.first, v),
        Err(e) => Next::Ended(e),
    }
}

/// LH: loads R1 from a halfword, extended by its sign.
#[inline(always)]
pub fn load_half<P: Space>(cpu: &mut Cpu, space: &mut P, it: &Decoded) -> Next
    ensures { Performs P.memory P.bytes (fixed_row Op.LH it.now.code) cpu.old space.old cpu.new space.new result }
{
    match half_at(space, cpu.second_indexed(it)) {
        Ok(z) => load(cpu, it.first, low_word(z)),
        Err(e) => Next::Ended(e),
    }
}

/// LTR: loads R1 from R2, and tells its sign by the condition code.
#[inline(always)]
pub fn load_and_test<P: Space>(cpu: &mut Cpu, space: &mut P, it: &Decoded) -> Next
    ensures { Performs P.memory P.bytes (fixed_row Op.LTR it.now.code) cpu.old space.old cpu.new space.new result }
{
    let v = cpu.reg(it.second);
    cpu.set_reg(it.first, v);
    cpu.set_cc(sign_code(i128::from(signed(v))));
    Next::On
}

/// LCR: loads R1 with the complement of R2; that of -2^31 overflows.
#[inline(always)]
pub fn load_complement<P: Space>(cpu: &mut Cpu, space: &mut P, it: &Decoded) -> Next
    ensures { Performs P.memory P.bytes (fixed_row Op.LCR it.now.code) cpu.old space.old cpu.new space.new result }
{
    set_result(cpu, it.first, -signed(cpu.reg(it.second)))
}

/// LPR: loads R1 with the magnitude of R2; that of -2^31 overflows.
#[inline(always)]
pub fn load_positive<P: Space>(cpu: &mut Cpu, space: &mut P, it: &Decoded) -> Next
    ensures { Performs P.memory P.bytes (fixed_row Op.LPR it.now.code) cpu.old space.old cpu.new space.new result }
{
    set_result(cpu, it.first, magnitude(signed(cpu.reg(it.second))))
}

/// LNR: loads R1 with the magnitude of R2 made negative.
#[inline(always)]
pub fn load_negative<P: Space>(cpu: &mut Cpu, space: &mut P, it: &Decoded) -> Next
    ensures { Performs P.memory P.bytes (fixed_row Op.LNR it.now.code) cpu.old space.old cpu.new space.new result }
{
    set_result(cpu, it.first, -magnitude(signed(cpu.reg(it.second))))
}

/// LA: loads R1 with the second operand's address, and zeros in bits 0-7; no operand is tested.
#[inline(always)]
pub fn load_address<P: Space>(cpu: &mut Cpu, space: &mut P, it: &Decoded) -> Next
    ensures { Performs P.memory P.bytes (fixed_row Op.LA it.now.code) cpu.old space.old cpu.new space.new result }
{
    load(cpu, it.first, cpu.second_indexed(it).get())
}

/// ST: stores R1 in a word.
#[inline(always)]
pub fn store_word<P: Space>(cpu: &mut Cpu, space: &mut P, it: &Decoded) -> Next
    ensures { Performs P.memory P.bytes (fixed_row Op.ST it.now.code) cpu.old space.old cpu.new space.new result }
{
    let at = cpu.second_indexed(it);
    if let Err(e) = test_store(space, at, 4) {
        return Next::Ended(e);
    }
    put_word(space, at, 0, 4, cpu.reg(it.first));
    Next::On
}

/// STH: stores bits 16-31 of R1 in a halfword.
#[inline(always)]
#[tactic(auto, using(s370_state::proofs::Laws::passes, s370_state::proofs::Laws::refuses, crate::proofs::Halves::half_stored))]
pub fn store_half<P: Space>(cpu: &mut Cpu, space: &mut P, it: &Decoded) -> Next
    ensures { Performs P.memory P.bytes (fixed_row Op.STH it.now.code) cpu.old space.old cpu.new space.new result }
{
    let at = cpu.second_indexed(it);
    if let Err(e) = test_store(space, at, 2) {
        return Next::Ended(e);
    }
    let v = cpu.reg(it.first);
    put_into(space, at, 1, 2, (v % 256) as u8);
    put_into(space, at, 0, 2, (v / 256 % 256) as u8);
    Next::On
}
