//! Signed sums, differences and comparisons. Each call does what `fixed` does for its operation, refusals too.
#![tactic(auto, using(s370_state::proofs::Laws::at_once, s370_state::proofs::Laws::passes, s370_state::proofs::Laws::refuses))]

ghost use Rattle.std.specs.Prelude.{◌≡◌, ◌<◌, ◌≤◌, ℤ, pos, neg_ℤ, ◌+ℤ◌, ◌-ℤ◌, ◌≤ℤ◌, ◌<ℤ◌, if◌then◌else◌, slice_set, slice_index};
ghost use Rattle.std.specs.Ordering.{int_cmp};
ghost use Rattle.s370_state.specs.Meaning.{next_after, signed, order_code};
ghost use Rattle.s370_state.specs.Row.{Performs};
ghost use Rattle.s370_fixed.specs.Meaning.{is_word, fixed_row};
ghost use Rattle.s370_fixed.specs.Results.{signed_in, with_result};

use crate::operands::{half_at, set_result};
use s370_decode::{Decoded, Op};
use s370_state::{Cpu, Next, Space, order_code, read_word, signed};

/// Adds a signed word to the register.
#[inline(always)]
fn add(cpu: &mut Cpu, r: u8, z: i64) -> Next
    requires r { r < 16 }
    requires low { neg_ℤ (pos 2147483648) ≤ℤ z }
    requires high { z <ℤ pos 2147483648 }
    ensures cpu { cpu.new ≡ with_result cpu.old r (signed_in cpu.old r +ℤ z) }
    ensures next { result ≡ next_after cpu.old.mask (if is_word (signed_in cpu.old r +ℤ z) then 0 else 8) }
{
    let sum = signed(cpu.reg(r)) + z;
    set_result(cpu, r, sum)
}

/// Subtracts a signed word from the register.
#[inline(always)]
fn subtract(cpu: &mut Cpu, r: u8, z: i64) -> Next
    requires r { r < 16 }
    requires low { neg_ℤ (pos 2147483648) ≤ℤ z }
    requires high { z <ℤ pos 2147483648 }
    ensures cpu { cpu.new ≡ with_result cpu.old r (signed_in cpu.old r -ℤ z) }
    ensures next { result ≡ next_after cpu.old.mask (if is_word (signed_in cpu.old r -ℤ z) then 0 else 8) }
{
    let difference = signed(cpu.reg(r)) - z;
    set_result(cpu, r, difference)
}

/// Compares the register with a signed word.
#[inline(always)]
fn compare(cpu: &mut Cpu, r: u8, z: i64) -> Next
    requires { r < 16 }
    ensures cpu { cpu.new ≡ record cpu.old { condition = order_code (int_cmp (signed_in cpu.old r) z) } }
    ensures next { result ≡ Next.On }
{
    cpu.set_cc(order_code(signed(cpu.reg(r)).cmp(&z)));
    Next::On
}

/// AR: adds R2 to R1.
#[inline(always)]
pub fn add_register<P: Space>(cpu: &mut Cpu, space: &mut P, it: &Decoded) -> Next
    ensures { Performs P.memory P.bytes (fixed_row Op.AR it.now.code) cpu.old space.old cpu.new space.new result }
{
    add(cpu, it.first, signed(cpu.reg(it.second)))
}

/// A: adds a word to R1.
#[inline(always)]
pub fn add_word<P: Space>(cpu: &mut Cpu, space: &mut P, it: &Decoded) -> Next
    ensures { Performs P.memory P.bytes (fixed_row Op.A it.now.code) cpu.old space.old cpu.new space.new result }
{
    match read_word(space, cpu.second_indexed(it)) {
        Ok(v) => add(cpu, it.first, signed(v)),
        Err(e) => Next::Ended(e),
    }
}

/// AH: adds a halfword, extended by its sign, to R1.
#[inline(always)]
pub fn add_half<P: Space>(cpu: &mut Cpu, space: &mut P, it: &Decoded) -> Next
    ensures { Performs P.memory P.bytes (fixed_row Op.AH it.now.code) cpu.old space.old cpu.new space.new result }
{
    match half_at(space, cpu.second_indexed(it)) {
        Ok(z) => add(cpu, it.first, z),
        Err(e) => Next::Ended(e),
    }
}

/// SR: subtracts R2 from R1.
#[inline(always)]
pub fn subtract_register<P: Space>(cpu: &mut Cpu, space: &mut P, it: &Decoded) -> Next
    ensures { Performs P.memory P.bytes (fixed_row Op.SR it.now.code) cpu.old space.old cpu.new space.new result }
{
    subtract(cpu, it.first, signed(cpu.reg(it.second)))
}

/// S: subtracts a word from R1.
#[inline(always)]
pub fn subtract_word<P: Space>(cpu: &mut Cpu, space: &mut P, it: &Decoded) -> Next
    ensures { Performs P.memory P.bytes (fixed_row Op.S it.now.code) cpu.old space.old cpu.new space.new result }
{
    match read_word(space, cpu.second_indexed(it)) {
        Ok(v) => subtract(cpu, it.first, signed(v)),
        Err(e) => Next::Ended(e),
    }
}

/// SH: subtracts a halfword, extended by its sign, from R1.
#[inline(always)]
pub fn subtract_half<P: Space>(cpu: &mut Cpu, space: &mut P, it: &Decoded) -> Next
    ensures { Performs P.memory P.bytes (fixed_row Op.SH it.now.code) cpu.old space.old cpu.new space.new result }
{
    match half_at(space, cpu.second_indexed(it)) {
        Ok(z) => subtract(cpu, it.first, z),
        Err(e) => Next::Ended(e),
    }
}

/// CR: compares R1 with R2.
#[inline(always)]
pub fn compare_register<P: Space>(cpu: &mut Cpu, space: &mut P, it: &Decoded) -> Next
    ensures { Performs P.memory P.bytes (fixed_row Op.CR it.now.code) cpu.old space.old cpu.new space.new result }
{
    compare(cpu, it.first, signed(cpu.reg(it.second)))
}

/// C: compares R1 with a word.
#[inline(always)]
pub fn compare_word<P: Space>(cpu: &mut Cpu, space: &mut P, it: &Decoded) -> Next
    ensures { Performs P.memory P.bytes (fixed_row Op.C it.now.code) cpu.old space.old cpu.new space.new result }
{
    match read_word(space, cpu.second_indexed(it)) {
        Ok(v) => compare(cpu, it.first, signed(v)),
        Err(e) => Next::Ended(e),
    }
}

/// CH: compares R1 with a halfword, extended by its sign.
#[inline(always)]
pub fn compare_half<P: Space>(cpu: &mut Cpu, space: &mut P, it: &Decoded) -> Next
    ensures { Performs P.memory P.bytes (fixed_row Op.CH it.now.code) cpu.old space.old cpu.new space.new result }
{
    match half_at(space, cpu.second_indexed(it)) {
        Ok(z) => compare(cpu, it.first, z),
        Err(e) => Next::Ended(e),
    }
}
