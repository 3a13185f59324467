//! Sums, differences and shifts without signs. Each call does what `logic` does for its operation, refusals too.
#![tactic(auto, using(s370_state::proofs::Laws::at_once, s370_state::proofs::Laws::passes, s370_state::proofs::Laws::refuses, s370_state::proofs::Laws::ill_formed, s370_state::proofs::Laws::well_at_once))]

ghost use Rattle.std.specs.Prelude.{◌≡◌, ◌+◌, ◌-◌, ◌*◌, ◌/◌, ◌%◌, ◌^◌, ◌<◌, ◌≤◌, if◌then◌else◌, slice_set, slice_index};
ghost use Rattle.s370_state.specs.Row.{Performs};
ghost use Rattle.s370_decode.specs.Meaning.{e2};
ghost use Rattle.s370_logic.specs.Meaning.{logic_row};
ghost use Rattle.s370_logic.specs.Unsigned.{with_sum};

use s370_decode::{Decoded, Op};
use s370_state::{Cpu, Ending, Next, Space, read_word};

/// The low word of a sum without signs goes to the register, with its condition code.
#[inline(always)]
fn set_sum(cpu: &mut Cpu, r: u8, n: u64) -> Next
    requires r { r < 16 }
    requires carry { n < 8589934592 }
    ensures cpu { cpu.new ≡ with_sum cpu.old r n }
    ensures next { result ≡ Next.On }
{
    let low = (n % 4_294_967_296) as u32;
    let not_zero = if low == 0 { 0 } else { 1 };
    let carry = if n < 4_294_967_296 { 0 } else { 2 };
    cpu.set_reg(r, low);
    cpu.set_cc(not_zero + carry);
    Next::On
}

#[inline(always)]
fn add_unsigned(cpu: &mut Cpu, r: u8, v: u32) -> Next
    requires { r < 16 }
    ensures cpu { cpu.new ≡ with_sum cpu.old r (slice_index cpu.old.regs r + v) }
    ensures next { result ≡ Next.On }
{
    let n = u64::from(cpu.reg(r)) + u64::from(v);
    set_sum(cpu, r, n)
}

/// Adds the one's complement and 1.
#[inline(always)]
fn subtract_unsigned(cpu: &mut Cpu, r: u8, v: u32) -> Next
    requires { r < 16 }
    ensures cpu { cpu.new ≡ with_sum cpu.old r (slice_index cpu.old.regs r + (4294967295 - v) + 1) }
    ensures next { result ≡ Next.On }
{
    let n = u64::from(cpu.reg(r)) + (4_294_967_295 - u64::from(v)) + 1;
    set_sum(cpu, r, n)
}

/// ALR: adds R2 to R1 without signs.
#[inline(always)]
pub fn add_logical_register<P: Space>(cpu: &mut Cpu, space: &mut P, it: &Decoded) -> Next
    ensures { Performs P.memory P.bytes (logic_row Op.ALR it.now.code) cpu.old space.old cpu.new space.new result }
{
    add_unsigned(cpu, it.first, cpu.reg(it.second))
}

/// AL: adds a word to R1 without signs.
#[inline(always)]
pub fn add_logical_word<P: Space>(cpu: &mut Cpu, space: &mut P, it: &Decoded) -> Next
    ensures { Performs P.memory P.bytes (logic_row Op.AL it.now.code) cpu.old space.old cpu.new space.new result }
{
    match read_word(space, cpu.second_indexed(it)) {
        Ok(v) => add_unsigned(cpu, it.first, v),
        Err(e) => Next::Ended(e),
    }
}

/// SLR: subtracts R2 from R1 without signs.
#[inline(always)]
pub fn subtract_logical_register<P: Space>(cpu: &mut Cpu, space: &mut P, it: &Decoded) -> Next
    ensures { Performs P.memory P.bytes (logic_row Op.SLR it.now.code) cpu.old space.old cpu.new space.new result }
{
    subtract_unsigned(cpu, it.first, cpu.reg(it.second))
}

/// SL: subtracts a word from R1 without signs.
#[inline(always)]
pub fn subtract_logical_word<P: Space>(cpu: &mut Cpu, space: &mut P, it: &Decoded) -> Next
    ensures { Performs P.memory P.bytes (logic_row Op.SL it.now.code) cpu.old space.old cpu.new space.new result }
{
    match read_word(space, cpu.second_indexed(it)) {
        Ok(v) => subtract_unsigned(cpu, it.first, v),
        Err(e) => Next::Ended(e),
    }
}

/// How far the shift goes, 0 to 63.
fn distance(cpu: &Cpu, it: &Decoded) -> u32
    ensures value { result ≡ e2 cpu.now it.now.code % 64 }
    ensures below { result < 64 }
{
    cpu.second_based(it).get() % 64
}

/// SLL: shifts R1 to the left, without a sign.
pub fn shift_left_logical<P: Space>(cpu: &mut Cpu, space: &mut P, it: &Decoded) -> Next
    ensures { Performs P.memory P.bytes (logic_row Op.SLL it.now.code) cpu.old space.old cpu.new space.new result }
{
    let n = distance(cpu, it);
    let v = u64::from(cpu.reg(it.first)) << n;
    cpu.set_reg(it.first, (v % 4_294_967_296) as u32);
    Next::On
}

/// SRL: shifts R1 to the right, without a sign.
pub fn shift_right_logical<P: Space>(cpu: &mut Cpu, space: &mut P, it: &Decoded) -> Next
    ensures { Performs P.memory P.bytes (logic_row Op.SRL it.now.code) cpu.old space.old cpu.new space.new result }
{
    let n = distance(cpu, it);
    let v = u64::from(cpu.reg(it.first)) >> n;
    cpu.set_reg(it.first, v as u32);
    Next::On
}

/// SLDL: shifts the pair R1 to the left, without a sign.
pub fn shift_left_double_logical<P: Space>(cpu: &mut Cpu, space: &mut P, it: &Decoded) -> Next
    ensures { Performs P.memory P.bytes (logic_row Op.SLDL it.now.code) cpu.old space.old cpu.new space.new result }
{
    let r = it.first;
    if r % 2 != 0 {
        return Next::Ended(Ending::Abend(6));
    }
    let n = distance(cpu, it);
    cpu.set_pair(r, cpu.pair(r) << n);
    Next::On
}

/// SRDL: shifts the pair R1 to the right, without a sign.
pub fn shift_right_double_logical<P: Space>(cpu: &mut Cpu, space: &mut P, it: &Decoded) -> Next
    ensures { Performs P.memory P.bytes (logic_row Op.SRDL it.now.code) cpu.old space.old cpu.new space.new result }
{
    let r = it.first;
    if r % 2 != 0 {
        return Next::Ended(Ending::Abend(6));
    }
    let n = distance(cpu, it);
    cpu.set_pair(r, cpu.pair(r) >> n);
    Next::On
}
