//! And, or, and exclusive or.
#![tactic(auto, using(s370_state::proofs::Laws::at_once, s370_state::proofs::Laws::passes, s370_state::proofs::Laws::refuses))]

ghost use Rattle.std.specs.Prelude.{◌≡◌, ◌+◌, ◌<◌, ◌≤◌, ◌^◌, true, ◌==◌, if◌then◌else◌, slice_set, slice_index};
ghost use Rattle.cov_base.specs.Meaning.{can_reach, can_store};
ghost use Rattle.s370_state.specs.Row.{Performs};
ghost use Rattle.s370_logic.specs.Meaning.{zero_code, bytes_joined, are_zero};
ghost use Rattle.s370_logic.specs.Bitwise.{connected, with_result, joins_registers, joins_word, joins_immediate, joins_fields};

use cov_base::Addr;
use s370_decode::Decoded;
use s370_state::{Cpu, Next, Space, byte_of, put_into, read_word, test_store, test_store_read};

/// An operation on the bits of two operands.
#[derive(Clone, Copy, Drop)]
pub enum Connective {
    And,
    Or,
    ExclusiveOr,
}

impl Connective {
    fn of_words(self, x: u32, y: u32) -> u32
        ensures { result ≡ connected self x y }
    {
        match self {
            Connective::And => x & y,
            Connective::Or => x | y,
            Connective::ExclusiveOr => x ^ y,
        }
    }

    fn of_bytes(self, x: u8, y: u8) -> u8
        ensures { result ≡ connected self x y }
    {
        match self {
            Connective::And => x & y,
            Connective::Or => x | y,
            Connective::ExclusiveOr => x ^ y,
        }
    }
}

/// The condition code of a result.
fn zero_code(is_zero: bool) -> u8
    ensures value { result ≡ zero_code is_zero }
    ensures below { result ≤ 1 }
{
    if is_zero { 0 } else { 1 }
}

/// Joins the word to the register.
fn join(cpu: &mut Cpu, r: u8, v: u32, f: Connective) -> Next
    requires { r < 16 }
    ensures cpu { cpu.new ≡ with_result cpu.old r (connected f (slice_index cpu.old.regs r) v) }
    ensures next { result ≡ Next.On }
{
    let w = f.of_words(cpu.reg(r), v);
    cpu.set_reg(r, w);
    cpu.set_cc(zero_code(w == 0));
    Next::On
}

/// Joins n bytes, each to one of the other operand, one at a time and left to right; whether all results are zero.
#[tactic(auto, using(crate::proofs::Steps::joined_none, crate::proofs::Steps::joined_more, crate::proofs::Steps::are_zero_none, crate::proofs::Steps::are_zero_more))]
fn join_bytes<P: Space>(f: Connective, space: &mut P, a: Addr, b: Addr, n: u32) -> bool
    requires store { can_store (P.memory space.old) a n ≡ true }
    requires reach { can_reach (P.memory space.old) a n ≡ true }
    requires reach_second { can_reach (P.memory space.old) b n ≡ true }
    ensures memory { P.memory space.new ≡ P.memory space.old }
    ensures bytes { P.bytes space.new ≡ bytes_joined (connected f) (P.memory space.old) (P.bytes space.old) a b n }
    ensures zero { result ≡ are_zero (connected f) (P.memory space.old) (P.bytes space.old) a b n }
{
    let mut is_zero = true;
    for i in 0..n {
        let v = f.of_bytes(byte_of(space, a, i, n), byte_of(space, b, i, n));
        put_into(space, a, i, n, v);
        is_zero = is_zero && v == 0;
    }
    is_zero
}

/// NR, OR, XR: joins R2 to R1.
pub fn join_registers<P: Space>(cpu: &mut Cpu, space: &mut P, it: &Decoded, f: Connective) -> Next
    ensures { Performs P.memory P.bytes (joins_registers f it.now.code) cpu.old space.old cpu.new space.new result }
{
    join(cpu, it.first, cpu.reg(it.second), f)
}

/// N, O, X: joins a word to R1.
pub fn join_word<P: Space>(cpu: &mut Cpu, space: &mut P, it: &Decoded, f: Connective) -> Next
    ensures { Performs P.memory P.bytes (joins_word f it.now.code) cpu.old space.old cpu.new space.new result }
{
    match read_word(space, cpu.second_indexed(it)) {
        Ok(v) => join(cpu, it.first, v, f),
        Err(e) => Next::Ended(e),
    }
}

/// NI, OI, XI: joins I2 to a byte.
pub fn join_immediate<P: Space>(cpu: &mut Cpu, space: &mut P, it: &Decoded, f: Connective) -> Next
    ensures { Performs P.memory P.bytes (joins_immediate f it.now.code) cpu.old space.old cpu.new space.new result }
{
    let at = cpu.first_based(it);
    if let Err(e) = test_store(space, at, 1) {
        return Next::Ended(e);
    }
    let v = f.of_bytes(byte_of(space, at, 0, 1), it.code.i2());
    put_into(space, at, 0, 1, v);
    cpu.set_cc(zero_code(v == 0));
    Next::On
}

/// NC, OC, XC: joins the second operand to the first, left to right.
pub fn join_fields<P: Space>(cpu: &mut Cpu, space: &mut P, it: &Decoded, f: Connective) -> Next
    ensures { Performs P.memory P.bytes (joins_fields f it.now.code) cpu.old space.old cpu.new space.new result }
{
    let n = u32::from(it.code.i2()) + 1;
    let a = cpu.first_based(it);
    let b = cpu.second_based(it);
    if let Err(e) = test_store_read(space, a, n, b, n) {
        return Next::Ended(e);
    }
    cpu.set_cc(zero_code(join_bytes(f, space, a, b, n)));
    Next::On
}
