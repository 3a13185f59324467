//! Comparisons without signs.
#![tactic(auto, using(s370_state::proofs::Laws::at_once, s370_state::proofs::Laws::passes, s370_state::proofs::Laws::refuses))]

ghost use Rattle.std.specs.Prelude.{◌≡◌, ℕ, ◌+◌, ◌<◌, ◌≤◌, true, ◌==◌, if◌then◌else◌, length, slice_index};
ghost use Rattle.std.specs.Ordering.{nat_cmp};
ghost use Rattle.cov_base.specs.Meaning.{can_reach};
ghost use Rattle.s370_state.specs.Row.{Attempts, Performs};
ghost use Rattle.s370_state.specs.Fields.{AreBytes};
ghost use Rattle.s370_state.specs.Meaning.{order_code};
ghost use Rattle.s370_logic.specs.Meaning.{compared, logic_row};

use cov_base::Addr;
use s370_decode::{Decoded, Op};
use s370_state::{
    Cpu, Next, Space, byte_of, doubleword, order_code, read_word, reads_both_own, test_read,
    test_read_both,
};

/// Compares the register with a word.
fn compare(cpu: &mut Cpu, r: u8, v: u32) -> Next
    requires { r < 16 }
    ensures cpu { cpu.new ≡ record cpu.old { condition = order_code (nat_cmp (slice_index cpu.old.regs r) v) } }
    ensures next { result ≡ Next.On }
{
    cpu.set_cc(order_code(cpu.reg(r).cmp(&v)));
    Next::On
}

/// Compares n bytes that stand in rows, eight at once, up to the first unequal pair: of two numbers of eight bytes the one whose
/// first unequal byte is greater is greater.
#[inline(always)]
#[tactic(auto, using(crate::proofs::Steps::compared_none))]
fn compare_rows<P: Space>(_space: &P, a: Addr, b: Addr, n: u32, x: &[u8], y: &[u8]) -> u8
    requires first { AreBytes (P.memory _space.now) (P.bytes _space.now) a n x.now }
    requires second { AreBytes (P.memory _space.now) (P.bytes _space.now) b n y.now }
    ensures value { result ≡ compared (P.memory _space.now) (P.bytes _space.now) a b n }
    ensures below { result ≤ 2 }
{
    let eights = n as usize / 8;
    for k in 0..eights {
        let (first, second) = (doubleword(x, 8 * k), doubleword(y, 8 * k));
        if first != second {
            return order_code(first.cmp(&second));
        }
    }
    for i in 8 * eights..n as usize {
        if x[i] != y[i] {
            return order_code(x[i].cmp(&y[i]));
        }
    }
    0
}

/// Compares n bytes, left to right, up to the first unequal pair.
#[cold]
#[inline(never)]
#[tactic(auto, using(crate::proofs::Steps::compared_none, crate::proofs::Steps::compared_more, crate::proofs::Steps::compared_decided))]
fn compare_bytes<P: Space>(space: &P, a: Addr, b: Addr, n: u32) -> u8
    requires reach { can_reach (P.memory space.now) a n ≡ true }
    requires reach_second { can_reach (P.memory space.now) b n ≡ true }
    ensures value { result ≡ compared (P.memory space.now) (P.bytes space.now) a b n }
    ensures below { result ≤ 2 }
{
    for i in 0..n {
        let (first, second) = (byte_of(space, a, i, n), byte_of(space, b, i, n));
        let code = order_code(first.cmp(&second));
        if code != 0 {
            return code;
        }
    }
    0
}

/// Compares n bytes, where they stand in rows by these.
#[inline(always)]
fn compare_operands<P: Space>(space: &P, a: Addr, b: Addr, n: u32) -> u8
    requires reach { can_reach (P.memory space.now) a n ≡ true }
    requires reach_second { can_reach (P.memory space.now) b n ≡ true }
    ensures value { result ≡ compared (P.memory space.now) (P.bytes space.now) a b n }
    ensures below { result ≤ 2 }
{
    match space.slice(a, n) {
        Some(x) => match space.slice(b, n) {
            Some(y) => compare_rows(space, a, b, n, x, y),
            None => compare_bytes(space, a, b, n),
        },
        None => compare_bytes(space, a, b, n),
    }
}

/// CLR: compares R1 with R2.
pub fn compare_registers<P: Space>(cpu: &mut Cpu, space: &mut P, it: &Decoded) -> Next
    ensures { Performs P.memory P.bytes (logic_row Op.CLR it.now.code) cpu.old space.old cpu.new space.new result }
{
    compare(cpu, it.first, cpu.reg(it.second))
}

/// CL: compares R1 with a word.
pub fn compare_word<P: Space>(cpu: &mut Cpu, space: &mut P, it: &Decoded) -> Next
    ensures { Performs P.memory P.bytes (logic_row Op.CL it.now.code) cpu.old space.old cpu.new space.new result }
{
    match read_word(space, cpu.second_indexed(it)) {
        Ok(v) => compare(cpu, it.first, v),
        Err(e) => Next::Ended(e),
    }
}

/// CLI: compares a byte with I2.
#[inline(always)]
pub fn compare_immediate<P: Space>(cpu: &mut Cpu, space: &mut P, it: &Decoded) -> Next
    ensures { Performs P.memory P.bytes (logic_row Op.CLI it.now.code) cpu.old space.old cpu.new space.new result }
{
    let at = cpu.first_based(it);
    if let Err(e) = test_read(space, at, 1) {
        return Next::Ended(e);
    }
    let byte = byte_of(space, at, 0, 1);
    cpu.set_cc(order_code(byte.cmp(&it.code.i2())));
    Next::On
}

/// CLC where both operands are seen at once to lie in private storage. Else it is false, and nothing is done.
#[inline(always)]
pub fn compare_fields_own<P: Space>(cpu: &mut Cpu, space: &mut P, it: &Decoded) -> bool
    ensures { Attempts P.memory P.bytes (logic_row Op.CLC it.now.code) cpu.old space.old cpu.new space.new result }
{
    let n = u32::from(it.code.i2()) + 1;
    let (a, b) = (cpu.first_based(it), cpu.second_based(it));
    if !reads_both_own(space, a, n, b, n) {
        return false;
    }
    match space.slice(a, n) {
        Some(x) => match space.slice(b, n) {
            Some(y) => {
                cpu.set_cc(compare_rows(space, a, b, n, x, y));
                true
            }
            None => false,
        },
        None => false,
    }
}

/// CLC: compares the operands, left to right.
#[inline(always)]
pub fn compare_fields<P: Space>(cpu: &mut Cpu, space: &mut P, it: &Decoded) -> Next
    ensures { Performs P.memory P.bytes (logic_row Op.CLC it.now.code) cpu.old space.old cpu.new space.new result }
{
    let n = u32::from(it.code.i2()) + 1;
    let a = cpu.first_based(it);
    let b = cpu.second_based(it);
    if let Err(e) = test_read_both(space, a, n, b, n) {
        return Next::Ended(e);
    }
    cpu.set_cc(compare_operands(space, a, b, n));
    Next::On
}
