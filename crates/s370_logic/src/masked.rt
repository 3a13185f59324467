//! Bytes of a register under a mask.
#![tactic(auto, using(s370_state::proofs::Laws::at_once, s370_state::proofs::Laws::passes, s370_state::proofs::Laws::refuses, crate::proofs::Masks::size_most))]

ghost use Rattle.std.specs.Prelude.{◌≡◌, ◌+◌, ◌-◌, ◌*◌, ◌/◌, ◌%◌, ◌<◌, ◌≤◌, ◌^◌, true, ◌==◌, if◌then◌else◌};
ghost use Rattle.cov_base.specs.Meaning.{can_reach, can_store, byte_at};
ghost use Rattle.s370_state.specs.Row.{Performs};
ghost use Rattle.s370_state.specs.Meaning.{number_at, store_number};
ghost use Rattle.s370_logic.specs.Meaning.{size, gathered, inserted, insert_code, logic_row};

use cov_base::Addr;
use s370_decode::{Decoded, Op};
use s370_state::{Cpu, Next, Space, byte_of, order_code, put_into, test_read, test_store};

/// The operand's length: how many bytes the mask selects.
fn size(it: &Decoded) -> u32
    ensures value { result ≡ size it.now.code }
    ensures most { result ≤ 4 }
{
    it.second.count_ones()
}

/// Of a word's k right bytes, the number that those make which the mask's k right bits select.
#[tactic(auto, using(crate::proofs::Masks::gathered_none, crate::proofs::Masks::gathered_more, crate::proofs::Masks::gathered_past))]
fn gathered(k: u8, mask: u8, w: u32) -> u32
    ensures value { result ≡ gathered k mask w }
    ensures most { result ≤ w }
{
    if k == 0 {
        return 0;
    }
    let high = gathered(k - 1, mask / 2, w / 256);
    if mask % 2 == 1 {
        high * 256 + w % 256
    } else {
        high
    }
}

/// These k bytes with the bytes of v, right to left, in the places that the mask selects.
#[tactic(auto, using(crate::proofs::Masks::inserted_none, crate::proofs::Masks::inserted_more, crate::proofs::Masks::inserted_past))]
fn inserted(k: u8, mask: u8, w: u32, v: u32) -> u32
    requires { k ≤ 4 }
    ensures value { result ≡ inserted k mask w v }
    ensures below { result < 256 ^ k }
{
    if k == 0 {
        return 0;
    }
    if mask % 2 == 1 {
        inserted(k - 1, mask / 2, w / 256, v / 256) * 256 + v % 256
    } else {
        inserted(k - 1, mask / 2, w / 256, v) * 256 + w % 256
    }
}

/// The number of an operand's n bytes.
#[tactic(auto, using(crate::proofs::Masks::number_none, crate::proofs::Masks::number_more))]
fn number_of<P: Space>(space: &P, at: Addr, n: u32) -> u32
    requires most { n ≤ 4 }
    requires reach { can_reach (P.memory space.now) at n ≡ true }
    ensures { result ≡ number_at (P.memory space.now) (P.bytes space.now) at n }
{
    let mut v: u32 = 0;
    for i in 0..n {
        v = v * 256 + u32::from(byte_of(space, at, i, n));
    }
    v
}

/// The n bytes of an operand become the low bytes of a number.
#[tactic(auto, using(crate::proofs::Masks::store_none, crate::proofs::Masks::store_more))]
fn put_number<P: Space>(space: &mut P, at: Addr, n: u32, v: u32)
    requires store { can_store (P.memory space.old) at n ≡ true }
    ensures memory { P.memory space.new ≡ P.memory space.old }
    ensures bytes { P.bytes space.new ≡ store_number (P.bytes space.old) at n v }
{
    let mut rest = v;
    for i in 0..n {
        put_into(space, at, n - 1 - i, n, (rest % 256) as u8);
        rest /= 256;
    }
}

/// The condition code of an operand's n bytes, whose number is v, when they are inserted.
#[tactic(auto, using(crate::proofs::Masks::number_none))]
fn insert_code<P: Space>(space: &P, at: Addr, n: u32, v: u32) -> u8
    requires reach { can_reach (P.memory space.now) at n ≡ true }
    requires number { v ≡ number_at (P.memory space.now) (P.bytes space.now) at n }
    ensures value { result ≡ insert_code v (byte_at (P.memory space.now) (P.bytes space.now) at) }
    ensures below { result ≤ 2 }
{
    if n == 0 || v == 0 {
        0
    } else if byte_of(space, at, 0, n) >= 128 {
        1
    } else {
        2
    }
}

/// ICM: inserts bytes into the places of R1 that the mask selects.
pub fn insert_under_mask<P: Space>(cpu: &mut Cpu, space: &mut P, it: &Decoded) -> Next
    ensures { Performs P.memory P.bytes (logic_row Op.ICM it.now.code) cpu.old space.old cpu.new space.new result }
{
    let at = cpu.second_based(it);
    let n = size(it);
    if let Err(e) = test_read(space, at, n) {
        return Next::Ended(e);
    }
    let v = number_of(space, at, n);
    let r = it.first;
    cpu.set_reg(r, inserted(4, it.second, cpu.reg(r), v));
    cpu.set_cc(insert_code(space, at, n, v));
    Next::On
}

/// STCM: stores the bytes of R1 that the mask selects.
pub fn store_under_mask<P: Space>(cpu: &mut Cpu, space: &mut P, it: &Decoded) -> Next
    ensures { Performs P.memory P.bytes (logic_row Op.STCM it.now.code) cpu.old space.old cpu.new space.new result }
{
    let at = cpu.second_based(it);
    let n = size(it);
    if let Err(e) = test_store(space, at, n) {
        return Next::Ended(e);
    }
    let v = gathered(4, it.second, cpu.reg(it.first));
    put_number(space, at, n, v);
    Next::On
}

/// CLM: compares the bytes of R1 that the mask selects with as many in storage.
pub fn compare_under_mask<P: Space>(cpu: &mut Cpu, space: &mut P, it: &Decoded) -> Next
    ensures { Performs P.memory P.bytes (logic_row Op.CLM it.now.code) cpu.old space.old cpu.new space.new result }
{
    let at = cpu.second_based(it);
    let n = size(it);
    if let Err(e) = test_read(space, at, n) {
        return Next::Ended(e);
    }
    let first = gathered(4, it.second, cpu.reg(it.first));
    cpu.set_cc(order_code(first.cmp(&number_of(space, at, n))));
    Next::On
}
