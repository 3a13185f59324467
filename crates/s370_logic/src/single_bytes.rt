//! One byte in storage, and the program mask. Each call does what `logic` does for its operation, refusals too.
#![tactic(auto, using(s370_state::proofs::Laws::at_once, s370_state::proofs::Laws::passes, s370_state::proofs::Laws::refuses))]

ghost use Rattle.std.specs.Prelude.{◌≡◌, ◌+◌, ◌*◌, ◌/◌, ◌%◌, ◌<◌, ◌≤◌, ◌==◌, if◌then◌else◌};
ghost use Rattle.s370_state.specs.Row.{Performs};
ghost use Rattle.s370_logic.specs.Meaning.{mask_code, stores_byte, logic_row};

use cov_base::Addr;
use s370_decode::{Decoded, Op};
use s370_state::{Cpu, Next, Space, byte_of, put_into, test_read, test_store};

/// Stores one byte.
#[inline(always)]
fn store_byte<P: Space>(cpu: &Cpu, space: &mut P, at: Addr, v: u8) -> Next
    ensures { Performs P.memory P.bytes (stores_byte at v) cpu.now space.old cpu.now space.new result }
{
    if let Err(e) = test_store(space, at, 1) {
        return Next::Ended(e);
    }
    put_into(space, at, 0, 1, v);
    Next::On
}

/// IC: loads bits 24-31 of R1 from a byte.
#[inline(always)]
pub fn insert_character<P: Space>(cpu: &mut Cpu, space: &mut P, it: &Decoded) -> Next
    ensures { Performs P.memory P.bytes (logic_row Op.IC it.now.code) cpu.old space.old cpu.new space.new result }
{
    let at = cpu.second_indexed(it);
    if let Err(e) = test_read(space, at, 1) {
        return Next::Ended(e);
    }
    let high = cpu.reg(it.first) / 256 * 256;
    cpu.set_reg(it.first, high + u32::from(byte_of(space, at, 0, 1)));
    Next::On
}

/// STC: stores bits 24-31 of R1 in a byte.
#[inline(always)]
pub fn store_character<P: Space>(cpu: &mut Cpu, space: &mut P, it: &Decoded) -> Next
    ensures { Performs P.memory P.bytes (logic_row Op.STC it.now.code) cpu.old space.old cpu.new space.new result }
{
    let at = cpu.second_indexed(it);
    store_byte(cpu, space, at, (cpu.reg(it.first) % 256) as u8)
}

/// MVI: stores I2 in a byte.
#[inline(always)]
pub fn move_immediate<P: Space>(cpu: &mut Cpu, space: &mut P, it: &Decoded) -> Next
    ensures { Performs P.memory P.bytes (logic_row Op.MVI it.now.code) cpu.old space.old cpu.new space.new result }
{
    let at = cpu.first_based(it);
    store_byte(cpu, space, at, it.code.i2())
}

/// TM: tests the bits of a byte that I2 selects.
#[inline(always)]
pub fn test_under_mask<P: Space>(cpu: &mut Cpu, space: &mut P, it: &Decoded) -> Next
    ensures { Performs P.memory P.bytes (logic_row Op.TM it.now.code) cpu.old space.old cpu.new space.new result }
{
    let at = cpu.first_based(it);
    if let Err(e) = test_read(space, at, 1) {
        return Next::Ended(e);
    }
    let mask = it.code.i2();
    let selected = byte_of(space, at, 0, 1) & mask;
    cpu.set_cc(mask_code(selected, mask));
    Next::On
}

/// The condition code of bits that a mask selects.
fn mask_code(selected: u8, mask: u8) -> u8
    ensures value { result ≡ mask_code selected mask }
    ensures below { result ≤ 3 }
{
    if selected == 0 {
        0
    } else if selected == mask {
        3
    } else {
        1
    }
}

/// TS: tests the leftmost bit of a byte, and stores ones in it.
pub fn test_and_set<P: Space>(cpu: &mut Cpu, space: &mut P, it: &Decoded) -> Next
    ensures { Performs P.memory P.bytes (logic_row Op.TS it.now.code) cpu.old space.old cpu.new space.new result }
{
    let at = cpu.second_based(it);
    if let Err(e) = test_store(space, at, 1) {
        return Next::Ended(e);
    }
    cpu.set_cc(byte_of(space, at, 0, 1) / 128);
    put_into(space, at, 0, 1, 255);
    Next::On
}

/// SPM: loads the condition code and the program mask from R1.
pub fn set_program_mask<P: Space>(cpu: &mut Cpu, space: &mut P, it: &Decoded) -> Next
    ensures { Performs P.memory P.bytes (logic_row Op.SPM it.now.code) cpu.old space.old cpu.new space.new result }
{
    let w = cpu.reg(it.first);
    cpu.set_cc((w / 268_435_456 % 4) as u8);
    cpu.set_mask((w / 16_777_216 % 16) as u8);
    Next::On
}
