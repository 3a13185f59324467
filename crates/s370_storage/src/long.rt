//! Moves and comparisons of long operands, whose addresses and lengths are in registers.
#![tactic(auto, using(s370_state::proofs::Laws::ill_formed, s370_state::proofs::Laws::well_at_once, s370_state::proofs::Laws::well_passes, s370_state::proofs::Laws::well_refuses))]

ghost use Rattle.std.specs.Prelude.{◌≡◌, ◌+◌, ◌-◌, ◌*◌, ◌/◌, ◌%◌, ◌<◌, ◌≤◌, ◌^◌, Some, None, true, false, min, max, ◌&&◌, if◌then◌else◌};
ghost use Rattle.cov_base.specs.Meaning.{can_reach, can_store};
ghost use Rattle.s370_state.specs.Meaning.{is_even};
ghost use Rattle.s370_state.specs.Row.{Performs};
ghost use Rattle.s370_state.specs.Parts.{Follows};
ghost use Rattle.s370_storage.specs.Meaning.{long, passed, lesser, overlaps, padded_bytes, long_moved, moves_apart, long_moves, extended, unequal, compares, long_compares, storage_row};
ghost use Rattle.s370_storage.specs.Tested.{InPairs};

use cov_base::Addr;
use s370_decode::{Decoded, Op};
use s370_state::{
    Cpu, Ending, Next, Space, byte_of, order_code, put_into, test_read_both, test_store_read,
};

/// Two operands, each below 2^24 bytes long, and the padding byte.
#[derive(Drop)]
pub struct Long {
    pub first: Addr,
    pub first_length: u32,
    pub second: Addr,
    pub second_length: u32,
    pub padding: u8,
}

/// The operands as the registers give them.
fn long_of(cpu: &Cpu, r: u8, q: u8) -> Long
    requires r { r < 15 }
    requires q { q < 15 }
    ensures operands { result ≡ long cpu.now.regs r q }
    ensures pairs { InPairs r q result }
{
    Long {
        first: Addr::of(cpu.reg(r)),
        first_length: cpu.reg(r + 1) % 16_777_216,
        second: Addr::of(cpu.reg(q)),
        second_length: cpu.reg(q + 1) % 16_777_216,
        padding: (cpu.reg(q + 1) / 16_777_216) as u8,
    }
}

/// Passes j bytes of the first operand and k of the second; the addresses get zeros in bits 0-7, and what stands
/// beside the lengths stays.
fn pass(cpu: &mut Cpu, r: u8, q: u8, o: &Long, j: u32, k: u32)
    requires pairs { InPairs r q o.now }
    requires j { j ≤ o.now.first_length }
    requires k { k ≤ o.now.second_length }
    ensures { cpu.new ≡ record cpu.old { regs = passed cpu.old.regs r q o.now j k } }
{
    let high_first = cpu.reg(r + 1) / 16_777_216 * 16_777_216;
    let high_second = cpu.reg(q + 1) / 16_777_216 * 16_777_216;
    cpu.set_reg(r, o.first.plus(j).get());
    cpu.set_reg(r + 1, high_first + (o.first_length - j));
    cpu.set_reg(q, o.second.plus(k).get());
    cpu.set_reg(q + 1, high_second + (o.second_length - k));
}

/// Whether both registers begin pairs.
fn are_even(r: u8, q: u8) -> bool
    ensures { result ≡ (is_even r && is_even q) }
{
    r % 2 == 0 && q % 2 == 0
}

/// Whether a byte of the second operand would be moved after it was stored into.
#[tactic(auto, unfolding(crate::specs::Meaning::overlaps))]
fn overlaps(o: &Long) -> bool
    ensures { result ≡ overlaps o.now }
{
    let apart = o.first.plus(16_777_216 - o.second.get()).get();
    0 < apart && apart < o.first_length.min(o.second_length)
}

/// Pads the first operand behind what was moved.
#[tactic(auto, using(crate::proofs::LongSteps::padded_none, crate::proofs::LongSteps::padded_more))]
fn fill<P: Space>(space: &mut P, o: &Long)
    requires { can_store (P.memory space.old) o.now.first o.now.first_length ≡ true }
    ensures memory { P.memory space.new ≡ P.memory space.old }
    ensures bytes { P.bytes space.new ≡ padded_bytes (P.bytes space.old) o.now (o.now.first_length - lesser o.now) }
{
    let n = o.first_length.min(o.second_length);
    for k in 0..o.first_length - n {
        put_into(space, o.first, n + k, o.first_length, o.padding);
    }
}

/// Moves as many bytes as both operands have, and pads the rest of the first.
#[tactic(auto, using(s370_state::proofs::Laws::store_prefix, crate::proofs::LongSteps::reach_prefix, crate::proofs::Steps::moved_copied))]
fn move_and_fill<P: Space>(space: &mut P, o: &Long)
    requires store { can_store (P.memory space.old) o.now.first o.now.first_length ≡ true }
    requires reach { can_reach (P.memory space.old) o.now.first o.now.first_length ≡ true }
    requires reach_second { can_reach (P.memory space.old) o.now.second (lesser o.now) ≡ true }
    ensures memory { P.memory space.new ≡ P.memory space.old }
    ensures bytes { P.bytes space.new ≡ long_moved (P.memory space.old) (P.bytes space.old) o.now }
{
    let n = o.first_length.min(o.second_length);
    space.copy(o.first, o.second, n);
    fill(space, o);
}

/// Moves operands that do not overlap so that a byte is moved after it was stored into.
fn move_apart<P: Space>(cpu: &mut Cpu, space: &mut P, r: u8, q: u8, o: &Long) -> Next
    requires pairs { InPairs r q o.now }
    requires even { (is_even r && is_even q) ≡ true }
    ensures { Performs P.memory P.bytes (moves_apart r q o.now) cpu.old space.old cpu.new space.new result }
{
    let n = o.first_length.min(o.second_length);
    if let Err(e) = test_store_read(space, o.first, o.first_length, o.second, n) {
        return Next::Ended(e);
    }
    move_and_fill(space, o);
    pass(cpu, r, q, o, o.first_length, n);
    cpu.set_cc(order_code(o.first_length.cmp(&o.second_length)));
    Next::On
}

/// MVCL with both registers even: the move, or condition code 3 alone where the operands overlap.
fn move_even<P: Space>(cpu: &mut Cpu, space: &mut P, r: u8, q: u8) -> Next
    requires r { r < 16 }
    requires q { q < 16 }
    requires even { (is_even r && is_even q) ≡ true }
    ensures { Performs P.memory P.bytes (long_moves r q) cpu.old space.old cpu.new space.new result }
{
    let o = long_of(cpu, r, q);
    if overlaps(&o) {
        cpu.set_cc(3);
        Next::On
    } else {
        move_apart(cpu, space, r, q, &o)
    }
}

/// MVCL: moves a long operand, and pads what it does not fill.
pub fn move_long<P: Space>(cpu: &mut Cpu, space: &mut P, it: &Decoded) -> Next
    ensures { Performs P.memory P.bytes (storage_row Op.MVCL it.now.code) cpu.old space.old cpu.new space.new result }
{
    let (r, q) = (it.first, it.second);
    if !are_even(r, q) {
        return Next::Ended(Ending::Abend(6));
    }
    move_even(cpu, space, r, q)
}

/// Byte i of an operand of n bytes at a, which padding extends.
fn extended<P: Space>(space: &P, a: Addr, n: u32, padding: u8, i: u32) -> u8
    requires { can_reach (P.memory space.now) a n ≡ true }
    ensures { result ≡ extended (P.memory space.now) (P.bytes space.now) a n padding i }
{
    if i < n {
        byte_of(space, a, i, n)
    } else {
        padding
    }
}

/// The first pair of unequal bytes.
#[tactic(auto, using(crate::proofs::LongSteps::unequal_none, crate::proofs::LongSteps::unequal_more, crate::proofs::LongSteps::unequal_here))]
fn unequal<P: Space>(space: &P, o: &Long) -> Option<u32>
    requires first { can_reach (P.memory space.now) o.now.first o.now.first_length ≡ true }
    requires second { can_reach (P.memory space.now) o.now.second o.now.second_length ≡ true }
    ensures { result ≡ unequal (P.memory space.now) (P.bytes space.now) o.now (max o.now.first_length o.now.second_length) }
{
    for i in 0..o.first_length.max(o.second_length) {
        let first = extended(space, o.first, o.first_length, o.padding, i);
        let second = extended(space, o.second, o.second_length, o.padding, i);
        if first != second {
            return Some(i);
        }
    }
    None
}

/// The registers and the condition code by the unequal pair, if any.
fn set_compared<P: Space>(cpu: &mut Cpu, space: &P, r: u8, q: u8, o: &Long, unequal: Option<u32>)
    requires pairs { InPairs r q o.now }
    requires reach { can_reach (P.memory space.now) o.now.first o.now.first_length ≡ true }
    requires reach_second { can_reach (P.memory space.now) o.now.second o.now.second_length ≡ true }
    ensures { Follows P.memory P.bytes (λ m s. compares m s r q o.now unequal) cpu.old space.now cpu.new space.now Next.On }
{
    match unequal {
        None => {
            pass(cpu, r, q, o, o.first_length, o.second_length);
            cpu.set_cc(0);
        }
        Some(i) => {
            pass(cpu, r, q, o, i.min(o.first_length), i.min(o.second_length));
            let first = extended(space, o.first, o.first_length, o.padding, i);
            let second = extended(space, o.second, o.second_length, o.padding, i);
            cpu.set_cc(order_code(first.cmp(&second)));
        }
    }
}

/// CLCL with both registers even.
fn compare_even<P: Space>(cpu: &mut Cpu, space: &mut P, r: u8, q: u8) -> Next
    requires r { r < 16 }
    requires q { q < 16 }
    requires even { (is_even r && is_even q) ≡ true }
    ensures { Performs P.memory P.bytes (long_compares r q) cpu.old space.old cpu.new space.new result }
{
    let o = long_of(cpu, r, q);
    if let Err(e) = test_read_both(space, o.first, o.first_length, o.second, o.second_length) {
        return Next::Ended(e);
    }
    let unequal = unequal(space, &o);
    set_compared(cpu, space, r, q, &o, unequal);
    Next::On
}

/// CLCL: compares long operands, the shorter one padded.
pub fn compare_long<P: Space>(cpu: &mut Cpu, space: &mut P, it: &Decoded) -> Next
    ensures { Performs P.memory P.bytes (storage_row Op.CLCL it.now.code) cpu.old space.old cpu.new space.new result }
{
    let (r, q) = (it.first, it.second);
    if !are_even(r, q) {
        return Next::Ended(Ending::Abend(6));
    }
    compare_even(cpu, space, r, q)
}
