//! Moves of bytes and half bytes.
#![tactic(auto, using(s370_state::proofs::Laws::passes, s370_state::proofs::Laws::refuses))]

ghost use Rattle.std.specs.Prelude.{◌≡◌, ◌+◌, ◌-◌, ◌*◌, ◌/◌, ◌%◌, ◌<◌, ◌≤◌, true};
ghost use Rattle.cov_base.specs.Meaning.{byte_at, can_reach, can_store, wrap};
ghost use Rattle.s370_state.specs.Row.{Attempts, Performs};
ghost use Rattle.s370_storage.specs.Meaning.{with_part, moved, moves, left_of, inverted, storage_row};

use cov_base::Addr;
use s370_decode::{Decoded, Op};
use s370_state::{Cpu, Next, Space, byte_of, put_into, stores_reads_own, test_store_read};

/// What is moved of a byte.
#[derive(Clone, Copy, Drop)]
pub enum Part {
    Byte,
    /// The right half byte.
    Numeric,
    /// The left half byte.
    Zone,
}

/// The byte x after that part of it became that of y.
fn with_part(part: Part, x: u8, y: u8) -> u8
    ensures { result ≡ with_part part x y }
{
    match part {
        Part::Byte => y,
        Part::Numeric => x / 16 * 16 + y % 16,
        Part::Zone => y / 16 * 16 + x % 16,
    }
}

/// Moves that part of n bytes, one at a time, left to right, so that operands that overlap repeat what was moved before.
#[tactic(auto, using(crate::proofs::Steps::moved_none, crate::proofs::Steps::moved_more))]
fn move_halves<P: Space>(part: Part, space: &mut P, a: Addr, b: Addr, n: u32)
    requires store { can_store (P.memory space.old) a n ≡ true }
    requires reach { can_reach (P.memory space.old) a n ≡ true }
    requires reach_second { can_reach (P.memory space.old) b n ≡ true }
    ensures memory { P.memory space.new ≡ P.memory space.old }
    ensures bytes { P.bytes space.new ≡ moved part (P.memory space.old) (P.bytes space.old) a b n }
{
    for i in 0..n {
        let value = with_part(part, byte_of(space, a, i, n), byte_of(space, b, i, n));
        put_into(space, a, i, n, value);
    }
}

/// MVC, MVN, MVZ: moves that part of L+1 bytes, left to right.
#[inline(always)]
#[tactic(auto, using(s370_state::proofs::Laws::passes, s370_state::proofs::Laws::refuses, crate::proofs::Steps::moved_copied))]
pub fn move_parts<P: Space>(part: Part, cpu: &Cpu, space: &mut P, it: &Decoded) -> Next
    ensures { Performs P.memory P.bytes (moves part it.now.code) cpu.now space.old cpu.now space.new result }
{
    let a = cpu.first_based(it);
    let b = cpu.second_based(it);
    let n = u32::from(it.code.i2()) + 1;
    if let Err(e) = test_store_read(space, a, n, b, n) {
        return Next::Ended(e);
    }
    match part {
        Part::Byte => space.copy(a, b, n),
        Part::Numeric | Part::Zone => move_halves(part, space, a, b, n),
    }
    Next::On
}

/// MVC where both operands are seen at once to lie in private storage. Else it is false, and nothing is done.
#[inline(always)]
#[tactic(auto, using(s370_state::proofs::Laws::passes, crate::proofs::Steps::moved_copied))]
pub fn move_characters_own<P: Space>(cpu: &mut Cpu, space: &mut P, it: &Decoded) -> bool
    ensures { Attempts P.memory P.bytes (storage_row Op.MVC it.now.code) cpu.old space.old cpu.new space.new result }
{
    let (a, b) = (cpu.first_based(it), cpu.second_based(it));
    let n = u32::from(it.code.i2()) + 1;
    if !stores_reads_own(space, a, n, b, n) {
        return false;
    }
    space.copy(a, b, n);
    true
}

/// MVC: moves bytes, left to right.
#[inline(always)]
pub fn move_characters<P: Space>(cpu: &mut Cpu, space: &mut P, it: &Decoded) -> Next
    ensures { Performs P.memory P.bytes (storage_row Op.MVC it.now.code) cpu.old space.old cpu.new space.new result }
{
    move_parts(Part::Byte, cpu, space, it)
}

/// The address n bytes to the left.
fn left_of(b: Addr, n: u32) -> Addr
    requires { n ≤ 16777216 }
    ensures { result ≡ left_of b n }
{
    b.plus(16_777_216 - n)
}

/// Moves the byte at b and l to its left to the bytes from a on, one at a time.
#[tactic(auto, using(crate::proofs::Steps::inverted_none, crate::proofs::Steps::inverted_more, crate::proofs::Steps::left_reached))]
fn invert_bytes<P: Space>(space: &mut P, a: Addr, b: Addr, l: u8)
    requires store { can_store (P.memory space.old) a (l + 1) ≡ true }
    requires reach { can_reach (P.memory space.old) (left_of b l) (l + 1) ≡ true }
    ensures memory { P.memory space.new ≡ P.memory space.old }
    ensures bytes { P.bytes space.new ≡ inverted (P.memory space.old) (P.bytes space.old) a b (l + 1) }
{
    let n = u32::from(l) + 1;
    for i in 0..n {
        let byte = space.byte(left_of(b, i));
        put_into(space, a, i, n, byte);
    }
}

/// MVCIN: moves bytes in inverse order: the second operand is taken right to left.
pub fn move_inverse<P: Space>(cpu: &mut Cpu, space: &mut P, it: &Decoded) -> Next
    ensures { Performs P.memory P.bytes (storage_row Op.MVCIN it.now.code) cpu.old space.old cpu.new space.new result }
{
    let a = cpu.first_based(it);
    let b = cpu.second_based(it);
    let l = u32::from(it.code.i2());
    if let Err(e) = test_store_read(space, a, l + 1, left_of(b, l), l + 1) {
        return Next::Ended(e);
    }
    invert_bytes(space, a, b, it.code.i2());
    Next::On
}
