//! Compare and swap.
#![tactic(auto, using(s370_state::proofs::Laws::ill_formed, s370_state::proofs::Laws::well_passes, s370_state::proofs::Laws::well_refuses))]

ghost use Rattle.std.specs.Prelude.{◌≡◌, ◌+◌, ◌*◌, ◌/◌, ◌%◌, ◌<◌, ◌≤◌, true, ◌==◌, if◌then◌else◌};
ghost use Rattle.cov_base.specs.Meaning.{can_reach, can_store};
ghost use Rattle.s370_state.specs.Row.{Performs};
ghost use Rattle.s370_state.specs.Meaning.{number_at, store_number};
ghost use Rattle.s370_logic.specs.Meaning.{logic_row};

use cov_base::Addr;
use s370_decode::{Decoded, Op};
use s370_state::{Cpu, Ending, Next, Space, put_word, test_store, word_of};

/// The doubleword at a distance into an operand that was tested, unsigned.
#[tactic(auto, using(crate::proofs::Steps::double_of_words))]
fn double_of<P: Space>(space: &P, at: Addr, i: u32, len: u32) -> u64
    requires reach { can_reach (P.memory space.now) at len ≡ true }
    requires below { i + 8 ≤ len }
    ensures { result ≡ number_at (P.memory space.now) (P.bytes space.now) (at + i) 8 }
{
    u64::from(word_of(space, at, i, len)) * 4_294_967_296
        + u64::from(word_of(space, at, i + 4, len))
}

/// A doubleword is stored at a distance into an operand that was tested.
#[tactic(auto, using(crate::proofs::Steps::double_stored))]
fn put_double<P: Space>(space: &mut P, at: Addr, i: u32, len: u32, value: u64)
    requires store { can_store (P.memory space.old) at len ≡ true }
    requires below { i + 8 ≤ len }
    ensures memory { P.memory space.new ≡ P.memory space.old }
    ensures bytes { P.bytes space.new ≡ store_number (P.bytes space.old) (at + i) 8 value }
{
    put_word(space, at, i + 4, len, (value % 4_294_967_296) as u32);
    put_word(space, at, i, len, (value / 4_294_967_296) as u32);
}

/// CS: stores R3 in a word that equals R1, or else loads R1 from it.
pub fn compare_and_swap<P: Space>(cpu: &mut Cpu, space: &mut P, it: &Decoded) -> Next
    ensures { Performs P.memory P.bytes (logic_row Op.CS it.now.code) cpu.old space.old cpu.new space.new result }
{
    let at = cpu.second_based(it);
    if at.get() % 4 != 0 {
        return Next::Ended(Ending::Abend(6));
    }
    if let Err(e) = test_store(space, at, 4) {
        return Next::Ended(e);
    }
    let v = word_of(space, at, 0, 4);
    if cpu.reg(it.first) == v {
        put_word(space, at, 0, 4, cpu.reg(it.second));
        cpu.set_cc(0);
    } else {
        cpu.set_reg(it.first, v);
        cpu.set_cc(1);
    }
    Next::On
}

/// CDS: stores the pair R3 in a doubleword that equals the pair R1, or else loads the pair R1 from it.
pub fn compare_double_and_swap<P: Space>(cpu: &mut Cpu, space: &mut P, it: &Decoded) -> Next
    ensures { Performs P.memory P.bytes (logic_row Op.CDS it.now.code) cpu.old space.old cpu.new space.new result }
{
    let at = cpu.second_based(it);
    let (r1, r3) = (it.first, it.second);
    if r1 % 2 != 0 || r3 % 2 != 0 || at.get() % 8 != 0 {
        return Next::Ended(Ending::Abend(6));
    }
    if let Err(e) = test_store(space, at, 8) {
        return Next::Ended(e);
    }
    let v = double_of(space, at, 0, 8);
    if cpu.pair(r1) == v {
        put_double(space, at, 0, 8, cpu.pair(r3));
        cpu.set_cc(0);
    } else {
        cpu.set_pair(r1, v);
        cpu.set_cc(1);
    }
    Next::On
}
