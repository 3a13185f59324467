//! The tests of operands in storage, made here once for all operations, and the numbers that operands hold.
ghost use Rattle.std.specs.Prelude.{◌≡◌, ◌+◌, ◌-◌, ◌%◌, ◌/◌, ◌<◌, ◌≤◌, [], ◌∷◌, true, IfOk, IfErr, IsTrue, slice_set, if◌then◌else◌, ◌&&◌};
ghost use Rattle.cov_base.specs.Meaning.{byte_at, can_reach, can_store, wrap};
ghost use Rattle.s370_state.specs.Meaning.{reads, stores, use_tests, number_at, store_number};
ghost use Rattle.s370_state.specs.Answers.{ending_of};
ghost use Rattle.s370_state.specs.Parts.{Pass, Tested, both_reach_answer};

use crate::endings::Ending;
use crate::space::{Refused, Space};
use cov_base::Addr;

/// How a refused operand or halfword ends the task: codes 5 and 4, or Touched.
#[inline(always)]
pub fn ending_of(r: Refused) -> Ending
    ensures { result ≡ ending_of r }
{
    match r {
        Refused::Addressing => Ending::Abend(5),
        Refused::Protection => Ending::Abend(4),
        Refused::Touch(a) => Ending::Touched(a),
    }
}

/// Tests an operand that is read: code 5, then touch.
#[tactic(auto, unfolding(crate::specs::Meaning::use_tests, crate::specs::Meaning::all_reached, crate::specs::Meaning::all_stored, crate::specs::Meaning::touched))]
#[inline(always)]
pub fn test_read<P: Space>(space: &P, at: Addr, len: u32) -> Result<(), Ending>
    ensures tested { Tested (P.memory space.now) (reads at len ∷ []) result }
    ensures reach { IfOk result (λ _. can_reach (P.memory space.now) at len ≡ true) }
{
    match space.can_reach(at, len) {
        Ok(()) => match space.can_read(at, len) {
            Ok(()) => Ok(()),
            Err(r) => Err(ending_of(r)),
        },
        Err(r) => Err(ending_of(r)),
    }
}

/// Tests an operand that is stored, and maybe read: code 5, then code 4.
#[tactic(auto, unfolding(crate::specs::Meaning::use_tests, crate::specs::Meaning::all_reached, crate::specs::Meaning::all_stored, crate::specs::Meaning::touched))]
#[inline(always)]
pub fn test_store<P: Space>(space: &P, at: Addr, len: u32) -> Result<(), Ending>
    ensures tested { Tested (P.memory space.now) (stores at len ∷ []) result }
    ensures reach { IfOk result (λ _. can_reach (P.memory space.now) at len ≡ true) }
    ensures store { IfOk result (λ _. can_store (P.memory space.now) at len ≡ true) }
{
    match space.can_reach(at, len) {
        Ok(()) => match space.can_store(at, len) {
            Ok(()) => Ok(()),
            Err(r) => Err(ending_of(r)),
        },
        Err(r) => Err(ending_of(r)),
    }
}

/// Tests a first operand that is stored and a second that is read: code 5 by either, then code 4 by the first,
/// then touch by the second.
#[tactic(auto, unfolding(crate::specs::Meaning::use_tests, crate::specs::Meaning::all_reached, crate::specs::Meaning::all_stored, crate::specs::Meaning::touched))]
pub fn test_store_read<P: Space>(space: &P, a: Addr, n: u32, b: Addr, k: u32) -> Result<(), Ending>
    ensures tested { Tested (P.memory space.now) (stores a n ∷ (reads b k ∷ [])) result }
    ensures reach { IfOk result (λ _. can_reach (P.memory space.now) a n ≡ true) }
    ensures store { IfOk result (λ _. can_store (P.memory space.now) a n ≡ true) }
    ensures reach_second { IfOk result (λ _. can_reach (P.memory space.now) b k ≡ true) }
{
    match reach_both(space, a, n, b, k) {
        Ok(()) => match space.can_store(a, n) {
            Ok(()) => match space.can_read(b, k) {
                Ok(()) => Ok(()),
                Err(r) => Err(ending_of(r)),
            },
            Err(r) => Err(ending_of(r)),
        },
        Err(r) => Err(ending_of(r)),
    }
}

/// Tests two operands that are read: code 5 by either, then touch by the first, then by the second.
#[inline(always)]
#[tactic(auto, unfolding(crate::specs::Meaning::use_tests, crate::specs::Meaning::all_reached, crate::specs::Meaning::all_stored, crate::specs::Meaning::touched))]
pub fn test_read_both<P: Space>(space: &P, a: Addr, n: u32, b: Addr, k: u32) -> Result<(), Ending>
    ensures tested { Tested (P.memory space.now) (reads a n ∷ (reads b k ∷ [])) result }
    ensures reach { IfOk result (λ _. can_reach (P.memory space.now) a n ≡ true) }
    ensures reach_second { IfOk result (λ _. can_reach (P.memory space.now) b k ≡ true) }
{
    match reach_both(space, a, n, b, k) {
        Ok(()) => match space.can_read(a, n) {
            Ok(()) => match space.can_read(b, k) {
                Ok(()) => Ok(()),
                Err(r) => Err(ending_of(r)),
            },
            Err(r) => Err(ending_of(r)),
        },
        Err(r) => Err(ending_of(r)),
    }
}

/// Whether an operand that is read is seen at once to pass its tests. It may be false for any.
#[inline(always)]
#[tactic(auto, unfolding(crate::specs::Meaning::use_tests, crate::specs::Meaning::all_reached, crate::specs::Meaning::all_stored, crate::specs::Meaning::touched))]
pub fn reads_own<P: Space>(space: &P, at: Addr, len: u32) -> bool
    ensures pass { IsTrue result → Pass (P.memory space.now) (reads at len ∷ []) }
{
    space.is_own(at, len)
}

/// Whether an operand that is stored is seen at once to pass its tests. It may be false for any.
#[inline(always)]
#[tactic(auto, unfolding(crate::specs::Meaning::use_tests, crate::specs::Meaning::all_reached, crate::specs::Meaning::all_stored, crate::specs::Meaning::touched))]
pub fn stores_own<P: Space>(space: &P, at: Addr, len: u32) -> bool
    ensures pass { IsTrue result → Pass (P.memory space.now) (stores at len ∷ []) }
    ensures store { IsTrue result → can_store (P.memory space.now) at len ≡ true }
{
    space.is_own(at, len)
}

/// Whether a first operand that is stored and a second that is read are seen at once to pass their tests. It may be false for any.
#[inline(always)]
#[tactic(auto, unfolding(crate::specs::Meaning::use_tests, crate::specs::Meaning::all_reached, crate::specs::Meaning::all_stored, crate::specs::Meaning::touched))]
pub fn stores_reads_own<P: Space>(space: &P, a: Addr, n: u32, b: Addr, k: u32) -> bool
    ensures pass { IsTrue result → Pass (P.memory space.now) (stores a n ∷ (reads b k ∷ [])) }
    ensures store { IsTrue result → can_store (P.memory space.now) a n ≡ true }
    ensures reach { IsTrue result → can_reach (P.memory space.now) b k ≡ true }
{
    space.is_own(a, n) && space.is_own(b, k)
}

/// Whether two operands that are read are seen at once to pass their tests. It may be false for any.
#[inline(always)]
#[tactic(auto, unfolding(crate::specs::Meaning::use_tests, crate::specs::Meaning::all_reached, crate::specs::Meaning::all_stored, crate::specs::Meaning::touched))]
pub fn reads_both_own<P: Space>(space: &P, a: Addr, n: u32, b: Addr, k: u32) -> bool
    ensures pass { IsTrue result → Pass (P.memory space.now) (reads a n ∷ (reads b k ∷ [])) }
{
    space.is_own(a, n) && space.is_own(b, k)
}

fn reach_both<P: Space>(space: &P, a: Addr, n: u32, b: Addr, k: u32) -> Result<(), Refused>
    ensures { result ≡ both_reach_answer (P.memory space.now) a n b k }
{
    match space.can_reach(a, n) {
        Ok(()) => space.can_reach(b, k),
        Err(r) => Err(r),
    }
}

/// A byte at a distance into an operand that was tested.
#[tactic(auto, using(crate::proofs::Tested::reach_at, crate::proofs::Tested::store_at))]
#[inline(always)]
pub fn byte_of<P: Space>(space: &P, at: Addr, i: u32, len: u32) -> u8
    requires reach { can_reach (P.memory space.now) at len ≡ true }
    requires below { i < len }
    ensures { result ≡ byte_at (P.memory space.now) (P.bytes space.now) (wrap (at + i)) }
{
    space.byte(at.plus(i))
}

/// A byte is stored at a distance into an operand that was tested.
#[tactic(auto, using(crate::proofs::Tested::reach_at, crate::proofs::Tested::store_at))]
#[inline(always)]
pub fn put_into<P: Space>(space: &mut P, at: Addr, i: u32, len: u32, value: u8)
    requires store { can_store (P.memory space.old) at len ≡ true }
    requires below { i < len }
    ensures memory { P.memory space.new ≡ P.memory space.old }
    ensures bytes { P.bytes space.new ≡ slice_set (P.bytes space.old) (wrap (at + i)) value }
{
    space.put(at.plus(i), value);
}

/// The word at a distance into an operand that was tested, unsigned.
#[tactic(auto, using(crate::proofs::Tested::reach_part, crate::proofs::Tested::number_wrapped))]
#[inline(always)]
pub fn word_of<P: Space>(space: &P, at: Addr, i: u32, len: u32) -> u32
    requires reach { can_reach (P.memory space.now) at len ≡ true }
    requires below { i + 4 ≤ len }
    ensures { result ≡ number_at (P.memory space.now) (P.bytes space.now) (at + i) 4 }
{
    space.word(at.plus(i))
}

/// The word at an address, tested as an operand that is read.
#[inline(always)]
pub fn read_word<P: Space>(space: &P, at: Addr) -> Result<u32, Ending>
    ensures tested { Tested (P.memory space.now) (reads at 4 ∷ []) result }
    ensures value { IfOk result (λ v. v ≡ number_at (P.memory space.now) (P.bytes space.now) at 4) }
{
    match test_read(space, at, 4) {
        Ok(()) => Ok(word_of(space, at, 0, 4)),
        Err(e) => Err(e),
    }
}

/// A word is stored at a distance into an operand that was tested.
#[tactic(auto, using(crate::proofs::Tested::store_part, crate::proofs::Tested::store_wrapped))]
#[inline(always)]
pub fn put_word<P: Space>(space: &mut P, at: Addr, i: u32, len: u32, value: u32)
    requires store { can_store (P.memory space.old) at len ≡ true }
    requires below { i + 4 ≤ len }
    ensures memory { P.memory space.new ≡ P.memory space.old }
    ensures bytes { P.bytes space.new ≡ store_number (P.bytes space.old) (at + i) 4 value }
{
    space.put_word(at.plus(i), value);
}
