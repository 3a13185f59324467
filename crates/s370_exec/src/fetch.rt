//! The halfwords of an instruction.
ghost use Rattle.std.specs.Prelude.{◌≡◌, ◌/◌, ◌%◌, ◌<◌, IfOk, IfErr, Some, None};
ghost use Rattle.cov_base.specs.Meaning.{half_at, length_of};
ghost use Rattle.s370_exec.specs.Meaning.{first_tests, rest_tests, code_at, later};
ghost use Rattle.s370_exec.specs.Fetch.{whole_tests, whole_at};

use cov_base::Addr;
use s370_decode::{Code, length};
use s370_state::{Ending, Space, ending_of};

/// The first halfword at the address. Code 6 exactly at an odd address, else code 5 exactly where it is inaccessible.
pub fn fetch_first<P: Space>(space: &P, at: Addr) -> Result<u16, Ending>
    ensures refused { IfErr result (λ e. first_tests (P.memory space.now) at ≡ Some e) }
    ensures passed { IfOk result (λ _. first_tests (P.memory space.now) at ≡ None) }
    ensures half { IfOk result (λ h. h ≡ half_at (P.memory space.now) (P.bytes space.now) at) }
{
    if at.get() % 2 == 1 {
        return Err(Ending::Abend(6));
    }
    match space.first(at) {
        Ok(half) => Ok(half),
        Err(_) => Err(Ending::Abend(5)),
    }
}

/// A later halfword.
fn later_half<P: Space>(space: &P, at: Addr) -> Result<u16, Ending>
    ensures refused { IfErr result (λ e. later (P.memory space.now) at ≡ Some e) }
    ensures passed { IfOk result (λ h. later (P.memory space.now) at ≡ None) }
    ensures value { IfOk result (λ h. h ≡ half_at (P.memory space.now) (P.bytes space.now) at) }
{
    match space.half(at) {
        Ok(h) => Ok(h),
        Err(r) => Err(ending_of(r)),
    }
}

/// The whole instruction at the address, whose first halfword is given. Code 5 or Touched exactly by the first
/// later halfword that is refused.
#[tactic(auto, unfolding(crate::specs::Meaning::rest_tests, crate::specs::Meaning::code_at))]
pub fn fetch_rest<P: Space>(space: &P, at: Addr, h0: u16) -> Result<Code, Ending>
    ensures refused { IfErr result (λ e. rest_tests (P.memory space.now) at (length_of h0) ≡ Some e) }
    ensures passed { IfOk result (λ c. rest_tests (P.memory space.now) at (length_of h0) ≡ None) }
    ensures code { IfOk result (λ c. c ≡ code_at (P.memory space.now) (P.bytes space.now) at h0) }
{
    let len = length(h0);
    let (a, b) = ((h0 / 256) as u8, (h0 % 256) as u8);
    if len == 2 {
        return Ok(Code {
            at,
            bytes: [a, b, 0, 0, 0, 0],
            len,
        });
    }
    let h1 = match later_half(space, at.plus(2)) {
        Ok(h) => h,
        Err(e) => return Err(e),
    };
    let (c, d) = ((h1 / 256) as u8, (h1 % 256) as u8);
    if len == 4 {
        return Ok(Code {
            at,
            bytes: [a, b, c, d, 0, 0],
            len,
        });
    }
    let h2 = match later_half(space, at.plus(4)) {
        Ok(h) => h,
        Err(e) => return Err(e),
    };
    Ok(Code {
        at,
        bytes: [a, b, c, d, (h2 / 256) as u8, (h2 % 256) as u8],
        len,
    })
}

/// The whole instruction at the address, by the tests of its halfwords in their order.
pub(crate) fn fetch_whole<P: Space>(space: &P, at: Addr) -> Result<Code, Ending>
    ensures refused { IfErr result (λ e. whole_tests (P.memory space.now) (P.bytes space.now) at ≡ Some e) }
    ensures passed { IfOk result (λ _. whole_tests (P.memory space.now) (P.bytes space.now) at ≡ None) }
    ensures code { IfOk result (λ c. c ≡ whole_at (P.memory space.now) (P.bytes space.now) at) }
{
    let half = match fetch_first(space, at) {
        Ok(half) => half,
        Err(e) => return Err(e),
    };
    match fetch_rest(space, at, half) {
        Ok(code) => Ok(code),
        Err(e) => Err(e),
    }
}
