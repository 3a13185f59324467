//! The halfword of an operation, tested and read, and what operations do with a result.
ghost use Rattle.std.specs.Prelude.{◌≡◌, ◌<◌, ◌≤◌, [], ◌∷◌, ℤ, pos, neg_ℤ, ◌≤ℤ◌, ◌<ℤ◌, IfOk, IfErr, None, Some, if◌then◌else◌, slice_set};
ghost use Rattle.s370_state.specs.Meaning.{reads, next_after};
ghost use Rattle.s370_state.specs.Parts.{Tested};
ghost use Rattle.s370_fixed.specs.Meaning.{is_word};
ghost use Rattle.s370_fixed.specs.Results.{signed_half_at, with_result};

use crate::words::{is_beyond_word, low_word, sign_code};
use cov_base::Addr;
use s370_state::{Cpu, Ending, Next, Space, byte_of, next_after, signed, test_read};

/// The halfword at the address, extended by its sign.
#[inline(always)]
pub fn half_at<P: Space>(space: &P, at: Addr) -> Result<i64, Ending>
    ensures tested { Tested (P.memory space.now) (reads at 2 ∷ []) result }
    ensures value { IfOk result (λ z. z ≡ signed_half_at (P.memory space.now) (P.bytes space.now) at) }
    ensures low { IfOk result (λ z. neg_ℤ (pos 32768) ≤ℤ z) }
    ensures high { IfOk result (λ z. z <ℤ pos 32768) }
{
    match test_read(space, at, 2) {
        Ok(()) => {
            let half = u16::from_be_bytes([byte_of(space, at, 0, 2), byte_of(space, at, 1, 2)]);
            Ok(i64::from(half.cast_signed()))
        }
        Err(e) => Err(e),
    }
}

/// The word goes to the register.
#[inline(always)]
pub fn load(cpu: &mut Cpu, r: u8, v: u32) -> Next
    requires { r < 16 }
    ensures cpu { cpu.new ≡ record cpu.old { regs = slice_set cpu.old.regs r v } }
    ensures next { result ≡ Next.On }
{
    cpu.set_reg(r, v);
    Next::On
}

/// The signed result goes to the register, with its condition code; overflow is code 8.
#[inline(always)]
#[tactic(auto, using(crate::proofs::LowWords::signed_low), unfolding(s370_state::specs::Meaning::next_after))]
pub fn set_result(cpu: &mut Cpu, r: u8, z: i64) -> Next
    requires { r < 16 }
    ensures cpu { cpu.new ≡ with_result cpu.old r z }
    ensures next { result ≡ next_after cpu.old.mask (if is_word z then 0 else 8) }
{
    let low = low_word(z);
    cpu.set_reg(r, low);
    if is_beyond_word(z) {
        cpu.set_cc(3);
        next_after(cpu.mask(), 8)
    } else {
        cpu.set_cc(sign_code(i128::from(signed(low))));
        Next::On
    }
}
