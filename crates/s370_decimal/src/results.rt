//! What becomes of a result in the first field.
ghost use Rattle.std.specs.Prelude.{◌≡◌, ◌+◌, ◌≤◌, true, if◌then◌else◌};
ghost use Rattle.cov_base.specs.Meaning.{can_store};
ghost use Rattle.s370_state.specs.Meaning.{next_after, store_field};
ghost use Rattle.s370_decimal.specs.Meaning.{kept, code_of};

use crate::fields::power;
use cov_base::Addr;
use s370_state::{Cpu, Next, Space, next_after, put_field};

/// What a field keeps of a whole result.
#[derive(Clone, Copy)]
pub struct Kept {
    /// Its low digits.
    pub digits: u128,
    /// The sign of the whole result; zero is plus.
    pub minus: bool,
    /// Other digits than zeros are lost.
    pub lost: bool,
}

/// What a field of length code l keeps of a whole result, which mostly fits, so that it needs no division.
#[tactic(auto, unfolding(crate::specs::Meaning::kept), using(crate::proofs::Powers::remainder_small))]
pub fn keep(l: u8, v: u128, minus: bool) -> Kept
    requires { l ≤ 15 }
    ensures { result ≡ kept l v minus }
{
    let room = power(2 * l + 1);
    let minus = v != 0 && minus;
    if v < room {
        Kept {
            digits: v,
            minus,
            lost: false,
        }
    } else {
        Kept {
            digits: v % room,
            minus,
            lost: true,
        }
    }
}

/// The condition code of a result.
#[tactic(auto, unfolding(crate::specs::Meaning::code_of))]
fn code_of(k: Kept) -> u8
    ensures value { result ≡ code_of k }
    ensures below { result ≤ 3 }
{
    if k.lost {
        3
    } else if k.digits == 0 {
        0
    } else if k.minus {
        1
    } else {
        2
    }
}

/// The field of length code l becomes what is kept, with its condition code; lost digits are an overflow.
pub fn put_result<P: Space>(cpu: &mut Cpu, space: &mut P, at: Addr, l: u8, k: Kept) -> Next
    requires length { l ≤ 15 }
    requires store { can_store (P.memory space.old) at (l + 1) ≡ true }
    ensures memory { P.memory space.new ≡ P.memory space.old }
    ensures bytes { P.bytes space.new ≡ store_field (P.bytes space.old) at l k.digits k.minus }
    ensures cpu { cpu.new ≡ record cpu.old { condition = code_of k } }
    ensures next { result ≡ next_after cpu.old.mask (if k.lost then 10 else 0) }
{
    put_field(space, at, l, k.digits, k.minus);
    cpu.set_cc(code_of(k));
    next_after(cpu.mask(), if k.lost { 10 } else { 0 })
}
