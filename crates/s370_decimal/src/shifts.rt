//! The shift.
#![tactic(auto, using(s370_state::proofs::Laws::passes, s370_state::proofs::Laws::refuses, s370_state::proofs::Laws::good_data, s370_state::proofs::Laws::bad_data))]

ghost use Rattle.std.specs.Prelude.{◌≡◌, ◌+◌, ◌-◌, ◌*◌, ◌/◌, ◌%◌, ◌^◌, ◌<◌, ◌≤◌, true, None, nat_le, if◌then◌else◌, IfSome};
ghost use Rattle.cov_base.specs.Meaning.{can_reach};
ghost use Rattle.s370_state.specs.Row.{Performs};
ghost use Rattle.s370_state.specs.Meaning.{field_at};
ghost use Rattle.s370_decode.specs.Meaning.{shift_distance};
ghost use Rattle.s370_decimal.specs.Meaning.{kept, digits_shifted, decimal_row};

use crate::fields::power;
use crate::results::{Kept, keep, put_result};
use cov_base::Addr;
use s370_decode::{Decoded, Op};
use s370_state::{Cpu, Ending, Field, Next, Space, field_at, test_store};

/// The low six bits of the second address.
fn distance(cpu: &Cpu, it: &Decoded) -> u8
    ensures value { result ≡ shift_distance cpu.now it.now.code }
    ensures below { result < 64 }
{
    (cpu.second_based(it).get() % 64) as u8
}

/// What a field of length code l keeps where it goes n digits to the left. The whole result may have 62 digits, so it
/// is told by those that stay.
#[tactic(auto, using(crate::proofs::Shifting::left_kept))]
fn keep_left(l: u8, f: Field, n: u8) -> Kept
    requires length { l ≤ 15 }
    requires distance { n < 32 }
    ensures { result ≡ kept l (f.magnitude * 10 ^ n) f.minus }
{
    let room = power((2 * l + 1).saturating_sub(n));
    Kept {
        digits: f.magnitude % room * power(n),
        minus: f.magnitude != 0 && f.minus,
        lost: f.magnitude >= room,
    }
}

/// The magnitude 64 - n digits to the right, after the rounding digit was added to the last digit that goes.
fn rounded(v: u128, i: u8, n: u8) -> u128
    requires magnitude { v < 10000000000000000000000000000000 }
    requires digit { i ≤ 9 }
    requires least { 32 ≤ n }
    requires most { n < 64 }
    ensures { result ≡ (v + i * 10 ^ (63 - n)) / 10 ^ (64 - n) }
{
    (v + u128::from(i) * power(63 - n)) / power(64 - n)
}

/// What the field keeps after the shift.
#[tactic(auto, unfolding(crate::specs::Meaning::digits_shifted))]
fn keep_shifted(l: u8, f: Field, i: u8, n: u8) -> Kept
    requires length { l ≤ 15 }
    requires magnitude { f.magnitude < 10000000000000000000000000000000 }
    requires digit { i ≤ 9 }
    requires distance { n < 64 }
    ensures { result ≡ kept l (digits_shifted f.magnitude i n) f.minus }
{
    if n < 32 {
        keep_left(l, f, n)
    } else {
        keep(l, rounded(f.magnitude, i, n), f.minus)
    }
}

/// What the field holds; none where a digit, the sign or the rounding digit is bad.
fn rounded_field<P: Space>(space: &P, at: Addr, l: u8, i: u8) -> Option<Field>
    requires length { l ≤ 15 }
    requires reach { can_reach (P.memory space.now) at (l + 1) ≡ true }
    ensures field { result ≡ (if nat_le i 9 then field_at (P.memory space.now) (P.bytes space.now) at l else None) }
    ensures digit { IfSome result (λ _. i ≤ 9) }
    ensures most { IfSome result (λ f. f.magnitude < 10000000000000000000000000000000) }
{
    if i <= 9 { field_at(space, at, l) } else { None }
}

/// SRP: shifts the digits of the first field, and rounds where they go to the right.
pub fn shift_and_round<P: Space>(cpu: &mut Cpu, space: &mut P, it: &Decoded) -> Next
    ensures { Performs P.memory P.bytes (decimal_row Op.SRP it.now.code) cpu.old space.old cpu.new space.new result }
{
    let (at, l, i) = (cpu.first_based(it), it.first, it.second);
    if let Err(e) = test_store(space, at, u32::from(l) + 1) {
        return Next::Ended(e);
    }
    match rounded_field(space, at, l, i) {
        Some(f) => {
            let n = distance(cpu, it);
            put_result(cpu, space, at, l, keep_shifted(l, f, i, n))
        }
        None => Next::Ended(Ending::Abend(7)),
    }
}
