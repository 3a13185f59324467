//! Multiplication and division.
#![tactic(auto, using(s370_state::proofs::Laws::ill_formed, s370_state::proofs::Laws::well_at_once, s370_state::proofs::Laws::well_passes, s370_state::proofs::Laws::well_refuses))]

ghost use Rattle.std.specs.Prelude.{◌≡◌, ◌+◌, ◌*◌, ◌%◌, ◌<◌, ◌≤◌, ℤ, pos, neg_ℤ, ◌*ℤ◌, ◌≤ℤ◌, ◌<ℤ◌, true, false, IfSome, IfNone, if◌then◌else◌, slice_set, slice_index};
ghost use Rattle.std.specs.Int.{cast_signed, cast_unsigned, w64};
ghost use Rattle.std.specs.Int.RustNames.{int_div, int_rem};
ghost use Rattle.s370_state.specs.Meaning.{machine_of, finish, pair, with_pair, signed};
ghost use Rattle.s370_state.specs.Row.{Performs};
ghost use Rattle.s370_state.specs.Parts.{Follows};
ghost use Rattle.s370_fixed.specs.Meaning.{is_word, divides, fixed_row};
ghost use Rattle.s370_fixed.specs.Results.{signed_in, with_low_word, with_product, pair_divided};

use crate::operands::{half_at, load};
use crate::words::{is_word, low_word};
use s370_decode::{Decoded, Op};
use s370_state::{Cpu, Ending, Next, Space, read_word, signed};

/// The product of the pair's second register and a signed word goes to the pair.
#[tactic(auto)]
fn multiply(cpu: &mut Cpu, r: u8, z: i64) -> Next
    requires r { r < 15 }
    requires low { neg_ℤ (pos 2147483648) ≤ℤ z }
    requires high { z <ℤ pos 2147483648 }
    ensures cpu { cpu.new ≡ with_product cpu.old r z }
    ensures next { result ≡ Next.On }
{
    let product = signed(cpu.reg(r + 1)) * z;
    cpu.set_pair(r, product.cast_unsigned());
    Next::On
}

/// The low word of the product of the register and a signed word goes to the register.
#[tactic(auto)]
fn multiply_low(cpu: &mut Cpu, r: u8, z: i64) -> Next
    requires r { r < 16 }
    requires low { neg_ℤ (pos 2147483648) ≤ℤ z }
    requires high { z <ℤ pos 2147483648 }
    ensures cpu { cpu.new ≡ with_low_word cpu.old r (signed_in cpu.old r *ℤ z) }
    ensures next { result ≡ Next.On }
{
    let product = signed(cpu.reg(r)) * z;
    load(cpu, r, low_word(product))
}

/// Divides the pair, where the quotient is a word.
fn divide<P: Space>(cpu: &mut Cpu, space: &P, r: u8, d: i64) -> Next
    requires { r < 15 }
    ensures { Follows P.memory P.bytes (pair_divided r d) cpu.old space.now cpu.new space.now result }
{
    let dividend = cpu.pair(r).cast_signed();
    match quotient(dividend, d) {
        Some((q, rest)) => {
            cpu.set_reg(r, low_word(rest));
            cpu.set_reg(r + 1, low_word(q));
            Next::On
        }
        None => Next::Ended(Ending::Abend(9)),
    }
}

/// Quotient and remainder, where the quotient is a word.
#[tactic(auto, using(crate::proofs::Wide::divides_none))]
fn quotient(p: i64, d: i64) -> Option<(i64, i64)>
    ensures divides { IfSome result (λ t. divides p d ≡ true) }
    ensures quotient { IfSome result (λ t. t.0 ≡ int_div p d) }
    ensures rest { IfSome result (λ t. t.1 ≡ int_rem p d) }
    ensures none { IfNone result (divides p d ≡ false) }
{
    match p.checked_div(d) {
        Some(q) => {
            if is_word(i128::from(q)) {
                Some((q, p.wrapping_rem(d)))
            } else {
                None
            }
        }
        None => None,
    }
}

/// MR: multiplies the second register of the pair R1 by R2; the pair has the product.
pub fn multiply_register<P: Space>(cpu: &mut Cpu, space: &mut P, it: &Decoded) -> Next
    ensures { Performs P.memory P.bytes (fixed_row Op.MR it.now.code) cpu.old space.old cpu.new space.new result }
{
    let r = it.first;
    if r % 2 != 0 {
        return Next::Ended(Ending::Abend(6));
    }
    multiply(cpu, r, signed(cpu.reg(it.second)))
}

/// M: multiplies the second register of the pair R1 by a word; the pair has the product.
pub fn multiply_word<P: Space>(cpu: &mut Cpu, space: &mut P, it: &Decoded) -> Next
    ensures { Performs P.memory P.bytes (fixed_row Op.M it.now.code) cpu.old space.old cpu.new space.new result }
{
    let r = it.first;
    if r % 2 != 0 {
        return Next::Ended(Ending::Abend(6));
    }
    match read_word(space, cpu.second_indexed(it)) {
        Ok(v) => multiply(cpu, r, signed(v)),
        Err(e) => Next::Ended(e),
    }
}

/// MH: multiplies R1 by a halfword, extended by its sign; R1 keeps the low word of the product.
#[tactic(auto, using(s370_state::proofs::Laws::passes, s370_state::proofs::Laws::refuses))]
pub fn multiply_half<P: Space>(cpu: &mut Cpu, space: &mut P, it: &Decoded) -> Next
    ensures { Performs P.memory P.bytes (fixed_row Op.MH it.now.code) cpu.old space.old cpu.new space.new result }
{
    match half_at(space, cpu.second_indexed(it)) {
        Ok(z) => multiply_low(cpu, it.first, z),
        Err(e) => Next::Ended(e),
    }
}

/// DR: divides the pair R1 by R2, and leaves remainder and quotient in it.
pub fn divide_register<P: Space>(cpu: &mut Cpu, space: &mut P, it: &Decoded) -> Next
    ensures { Performs P.memory P.bytes (fixed_row Op.DR it.now.code) cpu.old space.old cpu.new space.new result }
{
    let r = it.first;
    if r % 2 != 0 {
        return Next::Ended(Ending::Abend(6));
    }
    divide(cpu, space, r, signed(cpu.reg(it.second)))
}

/// D: divides the pair R1 by a word, and leaves remainder and quotient in it.
pub fn divide_word<P: Space>(cpu: &mut Cpu, space: &mut P, it: &Decoded) -> Next
    ensures { Performs P.memory P.bytes (fixed_row Op.D it.now.code) cpu.old space.old cpu.new space.new result }
{
    let r = it.first;
    if r % 2 != 0 {
        return Next::Ended(Ending::Abend(6));
    }
    match read_word(space, cpu.second_indexed(it)) {
        Ok(v) => divide(cpu, space, r, signed(v)),
        Err(e) => Next::Ended(e),
    }
}
