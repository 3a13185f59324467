//! Multiplication and division.
#![tactic(auto, using(s370_state::proofs::Laws::ill_formed))]

ghost use Rattle.std.specs.Prelude.{◌≡◌, ◌+◌, ◌-◌, ◌*◌, ◌/◌, ◌%◌, ◌^◌, ◌<◌, true, if◌then◌else◌};
ghost use Rattle.cov_base.specs.Meaning.{can_store};
ghost use Rattle.s370_state.specs.Row.{Performs};
ghost use Rattle.s370_state.specs.Parts.{Follows};
ghost use Rattle.s370_decode.specs.Meaning.{e1};
ghost use Rattle.s370_decimal.specs.Meaning.{l1, l2, is_shorter, signs_differ, multiplied, divided_fields, decimal_row};

use crate::fields::fits;
use crate::operands::{Operands, read_operands, test_replaced};
use s370_decode::{Decoded, Op};
use s370_state::{Cpu, Ending, Next, Space, put_field};

/// Whether the second field has at most 8 bytes, and fewer than the first.
fn is_shorter(it: &Decoded) -> bool
    ensures { result ≡ is_shorter it.now.code }
{
    it.second <= 7 && it.second < it.first
}

/// Whether the sign of a product or quotient is minus.
fn signs_differ(o: Operands) -> bool
    ensures { result ≡ signs_differ o }
{
    o.first.minus != o.second.minus
}

/// The product goes to the first field, unless that has fewer leading zero bytes than the second has bytes.
#[tactic(auto, unfolding(crate::specs::Meaning::multiplied), using(crate::proofs::Powers::product_fits))]
fn put_product<P: Space>(cpu: &Cpu, space: &mut P, it: &Decoded, o: Operands) -> Next
    requires shorter { l2 it.now.code < l1 it.now.code }
    requires store { can_store (P.memory space.old) (e1 cpu.now it.now.code) (l1 it.now.code + 1) ≡ true }
    requires second { o.second.magnitude < 10 ^ (2 * l2 it.now.code + 1) }
    ensures { Follows P.memory P.bytes (λ m s. multiplied s it.now.code o) cpu.now space.old cpu.now space.new result }
{
    let (l1, l2) = (it.first, it.second);
    if !fits(l1 - l2 - 1, o.first.magnitude) {
        return Next::Ended(Ending::Abend(7));
    }
    let at = cpu.first_based(it);
    let product = o.first.magnitude * o.second.magnitude;
    put_field(space, at, l1, product, signs_differ(o));
    Next::On
}

/// Quotient and remainder go to the first field, unless the divisor is zero or the quotient too long.
#[tactic(auto, unfolding(crate::specs::Meaning::divided_fields), using(s370_state::proofs::Laws::store_prefix, s370_state::proofs::Laws::store_part))]
fn put_quotient<P: Space>(cpu: &Cpu, space: &mut P, it: &Decoded, o: Operands) -> Next
    requires shorter { l2 it.now.code < l1 it.now.code }
    requires store { can_store (P.memory space.old) (e1 cpu.now it.now.code) (l1 it.now.code + 1) ≡ true }
    ensures { Follows P.memory P.bytes (λ m s. divided_fields s it.now.code o) cpu.now space.old cpu.now space.new result }
{
    let (l1, l2) = (it.first, it.second);
    let (dividend, divisor) = (o.first.magnitude, o.second.magnitude);
    if divisor == 0 || !fits(l1 - l2 - 1, dividend / divisor) {
        return Next::Ended(Ending::Abend(11));
    }
    let at = cpu.first_based(it);
    let right = at.plus(u32::from(l1 - l2));
    put_field(space, at, l1 - l2 - 1, dividend / divisor, signs_differ(o));
    put_field(space, right, l2, dividend % divisor, o.first.minus);
    Next::On
}

/// MP: multiplies the first field by the second.
pub fn multiply<P: Space>(cpu: &mut Cpu, space: &mut P, it: &Decoded) -> Next
    ensures { Performs P.memory P.bytes (decimal_row Op.MP it.now.code) cpu.old space.old cpu.new space.new result }
{
    if !is_shorter(it) {
        return Next::Ended(Ending::Abend(6));
    }
    if let Err(e) = test_replaced(cpu, space, it) {
        return Next::Ended(e);
    }
    match read_operands(cpu, space, it) {
        Some(o) => put_product(cpu, space, it, o),
        None => Next::Ended(Ending::Abend(7)),
    }
}

/// DP: divides the first field by the second, and leaves quotient and remainder in it.
pub fn divide<P: Space>(cpu: &mut Cpu, space: &mut P, it: &Decoded) -> Next
    ensures { Performs P.memory P.bytes (decimal_row Op.DP it.now.code) cpu.old space.old cpu.new space.new result }
{
    if !is_shorter(it) {
        return Next::Ended(Ending::Abend(6));
    }
    if let Err(e) = test_replaced(cpu, space, it) {
        return Next::Ended(e);
    }
    match read_operands(cpu, space, it) {
        Some(o) => put_quotient(cpu, space, it, o),
        None => Next::Ended(Ending::Abend(7)),
    }
}
