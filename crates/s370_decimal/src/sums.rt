//! Sums, differences and comparisons.
ghost use Rattle.std.specs.Prelude.{◌≡◌, ◌<◌, ◌≤◌, ◌+ℤ◌, ◌-ℤ◌};
ghost use Rattle.std.specs.Ordering.{int_cmp};
ghost use Rattle.s370_state.specs.Row.{Performs};
ghost use Rattle.s370_state.specs.Meaning.{number, order_code};
ghost use Rattle.s370_decimal.specs.Meaning.{decimal_row};
ghost use Rattle.s370_decimal.specs.Kept.{number_kept};

use crate::operands::{Operands, read_operands, test_compared, test_replaced};
use crate::results::{Kept, keep, put_result};
use s370_decode::{Decoded, Op};
use s370_state::{Cpu, Ending, Next, Space, field_at, number, order_code};

/// What a field of length code l keeps of a number.
fn keep_number(l: u8, z: i128) -> Kept
    requires { l ≤ 15 }
    ensures { result ≡ number_kept l z }
{
    keep(l, z.unsigned_abs(), z < 0)
}

/// What the field keeps of the sum.
fn keep_sum(l: u8, o: Operands) -> Kept
    requires length { l ≤ 15 }
    requires first { o.first.magnitude < 10000000000000000000000000000000 }
    requires second { o.second.magnitude < 10000000000000000000000000000000 }
    ensures { result ≡ number_kept l (number o.first +ℤ number o.second) }
{
    let sum = number(o.first) + number(o.second);
    keep_number(l, sum)
}

/// What the field keeps of the difference.
fn keep_difference(l: u8, o: Operands) -> Kept
    requires length { l ≤ 15 }
    requires first { o.first.magnitude < 10000000000000000000000000000000 }
    requires second { o.second.magnitude < 10000000000000000000000000000000 }
    ensures { result ≡ number_kept l (number o.first -ℤ number o.second) }
{
    let difference = number(o.first) - number(o.second);
    keep_number(l, difference)
}

/// AP: adds the second field to the first.
pub fn add<P: Space>(cpu: &mut Cpu, space: &mut P, it: &Decoded) -> Next
    ensures { Performs P.memory P.bytes (decimal_row Op.AP it.now.code) cpu.old space.old cpu.new space.new result }
{
    if let Err(e) = test_replaced(cpu, space, it) {
        return Next::Ended(e);
    }
    match read_operands(cpu, space, it) {
        Some(o) => {
            let at = cpu.first_based(it);
            put_result(cpu, space, at, it.first, keep_sum(it.first, o))
        }
        None => Next::Ended(Ending::Abend(7)),
    }
}

/// SP: subtracts the second field from the first.
pub fn subtract<P: Space>(cpu: &mut Cpu, space: &mut P, it: &Decoded) -> Next
    ensures { Performs P.memory P.bytes (decimal_row Op.SP it.now.code) cpu.old space.old cpu.new space.new result }
{
    if let Err(e) = test_replaced(cpu, space, it) {
        return Next::Ended(e);
    }
    match read_operands(cpu, space, it) {
        Some(o) => {
            let at = cpu.first_based(it);
            put_result(cpu, space, at, it.first, keep_difference(it.first, o))
        }
        None => Next::Ended(Ending::Abend(7)),
    }
}

/// ZAP: puts the second field in place of the first.
pub fn zero_and_add<P: Space>(cpu: &mut Cpu, space: &mut P, it: &Decoded) -> Next
    ensures { Performs P.memory P.bytes (decimal_row Op.ZAP it.now.code) cpu.old space.old cpu.new space.new result }
{
    if let Err(e) = test_replaced(cpu, space, it) {
        return Next::Ended(e);
    }
    match field_at(space, cpu.second_based(it), it.second) {
        Some(f) => {
            let at = cpu.first_based(it);
            put_result(
                cpu,
                space,
                at,
                it.first,
                keep(it.first, f.magnitude, f.minus),
            )
        }
        None => Next::Ended(Ending::Abend(7)),
    }
}

/// The condition code of the comparison.
fn comparison(o: Operands) -> u8
    requires first { o.first.magnitude < 10000000000000000000000000000000 }
    requires second { o.second.magnitude < 10000000000000000000000000000000 }
    ensures value { result ≡ order_code (int_cmp (number o.first) (number o.second)) }
    ensures below { result ≤ 2 }
{
    order_code(number(o.first).cmp(&number(o.second)))
}

/// CP: compares the fields.
pub fn compare<P: Space>(cpu: &mut Cpu, space: &mut P, it: &Decoded) -> Next
    ensures { Performs P.memory P.bytes (decimal_row Op.CP it.now.code) cpu.old space.old cpu.new space.new result }
{
    if let Err(e) = test_compared(cpu, space, it) {
        return Next::Ended(e);
    }
    match read_operands(cpu, space, it) {
        Some(o) => {
            cpu.set_cc(comparison(o));
            Next::On
        }
        None => Next::Ended(Ending::Abend(7)),
    }
}
