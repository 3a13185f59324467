//! The one call for all decimal operations.
ghost use Rattle.std.specs.Prelude.{◌≡◌};
ghost use Rattle.s370_decode.specs.Groups.{group_of};
ghost use Rattle.s370_state.specs.Row.{Performs};
ghost use Rattle.s370_decimal.specs.Meaning.{decimal_row};

use crate::products::{divide, multiply};
use crate::shifts::shift_and_round;
use crate::sums::{add, compare, subtract, zero_and_add};
use s370_decode::{Decoded, Group, Op};
use s370_state::{Cpu, Next, Space};

/// Performs a decimal operation: AP SP ZAP CP MP DP SRP (Principles of Operation, "Decimal Instructions"). Both fields
/// are tested and read whole before anything is stored. The task ends with code 6 by a length of MP or DP, 5 where a
/// field is inaccessible, 4 where the first one, but for CP, is not private, Touched by a touch byte of a field that is
/// only read, 7 by a bad digit or sign, by too few leading zeros of MP or a bad rounding digit of SRP, and X'B' by a
/// zero divisor or a quotient that is too long, all without a change; and with code X'A', under the mask's second bit,
/// after an overflow has completed. ZAP doesn't look at what its first field held. Registers and the instruction
/// address are left as they are. Takes no memory.
pub fn decimal<P: Space>(cpu: &mut Cpu, space: &mut P, it: &Decoded) -> Next
    requires { group_of it.now.op ≡ Group.Decimal }
    ensures { Performs P.memory P.bytes (decimal_row it.now.op it.now.code) cpu.old space.old cpu.new space.new result }
{
    match it.op {
        Op::AP => add(cpu, space, it),
        Op::SP => subtract(cpu, space, it),
        Op::ZAP => zero_and_add(cpu, space, it),
        Op::CP => compare(cpu, space, it),
        Op::MP => multiply(cpu, space, it),
        Op::DP => divide(cpu, space, it),
        Op::SRP => shift_and_round(cpu, space, it),
        _ => unreachable!(),
    }
}
