//! The one call for all operations of signed numbers and loads.
ghost use Rattle.std.specs.Prelude.{◌≡◌};
ghost use Rattle.s370_decode.specs.Groups.{group_of};
ghost use Rattle.s370_state.specs.Row.{Performs};
ghost use Rattle.s370_fixed.specs.Meaning.{fixed_row};

use crate::conversions::{convert_to_binary, convert_to_decimal};
use crate::loads::{
    load_address, load_and_test, load_complement, load_half, load_negative, load_positive,
    load_register, load_word, store_half, store_word,
};
use crate::products::{
    divide_register, divide_word, multiply_half, multiply_register, multiply_word,
};
use crate::shifts::{shift_left, shift_left_double, shift_right, shift_right_double};
use crate::sums::{
    add_half, add_register, add_word, compare_half, compare_register, compare_word, subtract_half,
    subtract_register, subtract_word,
};
use s370_decode::{Decoded, Group, Op};
use s370_state::{Cpu, Next, Space};

/// Performs an operation of signed numbers and loads: LR L LH LTR LCR LPR LNR LA ST STH, AR A AH SR S SH CR C CH, MR M MH
/// DR D, SLA SRA SLDA SRDA, CVB and CVD (Principles of Operation, "General Instructions"). All tests are made before
/// anything is changed. The task ends with code 6 where R1 of a pair is odd, 5 where an operand is inaccessible, 4 where a
/// stored one is not private, Touched by a touch byte that is read, 7 by a bad digit or sign of CVB, and 9 by a divide or
/// CVB whose result doesn't fit, all without a change; and with code 8, under the mask's first bit, after an overflow has
/// completed. The instruction address is left as it is. Takes no memory.
pub fn fixed<P: Space>(cpu: &mut Cpu, space: &mut P, it: &Decoded) -> Next
    requires { group_of it.now.op ≡ Group.Fixed }
    ensures { Performs P.memory P.bytes (fixed_row it.now.op it.now.code) cpu.old space.old cpu.new space.new result }
{
    match it.op {
        Op::LR => load_register(cpu, space, it),
        Op::L => load_word(cpu, space, it),
        Op::LH => load_half(cpu, space, it),
        Op::LTR => load_and_test(cpu, space, it),
        Op::LCR => load_complement(cpu, space, it),
        Op::LPR => load_positive(cpu, space, it),
        Op::LNR => load_negative(cpu, space, it),
        Op::LA => load_address(cpu, space, it),
        Op::ST => store_word(cpu, space, it),
        Op::STH => store_half(cpu, space, it),
        Op::AR => add_register(cpu, space, it),
        Op::A => add_word(cpu, space, it),
        Op::AH => add_half(cpu, space, it),
        Op::SR => subtract_register(cpu, space, it),
        Op::S => subtract_word(cpu, space, it),
        Op::SH => subtract_half(cpu, space, it),
        Op::CR => compare_register(cpu, space, it),
        Op::C => compare_word(cpu, space, it),
        Op::CH => compare_half(cpu, space, it),
        Op::MR => multiply_register(cpu, space, it),
        Op::M => multiply_word(cpu, space, it),
        Op::MH => multiply_half(cpu, space, it),
        Op::DR => divide_register(cpu, space, it),
        Op::D => divide_word(cpu, space, it),
        Op::SLA => shift_left(cpu, space, it),
        Op::SRA => shift_right(cpu, space, it),
        Op::SLDA => shift_left_double(cpu, space, it),
        Op::SRDA => shift_right_double(cpu, space, it),
        Op::CVB => convert_to_binary(cpu, space, it),
        Op::CVD => convert_to_decimal(cpu, space, it),
        _ => unreachable!(),
    }
}
