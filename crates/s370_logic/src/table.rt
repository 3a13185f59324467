//! The one call for all operations of logic, tests and numbers without signs.
ghost use Rattle.std.specs.Prelude.{◌≡◌};
ghost use Rattle.s370_decode.specs.Groups.{group_of};
ghost use Rattle.s370_state.specs.Row.{Performs};
ghost use Rattle.s370_logic.specs.Meaning.{logic_row};

use crate::bitwise::{Connective, join_fields, join_immediate, join_registers, join_word};
use crate::comparisons::{compare_fields, compare_immediate, compare_registers, compare_word};
use crate::masked::{compare_under_mask, insert_under_mask, store_under_mask};
use crate::single_bytes::{
    insert_character, move_immediate, set_program_mask, store_character, test_and_set,
    test_under_mask,
};
use crate::swaps::{compare_and_swap, compare_double_and_swap};
use crate::unsigned::{
    add_logical_register, add_logical_word, shift_left_double_logical, shift_left_logical,
    shift_right_double_logical, shift_right_logical, subtract_logical_register,
    subtract_logical_word,
};
use s370_decode::{Decoded, Group, Op};
use s370_state::{Cpu, Next, Space};

/// Performs an operation of logic and tests: NR N NI NC, OR O OI OC, XR X XI XC, CLR CL CLI CLC, IC STC, ICM STCM CLM,
/// TM MVI TS, CS CDS and SPM, or of numbers without signs: ALR AL SLR SL, SLL SRL SLDL and SRDL (Principles of Operation,
/// "General Instructions"). All tests are made before anything is changed. The task ends with code 6 where CS or CDS has
/// an operand that isn't aligned, or CDS, SLDL or SRDL an odd register, 5 where an operand is inaccessible, 4 where a
/// stored one is not private, and Touched by a touch byte that is read, all without a change. An operand that is stored
/// and read counts as stored, that of CS and CDS also where they only load. The instruction address is left as it is.
/// Takes no memory.
pub fn logic<P: Space>(cpu: &mut Cpu, space: &mut P, it: &Decoded) -> Next
    requires { group_of it.now.op ≡ Group.Logic }
    ensures { Performs P.memory P.bytes (logic_row it.now.op it.now.code) cpu.old space.old cpu.new space.new result }
{
    match it.op {
        Op::NR => join_registers(cpu, space, it, Connective::And),
        Op::N => join_word(cpu, space, it, Connective::And),
        Op::NI => join_immediate(cpu, space, it, Connective::And),
        Op::NC => join_fields(cpu, space, it, Connective::And),
        Op::OR => join_registers(cpu, space, it, Connective::Or),
        Op::O => join_word(cpu, space, it, Connective::Or),
        Op::OI => join_immediate(cpu, space, it, Connective::Or),
        Op::OC => join_fields(cpu, space, it, Connective::Or),
        Op::XR => join_registers(cpu, space, it, Connective::ExclusiveOr),
        Op::X => join_word(cpu, space, it, Connective::ExclusiveOr),
        Op::XI => join_immediate(cpu, space, it, Connective::ExclusiveOr),
        Op::XC => join_fields(cpu, space, it, Connective::ExclusiveOr),
        Op::CLR => compare_registers(cpu, space, it),
        Op::CL => compare_word(cpu, space, it),
        Op::CLI => compare_immediate(cpu, space, it),
        Op::CLC => compare_fields(cpu, space, it),
        Op::IC => insert_character(cpu, space, it),
        Op::STC => store_character(cpu, space, it),
        Op::ICM => insert_under_mask(cpu, space, it),
        Op::STCM => store_under_mask(cpu, space, it),
        Op::CLM => compare_under_mask(cpu, space, it),
        Op::TM => test_under_mask(cpu, space, it),
        Op::MVI => move_immediate(cpu, space, it),
        Op::TS => test_and_set(cpu, space, it),
        Op::CS => compare_and_swap(cpu, space, it),
        Op::CDS => compare_double_and_swap(cpu, space, it),
        Op::SPM => set_program_mask(cpu, space, it),
        Op::ALR => add_logical_register(cpu, space, it),
        Op::AL => add_logical_word(cpu, space, it),
        Op::SLR => subtract_logical_register(cpu, space, it),
        Op::SL => subtract_logical_word(cpu, space, it),
        Op::SLL => shift_left_logical(cpu, space, it),
        Op::SRL => shift_right_logical(cpu, space, it),
        Op::SLDL => shift_left_double_logical(cpu, space, it),
        Op::SRDL => shift_right_double_logical(cpu, space, it),
        _ => unreachable!(),
    }
}
