//! The one call for all operations on fields in storage.
ghost use Rattle.std.specs.Prelude.{◌≡◌};
ghost use Rattle.s370_decode.specs.Groups.{group_of};
ghost use Rattle.s370_state.specs.Row.{Performs};
ghost use Rattle.s370_storage.specs.Meaning.{storage_row};

use crate::long::{compare_long, move_long};
use crate::moves::{Part, move_characters, move_inverse, move_parts};
use crate::multiple::{load_multiple, store_multiple};
use crate::packing::{move_with_offset, pack, unpack};
use crate::translate::{translate, translate_and_test};
use s370_decode::{Decoded, Group, Op};
use s370_state::{Cpu, Next, Space};

/// Performs an operation on fields in storage: LM STM, MVC MVN MVZ MVCIN, TR TRT, MVCL CLCL, PACK UNPK and MVO (Principles
/// of Operation, "General Instructions"). All tests are made before anything is changed. The task ends with code 6 where
/// R1 or R2 of MVCL or CLCL is odd, 5 where an operand is inaccessible, 4 where a stored one is not private, and
/// Touched by a touch byte that is read, all without a change. Operands that overlap are worked a byte at a time, but
/// MVCL is refused by condition code 3 where it would move a byte after it was stored into. The instruction address is
/// left as it is. Takes no memory.
pub fn storage<P: Space>(cpu: &mut Cpu, space: &mut P, it: &Decoded) -> Next
    requires { group_of it.now.op ≡ Group.Storage }
    ensures { Performs P.memory P.bytes (storage_row it.now.op it.now.code) cpu.old space.old cpu.new space.new result }
{
    match it.op {
        Op::LM => load_multiple(cpu, space, it),
        Op::STM => store_multiple(cpu, space, it),
        Op::MVC => move_characters(cpu, space, it),
        Op::MVN => move_parts(Part::Numeric, cpu, space, it),
        Op::MVZ => move_parts(Part::Zone, cpu, space, it),
        Op::MVCIN => move_inverse(cpu, space, it),
        Op::TR => translate(cpu, space, it),
        Op::TRT => translate_and_test(cpu, space, it),
        Op::MVCL => move_long(cpu, space, it),
        Op::CLCL => compare_long(cpu, space, it),
        Op::PACK => pack(cpu, space, it),
        Op::UNPK => unpack(cpu, space, it),
        Op::MVO => move_with_offset(cpu, space, it),
        _ => unreachable!(),
    }
}
