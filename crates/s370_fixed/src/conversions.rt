//! Conversions between a register and a packed decimal doubleword.
#![tactic(auto, using(s370_state::proofs::Laws::passes, s370_state::proofs::Laws::refuses, s370_state::proofs::Laws::good_data, s370_state::proofs::Laws::bad_data))]

ghost use Rattle.std.specs.Prelude.{◌≡◌, ℕ, ◌^◌, ◌<◌, List, if◌then◌else◌};
ghost use Rattle.s370_state.specs.Meaning.{machine_of};
ghost use Rattle.s370_state.specs.Row.{Performs, after};
ghost use Rattle.s370_state.specs.Parts.{finished};
ghost use Rattle.s370_fixed.specs.Meaning.{converted, fixed_row};

use crate::words::{is_word, low_word};
use s370_decode::{Decoded, Op};
use s370_state::{
    Cpu, Ending, Field, Next, Space, field_at, number, put_field, signed, test_read, test_store,
};

/// The length code of a doubleword.
const DOUBLEWORD: u8 = 7;

/// The number of a field of 15 digits goes to the register.
#[tactic(auto, unfolding(crate::specs::Meaning::converted, s370_state::specs::Meaning::number))]
fn convert(cpu: &mut Cpu, r: u8, f: Field) -> Next
    requires register { r < 16 }
    requires magnitude { f.magnitude < 10 ^ 15 }
    ensures { (bytes : List ℕ) → after cpu.new bytes result ≡ finished (λ s. converted s r f) (machine_of cpu.old bytes) }
{
    let z = number(f) as i64;
    if is_word(i128::from(z)) {
        cpu.set_reg(r, low_word(z));
        Next::On
    } else {
        Next::Ended(Ending::Abend(9))
    }
}

/// CVB: loads R1 with the number of a packed doubleword.
pub fn convert_to_binary<P: Space>(cpu: &mut Cpu, space: &mut P, it: &Decoded) -> Next
    ensures { Performs P.memory P.bytes (fixed_row Op.CVB it.now.code) cpu.old space.old cpu.new space.new result }
{
    let at = cpu.second_indexed(it);
    if let Err(e) = test_read(space, at, 8) {
        return Next::Ended(e);
    }
    match field_at(space, at, DOUBLEWORD) {
        Some(f) => convert(cpu, it.first, f),
        None => Next::Ended(Ending::Abend(7)),
    }
}

/// CVD: stores R1's number in a packed doubleword.
pub fn convert_to_decimal<P: Space>(cpu: &mut Cpu, space: &mut P, it: &Decoded) -> Next
    ensures { Performs P.memory P.bytes (fixed_row Op.CVD it.now.code) cpu.old space.old cpu.new space.new result }
{
    let at = cpu.second_indexed(it);
    if let Err(e) = test_store(space, at, 8) {
        return Next::Ended(e);
    }
    let z = signed(cpu.reg(it.first));
    put_field(space, at, DOUBLEWORD, u128::from(z.unsigned_abs()), z < 0);
    Next::On
}
