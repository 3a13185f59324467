//! EX (Principles of Operation, "General Instructions", "Execute").
ghost use Rattle.std.specs.Prelude.{◌≡◌, ◌*◌, ◌/◌, ◌%◌, ◌<◌, IfOk, IfErr, Some, None, false};
ghost use Rattle.s370_decode.specs.Meaning as fields;
ghost use Rattle.s370_exec.specs.Meaning.{is_execute, subject_tests, code_at, modifier, merged};

use crate::fetch::fetch_rest;
use cov_base::Addr;
use s370_decode::{Code, Decoded};
use s370_state::{Cpu, Ending, Space};

/// Whether an instruction with this first halfword is EX, whose operation code is X'44'.
pub fn is_execute(half: u16) -> bool
    ensures { result ≡ is_execute half }
{
    half / 256 == 0x44
}

/// The address of the subject that an EX names. It isn't tested here: it can be odd, and hold anything.
pub fn subject_address(cpu: &Cpu, ex: &Code) -> Addr
    ensures { result ≡ fields.ex cpu.now ex.now }
{
    cpu.second_indexed(&Decoded::of(*ex))
}

/// What bits 8-15 of the subject are ORed with.
fn modifier(cpu: &Cpu, ex: &Code) -> u8
    ensures { result ≡ modifier cpu.now ex.now }
{
    if ex.r1() == 0 {
        0
    } else {
        (cpu.reg(ex.r1()) % 256) as u8
    }
}

/// The subject as the EX executes it: bits 8-15 ORed with bits 24-31 of R1, unless R1 is 0. The subject in storage stays
/// as it is, and so do the address, the operation code and the length. It isn't tested here: it can be itself EX.
#[tactic(auto, unfolding(crate::specs::Meaning::merged))]
pub fn merge(cpu: &Cpu, ex: &Code, subject: &Code) -> Code
    ensures { result ≡ merged cpu.now ex.now subject.now }
{
    let mut code = *subject;
    code.bytes[1] |= modifier(cpu, ex);
    code
}

/// The subject at the address as the EX executes it, whose first halfword is given. Code 3 exactly where it is itself
/// EX, else code 5 or Touched exactly by its first later halfword that is refused.
pub fn fetch_subject<P: Space>(
    cpu: &Cpu,
    space: &P,
    ex: &Code,
    at: Addr,
    h0: u16,
) -> Result<Code, Ending>
    ensures refused { IfErr result (λ e. subject_tests (P.memory space.now) at h0 ≡ Some e) }
    ensures passed { IfOk result (λ _. subject_tests (P.memory space.now) at h0 ≡ None) }
    ensures other { IfOk result (λ c. is_execute (fields.first_half c) ≡ false) }
    ensures code { IfOk result (λ c. c ≡ merged cpu.now ex.now (code_at (P.memory space.now) (P.bytes space.now) at h0)) }
{
    if is_execute(h0) {
        return Err(Ending::Abend(3));
    }
    match fetch_rest(space, at, h0) {
        Ok(subject) => Ok(merge(cpu, ex, &subject)),
        Err(e) => Err(e),
    }
}
