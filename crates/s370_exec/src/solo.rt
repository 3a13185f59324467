//! One instruction of a task alone, over modules that were never planted.
ghost use Rattle.std.specs.Prelude.{◌≡◌, ℕ, ◌+◌, ◌==◌, ◌∷◌, false};
ghost use Rattle.std.specs.declared.option.Option.TheVariants.{Some, None};
ghost use Rattle.cov_base.specs.Meaning.{half_at, IoView};
ghost use Rattle.s370_decode.specs.Meaning.{first_half, ex as subject_at};
ghost use Rattle.s370_exec.specs.Meaning.{is_execute, first_tests, call_in, subject_call, call_of, return_address, solo_step, subject_step, visit_of};
ghost use Rattle.s370_exec.specs.Does.{Steps, Answers, Shows, subject_of};
ghost use Rattle.s370_exec.specs.Solo.{subject_seen};

use crate::fetch::{fetch_first, fetch_whole};
use crate::instruction::execute;
use crate::subject::{fetch_subject, is_execute, subject_address};
use cov_base::{Addr, RETURN_ADDRESS};
use s370_branch::outcome;
use s370_decode::{Code, Decoded};
use s370_state::{Cpu, Next, Space, TaskIo};

/// Whether the task is at its return address.
pub fn has_returned(cpu: &Cpu) -> bool
    ensures { result ≡ (cpu.now.ia == return_address) }
{
    cpu.at().get() == RETURN_ADDRESS
}

fn is_ex(code: &Code) -> bool
    ensures { result ≡ is_execute (first_half code.now) }
{
    is_execute(code.first_half())
}

/// Executes the subject of an EX that was fetched whole.
fn step_subject<P: Space>(cpu: &mut Cpu, space: &mut P, io: &mut TaskIo, ex: &Code) -> Next
    ensures { Steps P.memory P.bytes (subject_of ex.now) cpu.old space.old io.old cpu.new space.new io.new result }
{
    let at = subject_address(cpu, ex);
    let half = match fetch_first(space, at) {
        Ok(half) => half,
        Err(e) => return Next::Ended(e),
    };
    let subject = match fetch_subject(cpu, space, ex, at, half) {
        Ok(code) => code,
        Err(e) => return Next::Ended(e),
    };
    execute(cpu, space, io, &Decoded::of(subject), Some(ex.at))
}

/// Executes one instruction, its subject included where it is EX. Neither budget nor return address is tested.
pub fn step<P: Space>(cpu: &mut Cpu, space: &mut P, io: &mut TaskIo) -> Next
    ensures { Steps P.memory P.bytes solo_step cpu.old space.old io.old cpu.new space.new io.new result }
{
    let code = match fetch_whole(space, cpu.at()) {
        Ok(code) => code,
        Err(e) => return Next::Ended(e),
    };
    if is_ex(&code) {
        return step_subject(cpu, space, io, &code);
    }
    execute(cpu, space, io, &Decoded::of(code), None)
}

/// Whether the subject that an EX visits branches as it is executed; false where it isn't begun.
fn subject_went<P: Space>(cpu: &Cpu, space: &P, ex: &Code, at: Addr, half: u16) -> bool
    requires at { at ≡ subject_at cpu.now ex.now }
    requires passed { first_tests (P.memory space.now) at ≡ None }
    requires half { half ≡ half_at (P.memory space.now) (P.bytes space.now) at }
    ensures { Shows (P.memory space.now) ex.now cpu.now (P.bytes space.now) (Some (at, result)) }
{
    match fetch_subject(cpu, space, ex, at, half) {
        Ok(subject) => outcome(cpu, &subject),
        Err(_) => false,
    }
}

/// The visit that an EX that was fetched whole makes of its subject: its address, and whether the subject branches.
fn subject_visit<P: Space>(cpu: &Cpu, space: &P, ex: &Code) -> Option<(Addr, bool)>
    ensures { Shows (P.memory space.now) ex.now cpu.now (P.bytes space.now) result }
{
    let at = subject_address(cpu, ex);
    match fetch_first(space, at) {
        Ok(half) => Some((at, subject_went(cpu, space, ex, at, half))),
        Err(_) => None,
    }
}

/// The address of the subject that the next instruction visits, and whether that branches as it is executed; none
/// where the instruction is no EX or ends before it visits its subject.
pub fn subject_seen<P: Space>(cpu: &Cpu, space: &P) -> Option<(Addr, bool)>
    ensures { Answers (λ s. subject_seen (solo_step (P.memory space.now) s).visits) cpu.now (P.bytes space.now) result }
{
    let code = match fetch_whole(space, cpu.at()) {
        Ok(code) => code,
        Err(_) => return None,
    };
    if is_ex(&code) {
        return subject_visit(cpu, space, &code);
    }
    None
}

/// Whether the next instruction branches; false where it isn't begun.
pub fn instruction_went<P: Space>(cpu: &Cpu, space: &P) -> bool
    ensures { Answers (λ s. (visit_of (solo_step (P.memory space.now) s) false).went) cpu.now (P.bytes space.now) result }
{
    match fetch_whole(space, cpu.at()) {
        Ok(code) => outcome(cpu, &code),
        Err(_) => false,
    }
}

/// The number of the supervisor call that the instruction is, whose operation code is X'0A'.
fn call_in(code: &Code) -> Option<u8>
    ensures { call_in code.now ≡ result }
{
    if code.bytes[0] == 0x0A {
        Some(code.bytes[1])
    } else {
        None
    }
}

/// The call that the subject of an EX that was fetched whole is, its number ORed.
fn subject_call<P: Space>(cpu: &Cpu, space: &P, ex: &Code) -> Option<u8>
    ensures { Answers (λ s. subject_call (P.memory space.now) s ex.now) cpu.now (P.bytes space.now) result }
{
    let at = subject_address(cpu, ex);
    let half = match fetch_first(space, at) {
        Ok(half) => half,
        Err(_) => return None,
    };
    match fetch_subject(cpu, space, ex, at, half) {
        Ok(subject) => call_in(&subject),
        Err(_) => None,
    }
}

/// The number of the supervisor call that the next instruction executes, itself or as EX; none where it executes
/// another instruction, or ends before it has fetched one whole.
pub fn supervisor_call<P: Space>(cpu: &Cpu, space: &P) -> Option<u8>
    ensures { Answers (call_of (P.memory space.now)) cpu.now (P.bytes space.now) result }
{
    let code = match fetch_whole(space, cpu.at()) {
        Ok(code) => code,
        Err(_) => return None,
    };
    if is_ex(&code) {
        return subject_call(cpu, space, &code);
    }
    call_in(&code)
}
