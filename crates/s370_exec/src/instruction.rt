//! The effect of an instruction that was fetched whole.
ghost use Rattle.std.specs.Prelude.{◌≡◌, ℕ, ◌*◌, ◌/◌, ◌<◌, ◌≤◌, List, true, false, IsSome};
ghost use Rattle.std.specs.declared.option.Option.TheVariants.{Some, None};
ghost use Rattle.cov_base.specs.Meaning.{Memory, IoView};
ghost use Rattle.s370_state.specs.Meaning.{machine_of};
ghost use Rattle.s370_decode.specs.Meaning.{first_half, i2, op_of};
ghost use Rattle.s370_decode.specs.Groups.{group_of};
ghost use Rattle.s370_exec.specs.Does.{Does, Executes, CarriesOut, Branches, GoesOnward, Tries};
ghost use Rattle.s370_exec.specs.Meaning.{effect, is_completed, updated, link_code, is_execute};
ghost use Rattle.s370_exec.specs.Effects.{effect_of, next_of, executed, is_plain};

use crate::calls::task_call;
use crate::fields::{
    compare_fields_apart, compare_immediate_onward, insert_character_onward, load_multiple_apart,
    move_characters_apart, move_immediate_onward, store_character_onward, store_multiple_apart,
    test_under_mask_onward,
};
use crate::stored::{
    add_half_apart, add_logical_word_apart, add_word_onward, compare_half_apart,
    compare_word_apart, load_half_onward, store_half_onward, subtract_half_apart,
    subtract_logical_word_apart, subtract_word_apart,
};
use cov_base::Addr;
use s370_branch::{
    branch, branch_and_link, branch_and_link_register, branch_on_condition,
    branch_on_condition_register, branch_on_count, branch_on_count_register,
};
use s370_decimal::{decimal, edit};
use s370_decode::{Code, Decoded, Group, Op, group_of};
use s370_fixed::{
    add_register, compare_register, fixed, load_address, load_and_test, load_complement,
    load_register, load_word, store_word, subtract_register,
};
use s370_logic::logic;
use s370_state::{Cpu, Ending, Next, Space, TaskIo};
use s370_storage::storage;

/// Whether a task goes on. Unlike `Next` it fits a register: how the task has ended is told beside it.
#[derive(Clone, Copy)]
pub enum Told {
    GoesOn,
    HasEnded,
}

/// Whether the ending comes once the results are in place, as those by codes 8 and X'A' do.
fn is_completed(e: &Ending) -> bool
    ensures { result ≡ is_completed e.now }
{
    match e {
        Ending::Abend(code) => { if *code == 8 { true } else { *code == 10 } }
        _ => false,
    }
}

/// The task has ended so, where need be at the updated address. Out of line, so that the loop stays short.
#[cold]
#[inline(never)]
fn stop(cpu: &mut Cpu, to: Addr, end: &Ending)
    ensures { GoesOnward to (Next.Ended end.now) cpu.old cpu.new (Next.Ended end.now) }
{
    if is_completed(end) {
        cpu.go(to);
    }
}

/// Goes on at the updated address, unless the task has ended: then `end` tells how.
#[inline(always)]
pub(crate) fn onward(cpu: &mut Cpu, to: Addr, next: Next, end: &mut Ending) -> Told
    ensures { GoesOnward to next cpu.old cpu.new (next_of result end.new) }
{
    match next {
        Next::On => {
            cpu.go(to);
            Told::GoesOn
        }
        Next::Ended(e) => {
            *end = e;
            stop(cpu, to, end);
            Told::HasEnded
        }
    }
}

/// The updated address: the EX's plus 4, else the instruction's plus its length.
fn updated(it: &Decoded, ex: &Option<Addr>) -> Addr
    ensures { result ≡ updated it.now.code ex.now }
{
    match ex {
        None => it.next,
        Some(x) => (*x).plus(4),
    }
}

/// The length code: 1 for two bytes and 2 for more, 2 under EX.
fn link_code(code: &Code, ex: &Option<Addr>) -> u8
    ensures value { result ≡ link_code code.now ex.now }
    ensures most { result ≤ 2 }
{
    match ex {
        None => if code.len == 2 { 1 } else { 2 },
        Some(_) => 2,
    }
}

/// A privileged operation ends a task, which runs in the problem state, by code 2.
fn privileged() -> Ending
    ensures { result ≡ Ending.Abend 2 }
{
    Ending::Abend(2)
}

/// Where the task has ended `end` tells how.
fn tell(next: Next, end: &mut Ending) -> Told
    ensures { next_of result end.new ≡ next }
{
    match next {
        Next::On => Told::GoesOn,
        Next::Ended(e) => {
            *end = e;
            Told::HasEnded
        }
    }
}

/// A branch in a frame of its own.
#[inline(never)]
#[tactic(auto, using(crate::proofs::Groups::by_group))]
fn branch_apart(cpu: &mut Cpu, it: &Decoded, next: Addr, link: u8) -> Told
    requires group { group_of it.now.op ≡ Group.Branch }
    requires link { link ≤ 2 }
    ensures { Branches it.now.code it.now.op next link cpu.old cpu.new result }
{
    branch(cpu, it, next, link);
    Told::GoesOn
}

/// The group's operations, in a frame of their own.
#[inline(never)]
#[tactic(auto, using(crate::proofs::Groups::by_group))]
fn fixed_apart<P: Space>(
    cpu: &mut Cpu,
    space: &mut P,
    it: &Decoded,
    next: Addr,
    end: &mut Ending,
) -> Told
    requires group { group_of it.now.op ≡ Group.Fixed }
    ensures { CarriesOut P.memory P.bytes it.now.code it.now.op next cpu.old space.old cpu.new space.new result end.new }
{
    let n = fixed(cpu, space, it);
    onward(cpu, next, n, end)
}

/// The group's operations, in a frame of their own.
#[inline(never)]
#[tactic(auto, using(crate::proofs::Groups::by_group))]
fn logic_apart<P: Space>(
    cpu: &mut Cpu,
    space: &mut P,
    it: &Decoded,
    next: Addr,
    end: &mut Ending,
) -> Told
    requires group { group_of it.now.op ≡ Group.Logic }
    ensures { CarriesOut P.memory P.bytes it.now.code it.now.op next cpu.old space.old cpu.new space.new result end.new }
{
    let n = logic(cpu, space, it);
    onward(cpu, next, n, end)
}

/// The group's operations, in a frame of their own.
#[inline(never)]
#[tactic(auto, using(crate::proofs::Groups::by_group))]
fn storage_apart<P: Space>(
    cpu: &mut Cpu,
    space: &mut P,
    it: &Decoded,
    next: Addr,
    end: &mut Ending,
) -> Told
    requires group { group_of it.now.op ≡ Group.Storage }
    ensures { CarriesOut P.memory P.bytes it.now.code it.now.op next cpu.old space.old cpu.new space.new result end.new }
{
    let n = storage(cpu, space, it);
    onward(cpu, next, n, end)
}

/// The group's operations, in a frame of their own.
#[inline(never)]
#[tactic(auto, using(crate::proofs::Groups::by_group))]
fn decimal_apart<P: Space>(
    cpu: &mut Cpu,
    space: &mut P,
    it: &Decoded,
    next: Addr,
    end: &mut Ending,
) -> Told
    requires group { group_of it.now.op ≡ Group.Decimal }
    ensures { CarriesOut P.memory P.bytes it.now.code it.now.op next cpu.old space.old cpu.new space.new result end.new }
{
    let n = decimal(cpu, space, it);
    onward(cpu, next, n, end)
}

/// Carries out an instruction whatever its operation, also the subject of an EX at an address.
#[inline(never)]
#[tactic(auto, using(crate::proofs::Groups::by_group))]
fn carry_out_apart<P: Space>(
    cpu: &mut Cpu,
    space: &mut P,
    io: &mut TaskIo,
    it: &Decoded,
    ex: Option<Addr>,
    end: &mut Ending,
) -> Told
    ensures { Executes P.memory P.bytes it.now.code ex cpu.old space.old io.old cpu.new space.new io.new result end.new }
{
    let next = updated(it, &ex);
    match group_of(it.op) {
        Group::Fixed => fixed_apart(cpu, space, it, next, end),
        Group::Logic => logic_apart(cpu, space, it, next, end),
        Group::Storage => storage_apart(cpu, space, it, next, end),
        Group::Decimal => decimal_apart(cpu, space, it, next, end),
        Group::Edit => {
            let n = edit(cpu, space, it);
            onward(cpu, next, n, end)
        }
        Group::Branch => branch_apart(cpu, it, next, link_code(&it.code, &ex)),
        Group::Call => tell(task_call(cpu, space, io, it.code.i2(), next), end),
        Group::Supervisor => tell(Next::Ended(privileged()), end),
        Group::Missing => tell(Next::Ended(Ending::Abend(1)), end),
    }
}

/// Whether it is the code of an operation with an index, but for EX, BAL, BCT and BC, in few of the host's instructions.
fn has_index(code: u8) -> bool {
    let from_execute = code ^ 0x44;
    4 <= from_execute && from_execute < 32
}

/// Executes an instruction of a frequent operation on registers. None of another one, which it leaves as it is.
#[inline(always)]
fn execute_on_registers<P: Space, Caller>(
    cpu: &mut Cpu,
    space: &mut P,
    io: &mut TaskIo,
    it: &Decoded,
    end: &mut Ending,
) -> Option<Told>
    ensures tries { Tries P.memory P.bytes it.now.code cpu.old space.old io.old cpu.new space.new io.new result end.new }
    ensures plain { IsSome result → is_plain it.now.op ≡ true }
{
    // Loaded before the choice: behind it the compiler makes one tail of all arms, to which each jumps.
    let next = it.next;
    match it.op {
        Op::LR => {
            let n = load_register(cpu, space, it);
            Some(onward(cpu, next, n, end))
        }
        Op::LTR => {
            let n = load_and_test(cpu, space, it);
            Some(onward(cpu, next, n, end))
        }
        Op::LCR => {
            let n = load_complement(cpu, space, it);
            Some(onward(cpu, next, n, end))
        }
        Op::AR => {
            let n = add_register(cpu, space, it);
            Some(onward(cpu, next, n, end))
        }
        Op::SR => {
            let n = subtract_register(cpu, space, it);
            Some(onward(cpu, next, n, end))
        }
        Op::CR => {
            let n = compare_register(cpu, space, it);
            Some(onward(cpu, next, n, end))
        }
        Op::BCR => {
            branch_on_condition_register(cpu, it, next);
            Some(Told::GoesOn)
        }
        Op::BCTR => {
            branch_on_count_register(cpu, it, next);
            Some(Told::GoesOn)
        }
        Op::BALR => {
            branch_and_link_register(cpu, it, next, link_code(&it.code, &None));
            Some(Told::GoesOn)
        }
        _ => None,
    }
}

/// The same of an operation on a register and an operand with an index, but for branches.
#[inline(always)]
fn execute_with_index<P: Space, Caller>(
    cpu: &mut Cpu,
    space: &mut P,
    io: &mut TaskIo,
    it: &Decoded,
    end: &mut Ending,
) -> Option<Told>
    ensures tries { Tries P.memory P.bytes it.now.code cpu.old space.old io.old cpu.new space.new io.new result end.new }
    ensures plain { IsSome result → is_plain it.now.op ≡ true }
{
    let next = it.next;
    match it.op {
        Op::LA => {
            let n = load_address(cpu, space, it);
            Some(onward(cpu, next, n, end))
        }
        Op::L => {
            let n = load_word(cpu, space, it);
            Some(onward(cpu, next, n, end))
        }
        Op::ST => {
            let n = store_word(cpu, space, it);
            Some(onward(cpu, next, n, end))
        }
        Op::LH => Some(load_half_onward(cpu, space, it, end)),
        Op::STH => Some(store_half_onward(cpu, space, it, end)),
        Op::A => Some(add_word_onward(cpu, space, it, end)),
        Op::AH => Some(add_half_apart(cpu, space, it, end)),
        Op::S => Some(subtract_word_apart(cpu, space, it, end)),
        Op::SH => Some(subtract_half_apart(cpu, space, it, end)),
        Op::AL => Some(add_logical_word_apart(cpu, space, it, end)),
        Op::SL => Some(subtract_logical_word_apart(cpu, space, it, end)),
        Op::C => Some(compare_word_apart(cpu, space, it, end)),
        Op::CH => Some(compare_half_apart(cpu, space, it, end)),
        Op::IC => Some(insert_character_onward(cpu, space, it, end)),
        Op::STC => Some(store_character_onward(cpu, space, it, end)),
        _ => None,
    }
}

/// The same of a branch to storage, and of an operation on several registers, an immediate byte or fields.
#[inline(always)]
fn execute_otherwise<P: Space, Caller>(
    cpu: &mut Cpu,
    space: &mut P,
    io: &mut TaskIo,
    it: &Decoded,
    end: &mut Ending,
) -> Option<Told>
    ensures tries { Tries P.memory P.bytes it.now.code cpu.old space.old io.old cpu.new space.new io.new result end.new }
    ensures plain { IsSome result → is_plain it.now.op ≡ true }
{
    let next = it.next;
    match it.op {
        Op::LM => Some(load_multiple_apart(cpu, space, it, end)),
        Op::STM => Some(store_multiple_apart(cpu, space, it, end)),
        Op::MVI => Some(move_immediate_onward(cpu, space, it, end)),
        Op::CLI => Some(compare_immediate_onward(cpu, space, it, end)),
        Op::TM => Some(test_under_mask_onward(cpu, space, it, end)),
        Op::BC => {
            branch_on_condition(cpu, it, next);
            Some(Told::GoesOn)
        }
        Op::BCT => {
            branch_on_count(cpu, it, next);
            Some(Told::GoesOn)
        }
        Op::BAL => {
            branch_and_link(cpu, it, next, link_code(&it.code, &None));
            Some(Told::GoesOn)
        }
        Op::MVC => Some(move_characters_apart(cpu, space, it, end)),
        Op::CLC => Some(compare_fields_apart(cpu, space, it, end)),
        _ => None,
    }
}

/// Executes an instruction of a frequent operation, under no EX. None of another operation, which it leaves as it is. The frequent
/// ones have their steps here or in a call of their own. Where the task has ended `end` tells how. `Caller` is for the compiler
/// alone, which takes a function into the only place that calls it: each caller with another one has its own.
#[inline(always)]
pub fn execute_frequent<P: Space, Caller>(
    cpu: &mut Cpu,
    space: &mut P,
    io: &mut TaskIo,
    it: &Decoded,
    end: &mut Ending,
) -> Option<Told>
    ensures tries { Tries P.memory P.bytes it.now.code cpu.old space.old io.old cpu.new space.new io.new result end.new }
    ensures plain { IsSome result → is_plain it.now.op ≡ true }
{
    // Three choices by jumps of their own: in a long program the processor foresees one jump for all of them ill.
    if it.code.len == 2 {
        return execute_on_registers::<P, Caller>(cpu, space, io, it, end);
    }
    if has_index(it.code.bytes[0]) {
        return execute_with_index::<P, Caller>(cpu, space, io, it, end);
    }
    execute_otherwise::<P, Caller>(cpu, space, io, it, end)
}

/// How a task goes on that was told so; where it has ended `end` tells how.
#[inline(always)]
pub fn next_of(told: Told, end: &Ending) -> Next
    ensures { result ≡ next_of told end.now }
{
    match told {
        Told::GoesOn => Next::On,
        Told::HasEnded => Next::Ended(*end),
    }
}

/// A call of its own, so that where a task goes on one test tells it.
#[cold]
#[inline(never)]
fn ended(end: Ending) -> Next
    ensures { result ≡ Next.Ended end }
{
    Next::Ended(end)
}

/// The same in the place where it is called, so that its room is not cleared where a task goes on.
#[inline(always)]
fn how_ended(end: &Ending) -> Next
    ensures { result ≡ Next.Ended end.now }
{
    ended(*end)
}

/// Executes an instruction that is no EX, under the order of tests from the operation on; `ex` is the address of the EX
/// that executes it.
#[inline(always)]
pub fn execute<P: Space>(
    cpu: &mut Cpu,
    space: &mut P,
    io: &mut TaskIo,
    it: &Decoded,
    ex: Option<Addr>,
) -> Next
    requires subject { is_execute (first_half it.now.code) ≡ false }
    ensures { Does P.memory P.bytes (executed it.now.code ex) cpu.old space.old io.old cpu.new space.new io.new result }
{
    let mut end = Ending::Spent;
    match carry_out_apart(cpu, space, io, it, ex, &mut end) {
        Told::GoesOn => Next::On,
        Told::HasEnded => how_ended(&end),
    }
}
