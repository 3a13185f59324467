//! The frequent operations on bytes, fields and several registers: those on one byte where all operations are told apart, the others
//! each a call in a frame of its own.
ghost use Rattle.std.specs.Prelude.{◌≡◌};
ghost use Rattle.s370_exec.specs.Does.{CarriesOn};

use crate::instruction::{Told, onward};
use s370_decode::{Decoded, Op};
use s370_logic::{
    compare_fields, compare_fields_own, compare_immediate, insert_character, move_immediate,
    store_character, test_under_mask,
};
use s370_state::{Cpu, Ending, Next, Space};
use s370_storage::{
    load_multiple, load_multiple_own, move_characters, move_characters_own, store_multiple,
    store_multiple_own,
};

/// STM.
#[inline(never)]
pub(crate) fn store_multiple_apart<P: Space>(
    cpu: &mut Cpu,
    space: &mut P,
    it: &Decoded,
    end: &mut Ending,
) -> Told
    ensures { CarriesOn P.memory P.bytes it.now Op.STM cpu.old space.old cpu.new space.new result end.new }
{
    if store_multiple_own(cpu, space, it) {
        onward(cpu, it.next, Next::On, end)
    } else {
        store_multiple_far(cpu, space, it, end)
    }
}

/// The same where not all is in private storage.
#[cold]
#[inline(never)]
fn store_multiple_far<P: Space>(
    cpu: &mut Cpu,
    space: &mut P,
    it: &Decoded,
    end: &mut Ending,
) -> Told
    ensures { CarriesOn P.memory P.bytes it.now Op.STM cpu.old space.old cpu.new space.new result end.new }
{
    let n = store_multiple(cpu, space, it);
    onward(cpu, it.next, n, end)
}

/// LM.
#[inline(never)]
pub(crate) fn load_multiple_apart<P: Space>(
    cpu: &mut Cpu,
    space: &mut P,
    it: &Decoded,
    end: &mut Ending,
) -> Told
    ensures { CarriesOn P.memory P.bytes it.now Op.LM cpu.old space.old cpu.new space.new result end.new }
{
    if load_multiple_own(cpu, space, it) {
        onward(cpu, it.next, Next::On, end)
    } else {
        load_multiple_far(cpu, space, it, end)
    }
}

/// The same where not all is in private storage.
#[cold]
#[inline(never)]
fn load_multiple_far<P: Space>(cpu: &mut Cpu, space: &mut P, it: &Decoded, end: &mut Ending) -> Told
    ensures { CarriesOn P.memory P.bytes it.now Op.LM cpu.old space.old cpu.new space.new result end.new }
{
    let n = load_multiple(cpu, space, it);
    onward(cpu, it.next, n, end)
}

/// IC.
#[inline(always)]
pub(crate) fn insert_character_onward<P: Space>(
    cpu: &mut Cpu,
    space: &mut P,
    it: &Decoded,
    end: &mut Ending,
) -> Told
    ensures { CarriesOn P.memory P.bytes it.now Op.IC cpu.old space.old cpu.new space.new result end.new }
{
    let n = insert_character(cpu, space, it);
    onward(cpu, it.next, n, end)
}

/// STC.
#[inline(always)]
pub(crate) fn store_character_onward<P: Space>(
    cpu: &mut Cpu,
    space: &mut P,
    it: &Decoded,
    end: &mut Ending,
) -> Told
    ensures { CarriesOn P.memory P.bytes it.now Op.STC cpu.old space.old cpu.new space.new result end.new }
{
    let n = store_character(cpu, space, it);
    onward(cpu, it.next, n, end)
}

/// MVI.
#[inline(always)]
pub(crate) fn move_immediate_onward<P: Space>(
    cpu: &mut Cpu,
    space: &mut P,
    it: &Decoded,
    end: &mut Ending,
) -> Told
    ensures { CarriesOn P.memory P.bytes it.now Op.MVI cpu.old space.old cpu.new space.new result end.new }
{
    let n = move_immediate(cpu, space, it);
    onward(cpu, it.next, n, end)
}

/// CLI.
#[inline(always)]
pub(crate) fn compare_immediate_onward<P: Space>(
    cpu: &mut Cpu,
    space: &mut P,
    it: &Decoded,
    end: &mut Ending,
) -> Told
    ensures { CarriesOn P.memory P.bytes it.now Op.CLI cpu.old space.old cpu.new space.new result end.new }
{
    let n = compare_immediate(cpu, space, it);
    onward(cpu, it.next, n, end)
}

/// TM.
#[inline(always)]
pub(crate) fn test_under_mask_onward<P: Space>(
    cpu: &mut Cpu,
    space: &mut P,
    it: &Decoded,
    end: &mut Ending,
) -> Told
    ensures { CarriesOn P.memory P.bytes it.now Op.TM cpu.old space.old cpu.new space.new result end.new }
{
    let n = test_under_mask(cpu, space, it);
    onward(cpu, it.next, n, end)
}

/// MVC.
#[inline(never)]
pub(crate) fn move_characters_apart<P: Space>(
    cpu: &mut Cpu,
    space: &mut P,
    it: &Decoded,
    end: &mut Ending,
) -> Told
    ensures { CarriesOn P.memory P.bytes it.now Op.MVC cpu.old space.old cpu.new space.new result end.new }
{
    if move_characters_own(cpu, space, it) {
        onward(cpu, it.next, Next::On, end)
    } else {
        move_characters_far(cpu, space, it, end)
    }
}

/// The same where not all is in private storage.
#[cold]
#[inline(never)]
fn move_characters_far<P: Space>(
    cpu: &mut Cpu,
    space: &mut P,
    it: &Decoded,
    end: &mut Ending,
) -> Told
    ensures { CarriesOn P.memory P.bytes it.now Op.MVC cpu.old space.old cpu.new space.new result end.new }
{
    let n = move_characters(cpu, space, it);
    onward(cpu, it.next, n, end)
}

/// CLC.
#[inline(never)]
pub(crate) fn compare_fields_apart<P: Space>(
    cpu: &mut Cpu,
    space: &mut P,
    it: &Decoded,
    end: &mut Ending,
) -> Told
    ensures { CarriesOn P.memory P.bytes it.now Op.CLC cpu.old space.old cpu.new space.new result end.new }
{
    if compare_fields_own(cpu, space, it) {
        onward(cpu, it.next, Next::On, end)
    } else {
        compare_fields_far(cpu, space, it, end)
    }
}

/// The same where not all is in private storage.
#[cold]
#[inline(never)]
fn compare_fields_far<P: Space>(
    cpu: &mut Cpu,
    space: &mut P,
    it: &Decoded,
    end: &mut Ending,
) -> Told
    ensures { CarriesOn P.memory P.bytes it.now Op.CLC cpu.old space.old cpu.new space.new result end.new }
{
    let n = compare_fields(cpu, space, it);
    onward(cpu, it.next, n, end)
}
