//! The operations that load, store or compute with a word or halfword in storage: the most frequent where all operations are told
//! apart, the others each a call in a frame of its own; but for L and ST, which stand in the match of all operations.
ghost use Rattle.std.specs.Prelude.{◌≡◌};
ghost use Rattle.s370_exec.specs.Does.{CarriesOn};

use crate::instruction::{Told, onward};
use s370_decode::{Decoded, Op};
use s370_fixed::{
    add_half, add_word, compare_half, compare_word, load_half, store_half, subtract_half,
    subtract_word,
};
use s370_logic::{add_logical_word, subtract_logical_word};
use s370_state::{Cpu, Ending, Space};

/// LH.
#[inline(always)]
pub(crate) fn load_half_onward<P: Space>(
    cpu: &mut Cpu,
    space: &mut P,
    it: &Decoded,
    end: &mut Ending,
) -> Told
    ensures { CarriesOn P.memory P.bytes it.now Op.LH cpu.old space.old cpu.new space.new result end.new }
{
    let n = load_half(cpu, space, it);
    onward(cpu, it.next, n, end)
}

/// STH.
#[inline(always)]
pub(crate) fn store_half_onward<P: Space>(
    cpu: &mut Cpu,
    space: &mut P,
    it: &Decoded,
    end: &mut Ending,
) -> Told
    ensures { CarriesOn P.memory P.bytes it.now Op.STH cpu.old space.old cpu.new space.new result end.new }
{
    let n = store_half(cpu, space, it);
    onward(cpu, it.next, n, end)
}

/// A.
#[inline(always)]
pub(crate) fn add_word_onward<P: Space>(
    cpu: &mut Cpu,
    space: &mut P,
    it: &Decoded,
    end: &mut Ending,
) -> Told
    ensures { CarriesOn P.memory P.bytes it.now Op.A cpu.old space.old cpu.new space.new result end.new }
{
    let n = add_word(cpu, space, it);
    onward(cpu, it.next, n, end)
}

/// AH.
#[inline(never)]
pub(crate) fn add_half_apart<P: Space>(
    cpu: &mut Cpu,
    space: &mut P,
    it: &Decoded,
    end: &mut Ending,
) -> Told
    ensures { CarriesOn P.memory P.bytes it.now Op.AH cpu.old space.old cpu.new space.new result end.new }
{
    let n = add_half(cpu, space, it);
    onward(cpu, it.next, n, end)
}

/// S.
#[inline(never)]
pub(crate) fn subtract_word_apart<P: Space>(
    cpu: &mut Cpu,
    space: &mut P,
    it: &Decoded,
    end: &mut Ending,
) -> Told
    ensures { CarriesOn P.memory P.bytes it.now Op.S cpu.old space.old cpu.new space.new result end.new }
{
    let n = subtract_word(cpu, space, it);
    onward(cpu, it.next, n, end)
}

/// SH.
#[inline(never)]
pub(crate) fn subtract_half_apart<P: Space>(
    cpu: &mut Cpu,
    space: &mut P,
    it: &Decoded,
    end: &mut Ending,
) -> Told
    ensures { CarriesOn P.memory P.bytes it.now Op.SH cpu.old space.old cpu.new space.new result end.new }
{
    let n = subtract_half(cpu, space, it);
    onward(cpu, it.next, n, end)
}

/// AL.
#[inline(never)]
pub(crate) fn add_logical_word_apart<P: Space>(
    cpu: &mut Cpu,
    space: &mut P,
    it: &Decoded,
    end: &mut Ending,
) -> Told
    ensures { CarriesOn P.memory P.bytes it.now Op.AL cpu.old space.old cpu.new space.new result end.new }
{
    let n = add_logical_word(cpu, space, it);
    onward(cpu, it.next, n, end)
}

/// SL.
#[inline(never)]
pub(crate) fn subtract_logical_word_apart<P: Space>(
    cpu: &mut Cpu,
    space: &mut P,
    it: &Decoded,
    end: &mut Ending,
) -> Told
    ensures { CarriesOn P.memory P.bytes it.now Op.SL cpu.old space.old cpu.new space.new result end.new }
{
    let n = subtract_logical_word(cpu, space, it);
    onward(cpu, it.next, n, end)
}

/// C.
#[inline(never)]
pub(crate) fn compare_word_apart<P: Space>(
    cpu: &mut Cpu,
    space: &mut P,
    it: &Decoded,
    end: &mut Ending,
) -> Told
    ensures { CarriesOn P.memory P.bytes it.now Op.C cpu.old space.old cpu.new space.new result end.new }
{
    let n = compare_word(cpu, space, it);
    onward(cpu, it.next, n, end)
}

/// CH.
#[inline(never)]
pub(crate) fn compare_half_apart<P: Space>(
    cpu: &mut Cpu,
    space: &mut P,
    it: &Decoded,
    end: &mut Ending,
) -> Told
    ensures { CarriesOn P.memory P.bytes it.now Op.CH cpu.old space.old cpu.new space.new result end.new }
{
    let n = compare_half(cpu, space, it);
    onward(cpu, it.next, n, end)
}
