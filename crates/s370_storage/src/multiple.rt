//! Loads and stores of several registers.
#![tactic(auto, using(s370_state::proofs::Laws::at_once, s370_state::proofs::Laws::passes, s370_state::proofs::Laws::refuses))]

ghost use Rattle.std.specs.Prelude.{◌≡◌, ◌+◌, ◌-◌, ◌*◌, ◌%◌, ◌<◌, ◌≤◌, true};
ghost use Rattle.cov_base.specs.Meaning.{can_reach, can_store};
ghost use Rattle.s370_state.specs.Fields.{AreBytes};
ghost use Rattle.s370_state.specs.Meaning.{number_at};
ghost use Rattle.s370_state.specs.Row.{Attempts, Performs};
ghost use Rattle.s370_storage.specs.Meaning.{many, loaded, stored, storage_row};

use cov_base::Addr;
use s370_decode::{Decoded, Op};
use s370_state::{
    Cpu, Next, Space, put_word, reads_own, stores_own, test_read, test_store, word_of,
};

/// How many registers there are from R1 to R3, 15 followed by 0.
fn count(it: &Decoded) -> u8
    ensures value { result ≡ many it.now.code }
    ensures most { result ≤ 16 }
{
    (it.second + 16 - it.first) % 16 + 1
}

/// Word i of n that stand in a row.
#[inline(always)]
fn word_in_row<P: Space>(_space: &P, at: Addr, n: u8, row: &[u8], i: u8) -> u32
    requires n { n ≤ 16 }
    requires row { AreBytes (P.memory _space.now) (P.bytes _space.now) at (4 * n) row.now }
    requires below { i < n }
    ensures { result ≡ number_at (P.memory _space.now) (P.bytes _space.now) (at + 4 * i) 4 }
{
    let k = 4 * i as usize;
    u32::from_be_bytes([row[k], row[k + 1], row[k + 2], row[k + 3]])
}

/// Loads n registers, r and on but none behind register 15, from words that stand in a row.
#[inline(always)]
#[tactic(auto, using(crate::proofs::Registers::loaded_none, crate::proofs::Registers::loaded_next))]
fn load_row<P: Space>(cpu: &mut Cpu, _space: &P, r: u8, at: Addr, n: u8, row: &[u8])
    requires last { r + n ≤ 16 }
    requires row { AreBytes (P.memory _space.now) (P.bytes _space.now) at (4 * n) row.now }
    ensures { cpu.new ≡ record cpu.old { regs = loaded (P.memory _space.now) (P.bytes _space.now) cpu.old.regs r at n } }
{
    for i in 0..n {
        cpu.set_reg(r + i, word_in_row(_space, at, n, row, i));
    }
}

/// Loads n registers, r and on.
#[tactic(auto, using(crate::proofs::Registers::loaded_none, crate::proofs::Registers::loaded_more))]
fn load_words<P: Space>(cpu: &mut Cpu, space: &P, r: u8, at: Addr, n: u8)
    requires r { r < 16 }
    requires n { n ≤ 16 }
    requires reach { can_reach (P.memory space.now) at (4 * n) ≡ true }
    ensures { cpu.new ≡ record cpu.old { regs = loaded (P.memory space.now) (P.bytes space.now) cpu.old.regs r at n } }
{
    for i in 0..n {
        cpu.set_reg(
            (r + i) % 16,
            word_of(space, at, 4 * u32::from(i), 4 * u32::from(n)),
        );
    }
}

/// Stores n registers, r and on.
#[tactic(auto, using(crate::proofs::Registers::stored_none, crate::proofs::Registers::stored_more))]
fn store_words<P: Space>(cpu: &Cpu, space: &mut P, r: u8, at: Addr, n: u8)
    requires r { r < 16 }
    requires n { n ≤ 16 }
    requires store { can_store (P.memory space.old) at (4 * n) ≡ true }
    ensures memory { P.memory space.new ≡ P.memory space.old }
    ensures bytes { P.bytes space.new ≡ stored (P.bytes space.old) cpu.now.regs r at n }
{
    for i in 0..n {
        put_word(
            space,
            at,
            4 * u32::from(i),
            4 * u32::from(n),
            cpu.reg((r + i) % 16),
        );
    }
}

/// LM where the words are seen at once to stand in private storage, and no register 0 comes behind register 15. Else it is
/// false, and nothing is done.
#[inline(always)]
pub fn load_multiple_own<P: Space>(cpu: &mut Cpu, space: &mut P, it: &Decoded) -> bool
    ensures { Attempts P.memory P.bytes (storage_row Op.LM it.now.code) cpu.old space.old cpu.new space.new result }
{
    let (r, n) = (it.first, count(it));
    let at = cpu.second_based(it);
    if r + n > 16 {
        return false;
    }
    if !reads_own(space, at, 4 * u32::from(n)) {
        return false;
    }
    match space.slice(at, 4 * u32::from(n)) {
        Some(row) => {
            load_row(cpu, space, r, at, n, row);
            true
        }
        None => false,
    }
}

/// STM where the words are seen at once to go to private storage, and no register 0 comes behind register 15. Else it is
/// false, and nothing is done.
#[inline(always)]
pub fn store_multiple_own<P: Space>(cpu: &mut Cpu, space: &mut P, it: &Decoded) -> bool
    ensures { Attempts P.memory P.bytes (storage_row Op.STM it.now.code) cpu.old space.old cpu.new space.new result }
{
    let (r, q) = (it.first, it.second);
    let at = cpu.second_based(it);
    if r > q {
        return false;
    }
    let n = q - r + 1;
    if !stores_own(space, at, 4 * u32::from(n)) {
        return false;
    }
    space.put_words(at, cpu.some_regs(r, q));
    true
}

/// LM: loads the registers from R1 to R3 from as many words.
pub fn load_multiple<P: Space>(cpu: &mut Cpu, space: &mut P, it: &Decoded) -> Next
    ensures { Performs P.memory P.bytes (storage_row Op.LM it.now.code) cpu.old space.old cpu.new space.new result }
{
    let n = count(it);
    let at = cpu.second_based(it);
    if let Err(e) = test_read(space, at, 4 * u32::from(n)) {
        return Next::Ended(e);
    }
    load_words(cpu, space, it.first, at, n);
    Next::On
}

/// STM: stores the registers from R1 to R3 in as many words.
pub fn store_multiple<P: Space>(cpu: &mut Cpu, space: &mut P, it: &Decoded) -> Next
    ensures { Performs P.memory P.bytes (storage_row Op.STM it.now.code) cpu.old space.old cpu.new space.new result }
{
    let n = count(it);
    let at = cpu.second_based(it);
    if let Err(e) = test_store(space, at, 4 * u32::from(n)) {
        return Next::Ended(e);
    }
    store_words(cpu, space, it.first, at, n);
    Next::On
}
