//! Packing and unpacking of decimal digits, and moves with an offset of half a byte.
#![tactic(auto, using(s370_state::proofs::Laws::passes, s370_state::proofs::Laws::refuses))]

ghost use Rattle.std.specs.Prelude.{◌≡◌, ◌+◌, ◌-◌, ◌*◌, ◌/◌, ◌%◌, ◌<◌, ◌≤◌, ◌∷◌, [], Some, None, true, slice_set, IfOk, IfErr, if◌then◌else◌, ◌==◌};
ghost use Rattle.s370_state.specs.Row.{Performs};
ghost use Rattle.s370_state.specs.Parts.{Tested};
ghost use Rattle.s370_storage.specs.Meaning.{fields, source, result_at, exchanged, packed_byte, packed, with_zoned, unpacked, shifted, field_uses, storage_row};
ghost use Rattle.s370_storage.specs.Tested.{AreOpen};

use cov_base::Addr;
use s370_decode::{Decoded, Op};
use s370_state::{Cpu, Ending, Next, Space, byte_of, put_into, test_store_read};

/// The field of results and that of sources: where each begins, and the number of its last byte, 0 to 15.
#[derive(Drop)]
pub struct Fields {
    pub to: Addr,
    pub to_last: u32,
    pub from: Addr,
    pub from_last: u32,
}

/// Both fields as the instruction gives them.
fn fields_of(cpu: &Cpu, it: &Decoded) -> Fields
    ensures fields { result ≡ fields cpu.now it.now.code }
    ensures to { result.to_last < 16 }
    ensures from { result.from_last < 16 }
{
    Fields {
        to: cpu.first_based(it),
        to_last: u32::from(it.first),
        from: cpu.second_based(it),
        from_last: u32::from(it.second),
    }
}

/// Tests both fields, of which the first is stored.
fn test_fields<P: Space>(space: &P, o: &Fields) -> Result<(), Ending>
    requires to { o.now.to_last < 16 }
    requires from { o.now.from_last < 16 }
    ensures tested { Tested (P.memory space.now) (field_uses o.now) result }
    ensures open { IfOk result (λ _. AreOpen (P.memory space.now) o.now) }
{
    test_store_read(space, o.to, o.to_last + 1, o.from, o.from_last + 1)
}

/// Source byte k from the right; zero where the source has ended.
fn source<P: Space>(space: &P, o: &Fields, k: u32) -> u8
    requires { AreOpen (P.memory space.now) o.now }
    ensures { result ≡ source (P.memory space.now) (P.bytes space.now) o.now k }
{
    if k <= o.from_last {
        byte_of(space, o.from, o.from_last - k, o.from_last + 1)
    } else {
        0
    }
}

/// Stores result byte k from the right.
fn put_result<P: Space>(space: &mut P, o: &Fields, k: u32, value: u8)
    requires within { k ≤ o.now.to_last }
    requires open { AreOpen (P.memory space.old) o.now }
    ensures memory { P.memory space.new ≡ P.memory space.old }
    ensures bytes { P.bytes space.new ≡ slice_set (P.bytes space.old) (result_at o.now k) value }
{
    put_into(space, o.to, o.to_last - k, o.to_last + 1, value);
}

/// The halves of a byte exchanged.
fn exchanged(value: u8) -> u8
    ensures { result ≡ exchanged value }
{
    value % 16 * 16 + value / 16
}

/// Result byte k of PACK.
fn packed_byte<P: Space>(space: &P, o: &Fields, k: u32) -> u8
    requires k { k < 16 }
    requires open { AreOpen (P.memory space.now) o.now }
    ensures { result ≡ packed_byte (P.memory space.now) (P.bytes space.now) o.now k }
{
    if k == 0 {
        return exchanged(source(space, o, 0));
    }
    let right = source(space, o, 2 * k - 1);
    let left = source(space, o, 2 * k);
    left % 16 * 16 + right % 16
}

/// Forms each result byte of PACK.
#[tactic(auto, using(crate::proofs::Digits::packed_none, crate::proofs::Digits::packed_more))]
fn pack_bytes<P: Space>(space: &mut P, o: &Fields)
    requires { AreOpen (P.memory space.old) o.now }
    ensures memory { P.memory space.new ≡ P.memory space.old }
    ensures bytes { P.bytes space.new ≡ packed (P.memory space.old) (P.bytes space.old) o.now (o.now.to_last + 1) }
{
    for k in 0..o.to_last + 1 {
        let value = packed_byte(space, o, k);
        put_result(space, o, k, value);
    }
}

/// PACK: packs the digits of zoned bytes, two to a byte.
pub fn pack<P: Space>(cpu: &mut Cpu, space: &mut P, it: &Decoded) -> Next
    ensures { Performs P.memory P.bytes (storage_row Op.PACK it.now.code) cpu.old space.old cpu.new space.new result }
{
    let o = fields_of(cpu, it);
    if let Err(e) = test_fields(space, &o) {
        return Next::Ended(e);
    }
    pack_bytes(space, &o);
    Next::On
}

/// Stores result byte k, and the next to its left if there is one, from the halves of a source byte.
fn put_zoned<P: Space>(space: &mut P, o: &Fields, k: u32, value: u8)
    requires within { k ≤ o.now.to_last }
    requires open { AreOpen (P.memory space.old) o.now }
    ensures memory { P.memory space.new ≡ P.memory space.old }
    ensures bytes { P.bytes space.new ≡ with_zoned (P.bytes space.old) o.now k value }
{
    put_result(space, o, k, 0xF0 + value % 16);
    if k < o.to_last {
        put_result(space, o, k + 1, 0xF0 + value / 16);
    }
}

/// Forms each result byte of UNPK; a source byte is read once, and gives two.
#[tactic(auto, using(crate::proofs::Digits::unpacked_none, crate::proofs::Digits::unpacked_more))]
fn unpack_bytes<P: Space>(space: &mut P, o: &Fields)
    requires { AreOpen (P.memory space.old) o.now }
    ensures memory { P.memory space.new ≡ P.memory space.old }
    ensures bytes { P.bytes space.new ≡ unpacked (P.memory space.old) (P.bytes space.old) o.now ((o.now.to_last + 1) / 2) }
{
    let rightmost = exchanged(source(space, o, 0));
    put_result(space, o, 0, rightmost);
    for j in 0..(o.to_last + 1) / 2 {
        let value = source(space, o, j + 1);
        put_zoned(space, o, 2 * j + 1, value);
    }
}

/// UNPK: gives each packed digit a zoned byte.
pub fn unpack<P: Space>(cpu: &mut Cpu, space: &mut P, it: &Decoded) -> Next
    ensures { Performs P.memory P.bytes (storage_row Op.UNPK it.now.code) cpu.old space.old cpu.new space.new result }
{
    let o = fields_of(cpu, it);
    if let Err(e) = test_fields(space, &o) {
        return Next::Ended(e);
    }
    unpack_bytes(space, &o);
    Next::On
}

/// Forms each result byte of MVO; the left half of a source byte waits for the next.
#[tactic(auto, using(crate::proofs::Digits::shifted_none, crate::proofs::Digits::shifted_more))]
fn shift_bytes<P: Space>(space: &mut P, o: &Fields)
    requires { AreOpen (P.memory space.old) o.now }
    ensures memory { P.memory space.new ≡ P.memory space.old }
    ensures bytes { P.bytes space.new ≡ (shifted (P.memory space.old) (P.bytes space.old) o.now (o.now.to_last + 1)).bytes }
{
    let mut half = byte_of(space, o.to, o.to_last, o.to_last + 1) % 16;
    for k in 0..o.to_last + 1 {
        let value = source(space, o, k);
        put_result(space, o, k, value % 16 * 16 + half);
        half = value / 16;
    }
}

/// MVO: moves half bytes to the left of the first operand's last half byte.
pub fn move_with_offset<P: Space>(cpu: &mut Cpu, space: &mut P, it: &Decoded) -> Next
    ensures { Performs P.memory P.bytes (storage_row Op.MVO it.now.code) cpu.old space.old cpu.new space.new result }
{
    let o = fields_of(cpu, it);
    if let Err(e) = test_fields(space, &o) {
        return Next::Ended(e);
    }
    shift_bytes(space, &o);
    Next::On
}
