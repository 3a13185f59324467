//! An instruction that is decoded once and executed often.
ghost use Rattle.std.specs.Prelude.{◌≡◌, ◌+◌, ◌<◌, ◌≤◌};
ghost use Rattle.cov_base.specs.Meaning.{wrap};
ghost use Rattle.s370_decode.specs.Meaning.{first_half, op_of, r1, r2, b1, d1, b2, d2};
ghost use Rattle.s370_decode.specs.Decoded.{address_register};

use crate::code::Code;
use crate::op::Op;
use crate::table::op_of;
use cov_base::Addr;

/// An instruction with its operation, the address behind it, and its fields but those of a whole byte, so that each is one load. A
/// base or index is the number of the register that counts in an address, where 16 stands for none (Principles of Operation,
/// "Address Generation").
#[derive(Drop)]
pub struct Decoded {
    pub code: Code,
    pub next: Addr,
    pub op: Op,
    /// Bits 8-11, R1, a mask or a length code, and bits 12-15, R2, R3, a mask, a length code or an immediate digit.
    pub first: u8,
    pub second: u8,
    /// The second operand's base, index and displacement; the index is one in the RX format alone.
    pub base: u8,
    pub index: u8,
    pub displacement: u16,
    /// The first operand's base and displacement.
    pub first_base: u8,
    pub first_displacement: u16,
    ghost follows: { next ≡ wrap (code.at + code.len) },
    ghost operates: { op ≡ op_of (first_half code) },
    ghost is_first: { first ≡ r1 code },
    ghost first_register: { first < 16 },
    ghost is_second: { second ≡ r2 code },
    ghost second_register: { second < 16 },
    ghost based: { base ≡ address_register (b2 code) },
    ghost base_register: { base ≤ 16 },
    ghost base_field: { b2 code < 16 },
    ghost indexed: { index ≡ address_register (r2 code) },
    ghost index_register: { index ≤ 16 },
    ghost index_field: { r2 code < 16 },
    ghost displaced: { displacement ≡ d2 code },
    ghost first_based: { first_base ≡ address_register (b1 code) },
    ghost first_base_register: { first_base ≤ 16 },
    ghost first_base_field: { b1 code < 16 },
    ghost first_displaced: { first_displacement ≡ d1 code },
}

/// The register that counts in an address where a field has r, which is below 16: none for register 0.
fn address_register(r: u8) -> u8
    requires { r < 16 }
    ensures value { result ≡ address_register r }
    ensures most { result ≤ 16 }
{
    if r == 0 { 16 } else { r }
}

impl Decoded {
    /// The instruction, decoded.
    #[inline(always)]
    pub fn of(code: Code) -> Decoded
        ensures { result.code ≡ code }
    {
        Decoded {
            code,
            next: code.at.plus(u32::from(code.len)),
            op: op_of(code.first_half()),
            first: code.r1(),
            second: code.r2(),
            base: address_register(code.b2()),
            index: address_register(code.r2()),
            displacement: code.d2(),
            first_base: address_register(code.b1()),
            first_displacement: code.d1(),
        }
    }
}
