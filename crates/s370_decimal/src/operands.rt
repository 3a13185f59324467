//! The two fields that an operation works on, tested and read.
ghost use Rattle.std.specs.Prelude.{◌≡◌, ◌+◌, ◌*◌, ◌^◌, ◌<◌, Some, None, true, IfOk, IfErr, IfSome};
ghost use Rattle.cov_base.specs.Meaning.{can_store};
ghost use Rattle.s370_state.specs.Parts.{Tested};
ghost use Rattle.s370_decode.specs.Meaning.{e1};
ghost use Rattle.s370_decimal.specs.Meaning.{l1, l2, replaces, reads_both, operands};
ghost use Rattle.s370_decimal.specs.Reached.{AreReached};

use s370_decode::Decoded;
use s370_state::{Cpu, Ending, Field, Space, field_at, test_read_both, test_store_read};

/// What the two fields of an operation hold.
#[derive(Clone, Copy)]
pub struct Operands {
    pub first: Field,
    pub second: Field,
}

/// Tests a first field that is replaced and a second that is read.
#[inline(always)]
pub fn test_replaced<P: Space>(cpu: &Cpu, space: &P, it: &Decoded) -> Result<(), Ending>
    ensures tested { Tested (P.memory space.now) (replaces cpu.now it.now.code) result }
    ensures reached { IfOk result (λ _. AreReached (P.memory space.now) cpu.now it.now.code) }
    ensures store { IfOk result (λ _. can_store (P.memory space.now) (e1 cpu.now it.now.code) (l1 it.now.code + 1) ≡ true) }
{
    let a = cpu.first_based(it);
    let b = cpu.second_based(it);
    test_store_read(
        space,
        a,
        u32::from(it.first) + 1,
        b,
        u32::from(it.second) + 1,
    )
}

/// Tests two fields that are read: code 5 by either, then touch by the first, then by the second.
pub fn test_compared<P: Space>(cpu: &Cpu, space: &P, it: &Decoded) -> Result<(), Ending>
    ensures tested { Tested (P.memory space.now) (reads_both cpu.now it.now.code) result }
    ensures reached { IfOk result (λ _. AreReached (P.memory space.now) cpu.now it.now.code) }
{
    let a = cpu.first_based(it);
    let b = cpu.second_based(it);
    test_read_both(
        space,
        a,
        u32::from(it.first) + 1,
        b,
        u32::from(it.second) + 1,
    )
}

/// What the two fields hold; none where a digit or the sign of either is bad.
#[inline(always)]
pub fn read_operands<P: Space>(cpu: &Cpu, space: &P, it: &Decoded) -> Option<Operands>
    requires { AreReached (P.memory space.now) cpu.now it.now.code }
    ensures operands { result ≡ operands (P.memory space.now) cpu.now (P.bytes space.now) it.now.code }
    ensures second { IfSome result (λ o. o.second.magnitude < 10 ^ (2 * l2 it.now.code + 1)) }
    ensures first_most { IfSome result (λ o. o.first.magnitude < 10000000000000000000000000000000) }
    ensures second_most { IfSome result (λ o. o.second.magnitude < 10000000000000000000000000000000) }
{
    match field_at(space, cpu.first_based(it), it.first) {
        Some(first) => match field_at(space, cpu.second_based(it), it.second) {
            Some(second) => Some(Operands { first, second }),
            None => None,
        },
        None => None,
    }
}
