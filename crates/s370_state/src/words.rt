//! The signed number in a register (Principles of Operation, "Fixed-Point Arithmetic", "Number Representation"), that of eight
//! bytes, and the condition code of a comparison.
ghost use Rattle.std.specs.Prelude.{◌≡◌, ◌+◌, ◌<◌, ◌≤◌, ◌^◌, ℕ, length, slice_index, ℤ, pos, neg_ℤ, ◌≤ℤ◌, ◌<ℤ◌};
ghost use Rattle.s370_state.specs.Halves.{number_from};
ghost use Rattle.s370_state.specs.Meaning.{signed, order_code};

use std::cmp::Ordering;

/// The register as a signed number, -2^31 to 2^31 - 1.
#[tactic(auto, unfolding(crate::specs::Meaning::signed))]
pub fn signed(w: u32) -> i64
    ensures value { result ≡ signed w }
    ensures low { neg_ℤ (pos 2147483648) ≤ℤ result }
    ensures high { result <ℤ pos 2147483648 }
{
    i64::from(w.cast_signed())
}

/// The number of eight bytes of a row, from this one on, of which the first is the highest.
#[inline(always)]
#[tactic(auto, unfolding(crate::specs::Halves::number_from))]
pub fn doubleword(row: &[u8], from: usize) -> u64
    requires { from + 8 ≤ length row.now }
    ensures number { result ≡ number_from row.now from 8 }
    ensures bytes { (i : ℕ) → i < 8 → slice_index row.now (from + i) < 256 }
{
    u64::from_be_bytes([
        row[from],
        row[from + 1],
        row[from + 2],
        row[from + 3],
        row[from + 4],
        row[from + 5],
        row[from + 6],
        row[from + 7],
    ])
}

/// The condition code of a comparison: 0 equal, 1 the first low, 2 the first high.
pub fn order_code(order: Ordering) -> u8
    ensures value { result ≡ order_code order }
    ensures below { result ≤ 2 }
{
    match order {
        Ordering::Equal => 0,
        Ordering::Less => 1,
        Ordering::Greater => 2,
    }
}
