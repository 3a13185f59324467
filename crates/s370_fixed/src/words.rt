//! Numbers of which a register keeps 32 bits (Principles of Operation, "Fixed-Point Arithmetic", "Number Representation").
ghost use Rattle.std.specs.Prelude.{◌≡◌, ◌+◌, ◌%◌, ◌<◌, ◌≤◌, ◌^◌, not, ℤ, pos, neg_ℤ, ◌≤ℤ◌, ◌<ℤ◌};
ghost use Rattle.s370_fixed.specs.Meaning.{low_word, is_word, sign_code};

/// The number modulo 2^32, as a register holds it.
#[tactic(auto, unfolding(crate::specs::Meaning::low_word))]
#[inline(always)]
pub fn low_word(z: i64) -> u32
    ensures { result ≡ low_word z }
{
    if z >= 0 {
        (z as u64 % 4_294_967_296) as u32
    } else {
        4_294_967_295 - (!z as u64 % 4_294_967_296) as u32
    }
}

/// Whether the number fits a signed word; where it does not, a sum, a difference or a left shift overflows.
#[tactic(auto, unfolding(crate::specs::Meaning::is_word))]
#[inline(always)]
pub fn is_word(z: i128) -> bool
    ensures { result ≡ is_word z }
{
    -2_147_483_648 <= z && z < 2_147_483_648
}

/// Whether the number does not fit a signed word. This is one comparison without signs, which compilers know as the overflow
/// of a sum of words.
#[inline(always)]
pub fn is_beyond_word(z: i64) -> bool
    ensures { result ≡ not (is_word z) }
{
    z.wrapping_add(2_147_483_648).cast_unsigned() > 4_294_967_295
}

/// The condition code of a signed result that fits: 0 for zero, 1 for negative, 2 for positive.
#[tactic(auto, unfolding(crate::specs::Meaning::sign_code))]
#[inline(always)]
pub fn sign_code(z: i128) -> u8
    ensures value { result ≡ sign_code z }
    ensures below { result ≤ 2 }
{
    // By the outcomes of two comparisons, so that it takes no branch.
    let low = if z < 0 { 1 } else { 0 };
    let high = if z > 0 { 2 } else { 0 };
    low + high
}
