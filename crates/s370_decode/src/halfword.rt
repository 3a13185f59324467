//! What an instruction's first halfword tells of its length and kind.
ghost use Rattle.std.specs.Prelude.{◌≡◌, ◌<◌, ◌≤◌};
ghost use Rattle.cov_base.specs.Meaning.{length_of, kind_of, is_partial, is_conditional};

use cov_base::Kind;

/// The instruction's length in bytes: 2, 4 or 6 (Principles of Operation, "Instruction Formats").
#[tactic(auto, unfolding(cov_base::specs::Meaning::length_of))]
pub fn length(h0: u16) -> u8
    ensures value { result ≡ length_of h0 }
    ensures least { 2 ≤ result }
    ensures most { result ≤ 6 }
{
    if h0 < 16_384 {
        2
    } else if h0 < 49_152 {
        4
    } else {
        6
    }
}

/// Whether the instruction may both branch and fall through: BC with a mask from 1 to 14, BCR with one and
/// R2 not 0, BCT, BCTR with R2 not 0, BXH and BXLE.
#[tactic(auto, unfolding(cov_base::specs::Meaning::kind_of))]
pub fn kind(h0: u16) -> Kind
    ensures { result ≡ kind_of h0 }
{
    if is_conditional(h0 / 256, h0 % 256) {
        Kind::Conditional
    } else {
        Kind::Straight
    }
}

fn is_partial(mask: u16) -> bool
    ensures { result ≡ is_partial mask }
{
    1 <= mask && mask <= 14
}

fn is_conditional(code: u16, second: u16) -> bool
    ensures { result ≡ is_conditional code second }
{
    if code == 71 {
        is_partial(second / 16)
    } else if code == 7 {
        is_partial(second / 16) && second % 16 != 0
    } else if code == 70 {
        true
    } else if code == 6 {
        second % 16 != 0
    } else if code == 134 {
        true
    } else {
        code == 135
    }
}
