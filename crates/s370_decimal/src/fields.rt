//! The room of packed decimal fields.
ghost use Rattle.std.specs.Prelude.{◌≡◌, ◌+◌, ◌*◌, ◌^◌, ◌<◌, ◌≤◌};
ghost use Rattle.s370_decimal.specs.Meaning.{fits_field};

/// 10 to the power k, read from a table.
fn short_power(k: u8) -> u64
    requires { k < 20 }
    ensures { result ≡ 10 ^ k }
{
    match k {
        0 => 1,
        1 => 10,
        2 => 100,
        3 => 1_000,
        4 => 10_000,
        5 => 100_000,
        6 => 1_000_000,
        7 => 10_000_000,
        8 => 100_000_000,
        9 => 1_000_000_000,
        10 => 10_000_000_000,
        11 => 100_000_000_000,
        12 => 1_000_000_000_000,
        13 => 10_000_000_000_000,
        14 => 100_000_000_000_000,
        15 => 1_000_000_000_000_000,
        16 => 10_000_000_000_000_000,
        17 => 100_000_000_000_000_000,
        18 => 1_000_000_000_000_000_000,
        _ => 10_000_000_000_000_000_000,
    }
}

/// 10 to the power k, which fits 64 bits below 20.
#[tactic(auto, using(crate::proofs::Powers::power_fits, crate::proofs::Powers::power_short, crate::proofs::Powers::power_above))]
pub fn power(k: u8) -> u128
    requires { k ≤ 38 }
    ensures value { result ≡ 10 ^ k }
    ensures above { 0 < result }
{
    if k < 20 {
        u128::from(short_power(k))
    } else {
        10u128.pow(u32::from(k))
    }
}

/// Whether the magnitude is one of 2l + 1 digits.
pub fn fits(l: u8, v: u128) -> bool
    requires { l ≤ 15 }
    ensures { result ≡ fits_field l v }
{
    v < power(2 * l + 1)
}
