//! The instructions of the places, decoded, as a task's loop finds them.
ghost use Rattle.std.specs.Prelude.{◌≡◌, length, IfOk};
ghost use Rattle.brk_table.specs.Decoded.{AreDecoded, AreFirstDecoded};

use crate::kept::{Kept, keep};
use cov_base::{Addr, NoMemory, RETURN_ADDRESS};
use s370_decode::Code;
use std::alloc::Global;

/// What stands behind the last instruction, and is never found.
fn no_instruction() -> Kept
    ensures { result.key ≡ 16777216 }
{
    keep(Code {
        at: Addr::of(RETURN_ADDRESS),
        bytes: [0, 0, 0, 0, 0, 0],
        len: 2,
    })
}

/// Each of the instructions, decoded.
fn decoded(alloc: Global, codes: &[Code]) -> Result<Vec<Kept>, NoMemory>
    ensures { IfOk result (λ kept. AreFirstDecoded codes.now kept.items (length codes.now)) }
{
    let mut kept = Vec::with_capacity(alloc, codes.len())?;
    for i in 0..codes.len() {
        kept.push(keep(codes[i]))?;
    }
    Ok(kept)
}

/// Each of the instructions, decoded, and behind them two that are found at no address.
pub fn decode_all(alloc: Global, codes: &[Code]) -> Result<Vec<Kept>, NoMemory>
    ensures { IfOk result (λ kept. AreDecoded codes.now kept.items) }
{
    let mut kept = decoded(alloc, codes)?;
    kept.push(no_instruction())?;
    kept.push(no_instruction())?;
    Ok(kept)
}
