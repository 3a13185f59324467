//! An instruction as a task's loop finds it.
ghost use Rattle.std.specs.Prelude.{◌≡◌};
ghost use Rattle.brk_table.specs.Keys.{key_of};

use cov_base::{Addr, RETURN_ADDRESS};
use s370_decode::{Code, Decoded};

/// A decoded instruction, and the key by which it is found where a task goes on: its address, but at the return address, at which
/// a task executes nothing, X'1000000', which is no address.
#[derive(Drop)]
pub struct Kept {
    pub decoded: Decoded,
    pub key: u32,
    ghost keyed: { key ≡ key_of decoded.code.at },
}

/// The key of an address.
fn key_of(at: Addr) -> u32
    ensures { result ≡ key_of at }
{
    if at.get() == RETURN_ADDRESS {
        16_777_216
    } else {
        at.get()
    }
}

/// The instruction, decoded, with its key.
pub fn keep(code: Code) -> Kept
    ensures { result.decoded.code ≡ code }
{
    let key = key_of(code.at);
    Kept {
        decoded: Decoded::of(code),
        key,
    }
}
