//! The code of a generated module, drawn block by block.
ghost use Rattle.std.specs.Prelude.{◌≡◌, ◌+◌, ◌*◌, ◌≤◌, ◌<◌, ◌++◌, length, IfOk};
ghost use Rattle.job_gen.specs.Meaning.{next, drawn, test_block, block, after_block, code_bytes, code_from};

use crate::instruction::{Instruction, Operation};
use cov_base::NoMemory;
use std::alloc::Global;

/// A linear congruential generator modulo 2^32.
#[derive(Drop)]
struct Draws {
    state: u32,
}

impl Draws {
    /// The next number below n, from the high half of the state that follows.
    fn draw(&mut self, n: u16) -> u16
        requires { 0 < n }
        ensures value { result ≡ drawn self.new.state n }
        ensures below { result < n }
        ensures state { self.new.state ≡ next self.old.state }
    {
        let product = u64::from(self.state) * 1_103_515_245 + 12_345;
        self.state = (product % 4_294_967_296) as u32;
        (self.state / 65_536) as u16 % n
    }
}

/// Puts LTR, BC under the mask to the location behind, and LCR behind the code.
fn put_test(code: &mut Vec<Instruction>, mask: u16, behind: u16) -> Result<(), NoMemory>
    requires mask { mask ≤ 15 }
    requires behind { behind ≤ 4008 }
    ensures { IfOk result (λ _. code.new.items ≡ code.old.items ++ test_block mask behind) }
{
    code.push(Instruction {
        operation: Operation::Ltr,
        first: 0x1222,
        second: None,
    })?;
    code.push(Instruction {
        operation: Operation::Bc,
        first: 0x4700 + 16 * mask,
        second: Some(0xF000 + behind),
    })?;
    code.push(Instruction {
        operation: Operation::Lcr,
        first: 0x1322,
        second: None,
    })?;
    Ok(())
}

/// Puts the next block, which begins at this location, behind the code: the location behind it.
fn put_block(code: &mut Vec<Instruction>, draws: &mut Draws, at: u16) -> Result<u16, NoMemory>
    requires { at ≤ 4000 }
    ensures code { IfOk result (λ _. code.new.items ≡ code.old.items ++ block draws.old.state at) }
    ensures at { IfOk result (λ n. n ≡ at + length (code_bytes (block draws.old.state at))) }
    ensures state { IfOk result (λ _. draws.new.state ≡ after_block draws.old.state) }
{
    match draws.draw(4) {
        0 => {
            let number = draws.draw(16);
            code.push(Instruction {
                operation: Operation::La,
                first: 0x4110,
                second: Some(0x1000 + number),
            })?;
            Ok(at + 4)
        }
        1 => {
            code.push(Instruction {
                operation: Operation::Ar,
                first: 0x1A21,
                second: None,
            })?;
            Ok(at + 2)
        }
        2 => {
            let mask = 1 + draws.draw(14);
            put_test(code, mask, at + 8)?;
            Ok(at + 8)
        }
        _ => {
            let word = draws.draw(64);
            code.push(Instruction {
                operation: Operation::St,
                first: 0x5020,
                second: Some(4 * word),
            })?;
            Ok(at + 4)
        }
    }
}

/// The code of so many blocks, at most 400, drawn from this state on.
pub(crate) fn code_of(alloc: Global, state: u32, blocks: u16) -> Result<Vec<Instruction>, NoMemory>
    requires { blocks ≤ 400 }
    ensures code { IfOk result (λ v. v.items ≡ code_from blocks state 0) }
    ensures most { IfOk result (λ v. length v.items ≤ 2000) }
{
    let mut draws = Draws { state };
    let mut code = Vec::new(alloc);
    let mut at = 0;
    for _block in 0..blocks {
        at = put_block(&mut code, &mut draws, at)?;
    }
    code.push(Instruction {
        operation: Operation::Bct,
        first: 0x4630,
        second: Some(0xF000),
    })?;
    code.push(Instruction {
        operation: Operation::Br,
        first: 0x07FE,
        second: None,
    })?;
    Ok(code)
}
