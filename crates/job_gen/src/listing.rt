//! The bytes and the listing of a generated module.
ghost use Rattle.std.specs.Prelude.{◌≡◌, ◌+◌, ◌-◌, ◌≤◌, ◌<◌, ◌++◌, length, replicate, IfOk};
ghost use Rattle.arrayvec.specs.ArrayVec.{array_vec_len};
ghost use Rattle.job_gen.specs.Meaning.{code_bytes, object, name_of, object_text, number_text, plain_line, made_listing, heading};

use crate::instruction::{Instruction, Operation};
use annotator::text::{add_hex, add_number, add_text};
use arrayvec::ArrayVec;
use cov_base::NoMemory;
use listing_reader::ListingLines;
use std::alloc::Global;

/// The bytes of the code.
pub(crate) fn bytes_of(alloc: Global, code: &[Instruction]) -> Result<Vec<u8>, NoMemory>
    ensures { IfOk result (λ v. v.items ≡ code_bytes code.now) }
{
    let mut bytes = Vec::new(alloc);
    for instruction in code {
        bytes.extend_from_slice(&instruction.first.to_be_bytes())?;
        if let Some(second) = instruction.second {
            bytes.extend_from_slice(&second.to_be_bytes())?;
        }
    }
    Ok(bytes)
}

/// Adds blanks up to so many columns, at most 160.
fn fill(line: &mut ArrayVec<u8, 160>, columns: usize)
    requires before { array_vec_len line.old ≤ columns }
    requires room { columns ≤ 160 }
    ensures items { line.new.items ≡ line.old.items ++ replicate (columns - array_vec_len line.old) 32 }
    ensures len { array_vec_len line.new ≡ columns }
{
    add_text(line, &[b' '; 160][..columns - line.len()]);
}

/// The object code in groups of four digits, in 27 columns.
#[tactic(auto, unfolding(crate::specs::Meaning::object_text))]
fn object_text(instruction: &Instruction) -> ArrayVec<u8, 160>
    ensures items { result.items ≡ object_text instruction.now }
    ensures len { array_vec_len result ≡ 27 }
{
    let mut text = ArrayVec::new();
    add_hex(&mut text, u32::from(instruction.first), 4);
    if let Some(second) = instruction.second {
        add_text(&mut text, b" ");
        add_hex(&mut text, u32::from(second), 4);
    }
    fill(&mut text, 27);
    text
}

/// The number in decimal, right in 5 columns where it has at most 5 digits.
#[tactic(auto, unfolding(crate::specs::Meaning::number_text))]
fn number_text(number: u32) -> ArrayVec<u8, 160>
    ensures items { result.items ≡ number_text number }
    ensures short { array_vec_len result ≤ 10 }
{
    let mut digits: ArrayVec<u8, 160> = ArrayVec::new();
    add_number(&mut digits, u64::from(number));
    let mut text = ArrayVec::new();
    if digits.len() < 5 {
        fill(&mut text, 5 - digits.len());
    }
    add_text(&mut text, digits.as_slice());
    text
}

/// Adds the mnemonic.
fn add_name(line: &mut ArrayVec<u8, 160>, operation: Operation)
    requires { array_vec_len line.old ≤ 150 }
    ensures items { line.new.items ≡ line.old.items ++ name_of operation }
    ensures short { array_vec_len line.new ≤ array_vec_len line.old + 3 }
{
    match operation {
        Operation::La => add_text(line, b"LA"),
        Operation::Ar => add_text(line, b"AR"),
        Operation::Ltr => add_text(line, b"LTR"),
        Operation::Bc => add_text(line, b"BC"),
        Operation::Lcr => add_text(line, b"LCR"),
        Operation::St => add_text(line, b"ST"),
        Operation::Bct => add_text(line, b"BCT"),
        Operation::Br => add_text(line, b"BR"),
    }
}

/// The line of an instruction at a location, with its statement's number.
#[tactic(auto, unfolding(crate::specs::Meaning::plain_line))]
fn plain_line(at: u32, number: u32, instruction: &Instruction) -> ArrayVec<u8, 160>
    requires { at < 16777216 }
    ensures { result.items ≡ plain_line at number instruction.now }
{
    let mut line = ArrayVec::new();
    add_hex(&mut line, at, 6);
    add_text(&mut line, b" ");
    add_text(&mut line, object_text(instruction).as_slice());
    add_text(&mut line, number_text(number).as_slice());
    add_text(&mut line, b"          ");
    add_name(&mut line, instruction.operation);
    line
}

/// The number of the instruction's bytes.
fn length_of(instruction: &Instruction) -> u32
    ensures value { result ≡ length (object instruction.now) }
    ensures most { result ≤ 4 }
{
    if instruction.second.is_some() { 4 } else { 2 }
}

/// The heading and the lines of the code, which has at most 2,000 instructions.
pub(crate) fn listing_of(alloc: Global, code: &[Instruction]) -> Result<ListingLines, NoMemory>
    requires { length code.now ≤ 2000 }
    ensures { IfOk result (λ l. l ≡ made_listing code.now) }
{
    let mut lines = ListingLines::new(alloc);
    lines.push(HEADING)?;
    let mut at = 0;
    for i in 0..code.len() {
        let line = plain_line(at, i as u32 + 1, &code[i]);
        lines.push(line.as_slice())?;
        at += length_of(&code[i]);
    }
    Ok(lines)
}

const HEADING: &[u8] = b"  Loc  Object Code    Addr1 Addr2  Stmt   Source Statement";
