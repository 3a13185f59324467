//! The vectors' notation, and what runs them: a line's instruction is executed alone, and all that it could change is
//! compared.
use super::plain_space::PlainSpace;
use cov_base::Addr;
use s370_branch::{branch, outcome};
use s370_decode::{Code, Decoded, Group, group_of, length};
use s370_exec::{execute, is_execute};
use s370_state::{Cpu, Ending, Next, TaskIo};
use std::alloc::{AllocError, Global};
use std::process::Abort;
use std::test::Fail;

/// The updated address, but under EX.
const UPDATED: u32 = 0x10_0234;

/// The address of an instruction that EX executes.
const SUBJECT: u32 = 0x30_0000;

/// Vectors, and the task that their instructions find.
///
/// A line is an instruction in hexadecimal, the words that say what it finds, ` >`, and the words that say what it
/// changes; all else is left as it was. What a line doesn't say is found as the table's `words` say, and else registers,
/// program mask and room are 0, the condition code is 3, and there is no input and no output. Numbers are hexadecimal,
/// and a word is one of these:
/// - `E=00000001`: a register by its digit. `cc`: the condition code. `m`: the program mask.
/// - `@40=C1C2`: the bytes of private storage from there on; `*80` behind them repeats them so many times.
/// - `base`: the module's address, X'100000' where no line says it.
/// - `ex`: the address of the EX that executes the instruction.
/// - `link`: the instruction goes to `branch` with this length code, one that no execution gives it.
/// - `in`: the bytes of input left. `out`: the bytes of output. `room`: the output's room.
/// - `ia`: the instruction address. Without this word it becomes the updated address, also where an overflow ends the
///   task, and stays as it was where another ending does.
/// - `end`: how the task ends: an interruption code, a touch byte's six digits, `EXIT`, `FULL`, or `SVC` and a number.
pub struct Table {
    /// The number of bytes of private storage, and the byte that fills it.
    pub size: u32,
    pub fill: u8,
    /// What is found before each line's own words.
    pub words: &'static str,
    /// The module, and which of its bytes are touch bytes.
    pub module: [u8; 16],
    pub touches: &'static [u32],
    pub lines: &'static str,
    pub count: usize,
}

/// What is known of a task before or after an instruction.
#[derive(Drop)]
struct Known {
    regs: [u32; 16],
    mask: u8,
    cc: u8,
    bytes: Vec<u8>,
    base: u32,
    ex: Option<u32>,
    link: Option<u8>,
    input: &'static str,
    output: &'static str,
    room: u32,
    ia: u32,
    next: Next,
    /// Whether each word so far was one of the notation.
    is_read: bool,
}

/// Puts the bytes that the digits spell; false where they spell none, or have no room.
fn put_digits(bytes: &mut [u8], at: usize, digits: &str) -> bool {
    let mut is_read = digits.len() % 2 == 0;
    for (i, c) in digits.chars().enumerate() {
        if let Some(b) = bytes.get_mut(at.wrapping_add(i / 2)) {
            if let Some(digit) = c.to_digit(16) {
                *b = *b % 16 * 16 + (digit % 16) as u8;
            } else {
                is_read = false;
            }
        } else {
            is_read = false;
        }
    }
    is_read
}

/// Puts the bytes, as many times as a number behind `*` says.
fn put_bytes(bytes: &mut [u8], at: usize, text: &str) -> bool {
    let Some((digits, times)) = text.split_once('*') else {
        return put_digits(bytes, at, text);
    };
    let times = usize::from_str_radix(times, 16).unwrap_or(0);
    let mut is_read = times > 0;
    for i in 0..times {
        is_read = put_digits(
            bytes,
            at.wrapping_add(i.wrapping_mul(digits.len() / 2)),
            digits,
        ) && is_read;
    }
    is_read
}

fn bytes_of(alloc: Global, digits: &str) -> Result<Vec<u8>, AllocError> {
    let mut bytes = Vec::new(alloc);
    bytes.resize(digits.len() / 2, 0)?;
    put_digits(&mut bytes, 0, digits);
    Ok(bytes)
}

fn ending_of(text: &str) -> Option<Ending> {
    if text == "EXIT" {
        return Some(Ending::Exit);
    }
    if text == "FULL" {
        return Some(Ending::OutFull);
    }
    if let Some(number) = text.strip_prefix("SVC") {
        return u8::from_str_radix(number, 16)
            .ok()
            .map(|n| Ending::BadSvc(n));
    }
    if text.len() == 6 {
        return u32::from_str_radix(text, 16)
            .ok()
            .map(|a| Ending::Touched(Addr::of(a)));
    }
    u8::from_str_radix(text, 16)
        .ok()
        .map(|code| Ending::Abend(code))
}

/// Takes a number; false where no word has the key.
fn take_number(known: &mut Known, key: &str, value: u32) -> bool {
    if key == "m" {
        known.mask = (value % 16) as u8;
    } else if key == "cc" {
        known.cc = (value % 4) as u8;
    } else if key == "base" {
        known.base = value % 16_777_216;
    } else if key == "ex" {
        known.ex = Some(value);
        known.ia = Addr::of(value).plus(4).get();
    } else if key == "link" {
        known.link = Some((value % 3) as u8);
    } else if key == "room" {
        known.room = value;
    } else if key == "ia" {
        known.ia = value;
    } else if key.len() == 1 {
        let Ok(r) = usize::from_str_radix(key, 16) else {
            return false;
        };
        known.regs[r % 16] = value;
    } else {
        return false;
    }
    true
}

/// Takes a word; false where it is none.
fn take(known: &mut Known, word: &'static str) -> bool {
    let Some((key, text)) = word.split_once('=') else {
        return false;
    };
    if let Some(at) = key.strip_prefix('@') {
        return match usize::from_str_radix(at, 16) {
            Ok(at) => put_bytes(&mut known.bytes, at, text),
            Err(_) => false,
        };
    }
    if key == "in" {
        known.input = text;
        return true;
    }
    if key == "out" {
        known.output = text;
        return true;
    }
    if key == "end" {
        return match ending_of(text) {
            Some(ending) => {
                known.next = Next::Ended(ending);
                true
            }
            None => false,
        };
    }
    match u32::from_str_radix(text, 16) {
        Ok(value) => take_number(known, key, value),
        Err(_) => false,
    }
}

fn take_all(known: &mut Known, words: &'static str) {
    for word in words.split(' ') {
        if !word.is_empty() && !take(known, word) {
            known.is_read = false;
        }
    }
}

/// What each line of the table finds.
fn found(alloc: Global, table: &Table) -> Result<Known, AllocError> {
    let mut bytes = Vec::new(alloc);
    bytes.resize(table.size as usize, table.fill)?;
    let mut known = Known {
        regs: [0; 16],
        mask: 0,
        cc: 3,
        bytes,
        base: 0x10_0000,
        ex: None,
        link: None,
        input: "",
        output: "",
        room: 0,
        ia: UPDATED,
        next: Next::On,
        is_read: true,
    };
    take_all(&mut known, table.words);
    Ok(known)
}

fn space_of(alloc: Global, table: &Table, known: &Known) -> Result<PlainSpace, AllocError> {
    let mut bytes = Vec::new(alloc);
    bytes.extend_from_slice(&known.bytes)?;
    bytes.resize(table.size as usize, 0)?;
    let mut image = Vec::new(alloc);
    image.extend_from_slice(&table.module)?;
    let base = known.base % 16_777_216;
    let mut touches = Vec::new(alloc);
    for t in table.touches {
        touches.push(base.wrapping_add(*t))?;
    }
    Ok(PlainSpace {
        size: table.size,
        bytes,
        base,
        image,
        touches,
    })
}

/// The input left, and room that has the output so far.
fn io_of(alloc: Global, known: &Known) -> Result<TaskIo, Fail> {
    let input = bytes_of(alloc, known.input)?;
    let mut io = TaskIo::new(alloc, input, known.room)?;
    for b in bytes_of(alloc, known.output)?.iter() {
        if io.free() > 0 {
            io.put(*b);
        }
    }
    Ok(io)
}

/// The instruction that the digits spell.
fn code_of(known: &mut Known, digits: &str) -> Code {
    let mut bytes = [0; 6];
    let is_read = put_digits(&mut bytes, 0, digits);
    let len = length(u16::from(bytes[0]) * 256);
    known.is_read = known.is_read && is_read && digits.len() == len as usize * 2;
    let at = match known.ex {
        None => UPDATED - u32::from(len),
        Some(_) => SUBJECT,
    };
    Code {
        at: Addr::of(at),
        bytes,
        len,
    }
}

/// Where the task is as it comes to the instruction.
fn start_of(known: &Known, code: &Code) -> Addr {
    match known.ex {
        None => code.at,
        Some(ex) => Addr::of(ex),
    }
}

/// Where the task is afterwards.
fn end_of(known: &Known, start: Addr) -> u32 {
    match known.next {
        Next::On => known.ia,
        Next::Ended(Ending::Abend(8)) => known.ia,
        Next::Ended(Ending::Abend(10)) => known.ia,
        Next::Ended(_) => start.get(),
    }
}

/// How a task goes on, as numbers.
fn in_numbers(next: &Next) -> (u8, u32) {
    match next {
        Next::On => (0, 0),
        Next::Ended(Ending::Returned) => (1, 0),
        Next::Ended(Ending::Exit) => (2, 0),
        Next::Ended(Ending::Abend(code)) => (3, u32::from(*code)),
        Next::Ended(Ending::BadSvc(number)) => (4, u32::from(*number)),
        Next::Ended(Ending::Touched(at)) => (5, at.get()),
        Next::Ended(Ending::OutFull) => (6, 0),
        Next::Ended(Ending::Spent) => (7, 0),
    }
}

fn perform(
    rt: &impl Abort,
    cpu: &mut Cpu,
    space: &mut PlainSpace,
    io: &mut TaskIo,
    code: &Code,
    known: &Known,
    line: &str,
) -> Next {
    let half = code.first_half();
    if let Some(link) = known.link {
        let it = Decoded::of(*code);
        match group_of(it.op) {
            Group::Branch => branch(cpu, &it, Addr::of(UPDATED), link % 3),
            _ => panic!(rt; "{line}"),
        }
        return Next::On;
    }
    assert!(rt; !is_execute(half), "{line}");
    let ex = match known.ex {
        None => None,
        Some(ex) => Some(Addr::of(ex)),
    };
    execute(cpu, space, io, &Decoded::of(*code), ex)
}

/// The input left and the output are as known.
fn compare_io(
    rt: &impl Abort,
    alloc: Global,
    io: &mut TaskIo,
    known: &Known,
    line: &str,
) -> Result<(), Fail> {
    let output = bytes_of(alloc, known.output)?;
    assert_eq!(rt; io.output(), output.as_slice(), "{line}");
    for b in bytes_of(alloc, known.input)?.iter() {
        assert!(rt; io.left() > 0, "{line}");
        assert_eq!(rt; io.take(), *b, "{line}");
    }
    assert_eq!(rt; io.left(), 0, "{line}");
    Ok(())
}

fn check_line(
    rt: &impl Abort,
    alloc: Global,
    table: &Table,
    line: &'static str,
) -> Result<(), Fail> {
    let Some((before, after)) = line.split_once(" >") else {
        panic!(rt; "{line}")
    };
    let (digits, words) = before.split_once(' ').unwrap_or((before, ""));
    let mut known = found(alloc, table)?;
    take_all(&mut known, words);
    let code = code_of(&mut known, digits);
    let start = start_of(&known, &code);
    let mut cpu = Cpu::new(&known.regs, start, known.cc % 4, known.mask % 16);
    let mut space = space_of(alloc, table, &known)?;
    let mut io = io_of(alloc, &known)?;
    let branches = outcome(&cpu, &code);
    let updated = known.ia;
    let next = perform(rt, &mut cpu, &mut space, &mut io, &code, &known, line);
    take_all(&mut known, after);
    assert!(rt; known.is_read, "{line}");
    assert_eq!(rt; branches, known.ia != updated, "{line}");
    assert_eq!(rt; cpu.regs(), known.regs.as_slice(), "{line}");
    assert_eq!(rt; (cpu.cc, cpu.mask), (known.cc, known.mask), "{line}");
    assert_eq!(rt; space.bytes.as_slice(), known.bytes.as_slice(), "{line}");
    assert_eq!(rt; in_numbers(&next), in_numbers(&known.next), "{line}");
    assert_eq!(rt; cpu.ia.get(), end_of(&known, start), "{line}");
    compare_io(rt, alloc, &mut io, &known, line)
}

/// Each line of the table, and how many it has.
pub fn check(rt: &impl Abort, alloc: Global, table: &Table) -> Result<(), Fail> {
    for line in table.lines.lines() {
        check_line(rt, alloc, table, line)?;
    }
    assert_eq!(rt; table.lines.lines().count(), table.count);
    Ok(())
}
