//! Faults of source and sink at each call in turn, of every command that reads: what it tells of each, and what is left of what it
//! writes. What it writes without a fault stands in tests/rows.

use super::jobs::job_of;
use super::serving::serve_with;
use std::alloc::Global;
use std::sync::Wait;
use std::test::Fail;
use std::thread::Threads;

/// The bytes that a read gives at most, and those that a write takes.
const READ: usize = 64;

const WRITE: usize = 16;

/// Each behind `@row`: the status, the program and the words; and what goes in behind the program's lines, where a line that
/// begins with `%` has digits of bytes.
static ROWS: &str = "\
@row 0 LOAD run\n\
SESSION S M\n\
TASK A 100000 16 100 0\n\
ENDJOB\n\
@row 0 COUNT run\n\
SESSION S M\n\
TASK A 100000 16 100 0\n\
REG 1 00000001\n\
PHASE Q\n\
SESSION T M\n\
TASK B 100000 16 1 0\n\
REG 1 00000002\n\
ENDJOB\n\
@row 2 LOAD run\n\
SESSION S M\n\
TASK A 100000 16 100 0\n\
@row 3 NONE run\n\
COVERJOB 1\n\
MODULE M 100000 2\n\
TEXT 07FE\n\
LISTING 2\n\
\x20 Loc  Object Code    Addr1 Addr2  Stmt   Source Statement\n\
000000 07FF                           1          BR\n\
PHASE P\n\
ENDJOB\n\
@row 0 LOAD exits\n\
SESSION S M\n\
TASK A 000000 16 100 0\n\
DATA 0 411000080A061D2407FE\n\
ENDJOB\n\
@row 2 LOAD exits\n\
SESSION S M\n\
TASK A 100000 16 100 0\n\
@row 0 LOAD early\n\
SESSION S BY C M\n\
TASK C 000000 32 100 0\n\
REG 1 00100000\n\
REG 13 00FFFFFE\n\
DATA 0 0A0445E010000A0507FD\n\
ENDJOB\n\
@row 0 COUNT count\n\
SESSION S M\n\
TASK A 100000 16 100 0\n\
REG 1 00000003\n\
ENDJOB\n\
@row 14 COUNT count\n\
SESSION S M\n\
PHASE Q\n\
SESSION T BY A M\n\
TASK A 100000 16 100 0\n\
ENDJOB\n\
@row 0 COUNT marks S\n\
SESSION S M\n\
TASK A 100000 16 100 0\n\
REG 1 00000003\n\
ENDJOB\n\
@row 13 LOAD marks X\n\
SESSION S M\n\
TASK A 100000 16 100 0\n\
ENDJOB\n\
@row 0 COUNT table\n\
SESSION S M\n\
ENDJOB\n\
@row 0 LOAD ends\n\
SESSION S M\n\
TASK A 100000 16 100 0\n\
ENDJOB\n\
@row 0 LOAD replay\n\
SESSION S M\n\
TASK A 100000 16 100 0\n\
ENDJOB\n\
FETCH A\n\
GO A\n\
ENDSCHED\n\
@row 9 LOAD replay\n\
SESSION S M\n\
TASK A 100000 16 100 0\n\
ENDJOB\n\
FETCH A\n\
GO A\n\
@row 0 NONE combine\n\
%53333730434F5632 5320202020202020 00000001 0001 4D20202020202020 00100000 00000006 00000002\n\
%00000000 04 01 4610 04 00000004 02 00 07FE 01\n\
%53333730434F5632 5320202020202020 00000001 0001 4D20202020202020 00100000 00000006 00000002\n\
%00000000 04 01 4610 02 00000004 02 00 07FE 00\n\
@row 11 NONE combine\n\
%53333730434F5632 5320202020202020 00000001 0001 4D20202020202020 00100000 00000006 00000002\n\
%00000000 04 01 4610 04 00000004 02 00 07FE 01\n\
%53333730434F5632 5320202020202020 00000001 0001 4D20202020202020 00100000 00000006 00000002\n\
%00000000 04 01 4620 04 00000004 02 00 07FE 01\n\
@row 0 COUNT show S\n\
SESSION S M\n\
TASK A 100000 16 100 0\n\
REG 1 00000001\n\
ENDJOB\n\
%53333730434F5632 5320202020202020 00000001 0001 4D20202020202020 00100000 00000006 00000002\n\
%00000000 04 01 4610 04 00000004 02 00 07FE 01\n\
@row 10 COUNT show S\n\
SESSION S M\n\
TASK A 100000 16 100 0\n\
REG 1 00000001\n\
ENDJOB\n\
@row 0 COUNT prove S\n\
SESSION S M\n\
TASK A 100000 16 100 0\n\
REG 1 00000003\n\
ENDJOB\n\
@row 0 COUNT verify S\n\
SESSION S M\n\
TASK A 100000 16 100 0\n\
REG 1 00000003\n\
ENDJOB\n\
%53333730434F5632 5320202020202020 00000001 0001 4D20202020202020 00100000 00000006 00000002\n\
%00000000 04 01 4610 06 00000004 02 00 07FE 01\n\
%5333373045564431 00000000000000 00000000000200 00000000000300\n\
@row 15 COUNT verify S\n\
SESSION S M\n\
TASK A 100000 16 100 0\n\
REG 1 00000003\n\
ENDJOB\n\
%53333730434F5632 5320202020202020 00000001 0001 4D20202020202020 00100000 00000006 00000002\n\
%00000000 04 01 4610 06 00000004 02 00 07FE 01\n\
@row 16 COUNT verify S\n\
SESSION S M\n\
TASK A 100000 16 100 0\n\
REG 1 00000003\n\
ENDJOB\n\
%53333730434F5632 5320202020202020 00000001 0001 4D20202020202020 00100000 00000006 00000002\n\
%00000000 04 01 4610 06 00000004 02 00 07FE 01\n\
%5333373045564431 00000000000100 00000000000200 00000000000300\n\
@row 0 NONE services run\n\
COVERJOB 1\n\
SERVICE 10 000006\n\
PHASE P\n\
TASK A 000000 16 100 0\n\
DATA 0 0A0A07FE00001BFF07FE\n\
ENDJOB\n\
@row 2 COUNT marks S\n\
SESSION S M\n\
TASK A 100000 16 100 0\n\
@row 3 NONE marks S\n\
COVERJOB 1\n\
MODULE M 100000 2\n\
TEXT 07FE\n\
LISTING 2\n\
\x20 Loc  Object Code    Addr1 Addr2  Stmt   Source Statement\n\
000000 07FF                           1          BR\n\
PHASE P\n\
SESSION S M\n\
ENDJOB\n\
@row 4 COUNT marks S\n\
SESSION S M\n\
TASK A 100000 1048577 100 0\n\
ENDJOB\n\
@row 10 NONE combine\n\
%53333730434F5632 5320202020202020 00000001 0001 4D20202020202020 00100000 00000006 00000002\n\
%00000000 04 01 4610 04 00000004 02 00 07FE\n\
@row 2 COUNT show S\n\
SESSION S M\n\
TASK A 100000 16 100 0\n\
@row 3 NONE show S\n\
COVERJOB 1\n\
MODULE M 100000 2\n\
TEXT 07FE\n\
LISTING 2\n\
\x20 Loc  Object Code    Addr1 Addr2  Stmt   Source Statement\n\
000000 07FF                           1          BR\n\
PHASE P\n\
SESSION S M\n\
ENDJOB\n\
%53333730434F5632 5320202020202020 00000001 0001 4D20202020202020 00100000 00000002 00000001\n\
%00000000 02 00 07FE 01\n\
@row 4 COUNT show S\n\
SESSION S M\n\
TASK A 100000 1048577 100 0\n\
ENDJOB\n\
%53333730434F5632 5320202020202020 00000001 0001 4D20202020202020 00100000 00000006 00000002\n\
%00000000 04 01 4610 04 00000004 02 00 07FE 01\n\
@row 8 NONE show S\n\
COVERJOB 1\n\
MODULE M 100000 2\n\
TEXT 0AFF\n\
LISTING 2\n\
\x20 Loc  Object Code    Addr1 Addr2  Stmt   Source Statement\n\
000000 0AFF                           1          SVC\n\
PHASE P\n\
SESSION S M\n\
ENDJOB\n\
%53333730434F5632 5320202020202020 00000001 0001 4D20202020202020 00100000 00000002 00000001\n\
%00000000 02 00 07FE 01\n\
@row 11 COUNT show S\n\
SESSION S M\n\
TASK A 100000 16 100 0\n\
ENDJOB\n\
%53333730434F5632 5320202020202020 00000001 0001 4D20202020202020 00100000 00000006 00000002\n\
%00000000 04 01 4620 04 00000004 02 00 07FE 01\n\
@row 12 NONE show S\n\
COVERJOB 1\n\
MODULE M 100000 6\n\
TEXT 4610F00007FE\n\
LISTING 3\n\
\x20 Loc  Object Code    Addr1 Addr2  Stmt   Source Statement\n\
000000 4610                           1          BCT\n\
000004 07FE                           2          BR\n\
PHASE P\n\
SESSION S M\n\
ENDJOB\n\
@row 13 COUNT show X\n\
SESSION S M\n\
TASK A 100000 16 100 0\n\
ENDJOB\n\
%53333730434F5632 5320202020202020 00000001 0001 4D20202020202020 00100000 00000006 00000002\n\
%00000000 04 01 4610 04 00000004 02 00 07FE 01\n\
@row 2 COUNT prove S\n\
SESSION S M\n\
TASK A 100000 16 100 0\n\
@row 3 NONE prove S\n\
COVERJOB 1\n\
MODULE M 100000 2\n\
TEXT 07FE\n\
LISTING 2\n\
\x20 Loc  Object Code    Addr1 Addr2  Stmt   Source Statement\n\
000000 07FF                           1          BR\n\
PHASE P\n\
SESSION S M\n\
ENDJOB\n\
@row 13 COUNT prove X\n\
SESSION S M\n\
TASK A 100000 16 100 0\n\
ENDJOB\n\
@row 14 COUNT prove S\n\
SESSION S BY A M\n\
TASK A 100000 16 100 0\n\
ENDJOB\n\
@row 3 NONE verify S\n\
COVERJOB 1\n\
MODULE M 100000 2\n\
TEXT 07FE\n\
LISTING 2\n\
\x20 Loc  Object Code    Addr1 Addr2  Stmt   Source Statement\n\
000000 07FF                           1          BR\n\
PHASE P\n\
SESSION S M\n\
ENDJOB\n\
%53333730434F5632 5320202020202020 00000001 0001 4D20202020202020 00100000 00000002 00000001\n\
%00000000 02 00 07FE 01\n\
@row 10 COUNT verify S\n\
SESSION S M\n\
TASK A 100000 16 100 0\n\
ENDJOB\n\
@row 11 COUNT verify S\n\
SESSION S M\n\
TASK A 100000 16 100 0\n\
ENDJOB\n\
%53333730434F5632 5320202020202020 00000001 0001 4D20202020202020 00100000 00000006 00000002\n\
%00000000 04 01 4620 04 00000004 02 00 07FE 01\n\
@row 13 COUNT verify X\n\
SESSION S M\n\
TASK A 100000 16 100 0\n\
ENDJOB\n\
@row 14 COUNT verify S\n\
SESSION S BY A M\n\
TASK A 100000 16 100 0\n\
ENDJOB\n\
@row 0 NONE services count\n\
COVERJOB 1\n\
MODULE M 100000 2\n\
TEXT 07FE\n\
LISTING 2\n\
\x20 Loc  Object Code    Addr1 Addr2  Stmt   Source Statement\n\
000000 07FE                           1          BR\n\
SERVICE 10 100000\n\
PHASE P\n\
SESSION S M\n\
TASK A 000000 16 100 0\n\
DATA 0 0A0A07FE\n\
ENDJOB\n\
@row 14 NONE services count\n\
COVERJOB 1\n\
MODULE M 100000 2\n\
TEXT 07FE\n\
LISTING 2\n\
\x20 Loc  Object Code    Addr1 Addr2  Stmt   Source Statement\n\
000000 07FE                           1          BR\n\
SERVICE 10 100000\n\
PHASE P\n\
SESSION S BY A M\n\
TASK A 000000 16 100 0\n\
DATA 0 0A0A07FE\n\
ENDJOB\n\
@row 0 NONE services marks S\n\
COVERJOB 1\n\
MODULE M 100000 2\n\
TEXT 07FE\n\
LISTING 2\n\
\x20 Loc  Object Code    Addr1 Addr2  Stmt   Source Statement\n\
000000 07FE                           1          BR\n\
SERVICE 10 100000\n\
PHASE P\n\
SESSION S M\n\
TASK A 000000 16 100 0\n\
DATA 0 0A0A07FE\n\
ENDJOB\n\
@row 13 NONE services marks X\n\
COVERJOB 1\n\
MODULE M 100000 2\n\
TEXT 07FE\n\
LISTING 2\n\
\x20 Loc  Object Code    Addr1 Addr2  Stmt   Source Statement\n\
000000 07FE                           1          BR\n\
SERVICE 10 100000\n\
PHASE P\n\
SESSION S M\n\
TASK A 000000 16 100 0\n\
DATA 0 0A0A07FE\n\
ENDJOB\n\
@row 0 NONE services table\n\
COVERJOB 1\n\
MODULE M 100000 2\n\
TEXT 07FE\n\
LISTING 2\n\
\x20 Loc  Object Code    Addr1 Addr2  Stmt   Source Statement\n\
000000 07FE                           1          BR\n\
SERVICE 10 100000\n\
PHASE P\n\
SESSION S M\n\
TASK A 000000 16 100 0\n\
DATA 0 0A0A07FE\n\
ENDJOB\n\
@row 0 NONE services ends\n\
COVERJOB 1\n\
MODULE M 100000 2\n\
TEXT 07FE\n\
LISTING 2\n\
\x20 Loc  Object Code    Addr1 Addr2  Stmt   Source Statement\n\
000000 07FE                           1          BR\n\
SERVICE 10 100000\n\
PHASE P\n\
SESSION S M\n\
TASK A 000000 16 100 0\n\
DATA 0 0A0A07FE\n\
ENDJOB\n\
@row 0 NONE services show S\n\
COVERJOB 1\n\
MODULE M 100000 2\n\
TEXT 07FE\n\
LISTING 2\n\
\x20 Loc  Object Code    Addr1 Addr2  Stmt   Source Statement\n\
000000 07FE                           1          BR\n\
SERVICE 10 100000\n\
PHASE P\n\
SESSION S M\n\
TASK A 000000 16 100 0\n\
DATA 0 0A0A07FE\n\
ENDJOB\n\
%53333730434F5632 5320202020202020 00000001 0001 4D20202020202020 00100000 00000002 00000001\n\
%00000000 02 00 07FE 01\n\
@row 10 NONE services show S\n\
COVERJOB 1\n\
MODULE M 100000 2\n\
TEXT 07FE\n\
LISTING 2\n\
\x20 Loc  Object Code    Addr1 Addr2  Stmt   Source Statement\n\
000000 07FE                           1          BR\n\
SERVICE 10 100000\n\
PHASE P\n\
SESSION S M\n\
TASK A 000000 16 100 0\n\
DATA 0 0A0A07FE\n\
ENDJOB\n";

/// What a hexadecimal digit in upper case stands for.
fn digit_of(digit: u8) -> u8 {
    match digit {
        b'0'..=b'9' => digit.wrapping_sub(b'0'),
        b'A'..=b'F' => digit.wrapping_sub(b'A' - 10),
        _ => 0,
    }
}

fn add_bytes(input: &mut Vec<u8>, digits: &str) -> Result<(), Fail> {
    let mut high = None;
    for digit in digits.as_bytes() {
        if *digit == b' ' {
            continue;
        }
        high = match high {
            None => Some(digit_of(*digit)),
            Some(first) => {
                input.push(first.wrapping_mul(16).wrapping_add(digit_of(*digit)))?;
                None
            }
        };
    }
    Ok(())
}

fn add_line(input: &mut Vec<u8>, line: &str) -> Result<(), Fail> {
    if let Some(digits) = line.strip_prefix("%") {
        return add_bytes(input, digits);
    }
    input.extend_from_slice(line.as_bytes())?;
    input.push(b'\n')?;
    Ok(())
}

/// Words and what goes in, with the status of what comes.
#[derive(Drop)]
struct Row {
    name: &'static str,
    words: &'static str,
    input: Vec<u8>,
    status: u8,
}

fn row_of(alloc: Global, entry: &'static str) -> Result<Row, Fail> {
    let (name, lines) = entry.split_once('\n').unwrap_or((entry, ""));
    let (status, rest) = name.split_once(' ').unwrap_or(("", ""));
    let (program, words) = rest.split_once(' ').unwrap_or(("", ""));
    let mut input = job_of(alloc, program, "")?;
    for line in lines.lines() {
        add_line(&mut input, line)?;
    }
    Ok(Row {
        name,
        words,
        input,
        status: u8::from_str_radix(status, 10).unwrap_or(255),
    })
}

/// What comes of the row where one read and one write fail, 0 for none.
fn serve_faulty<T: Threads + Wait + Sync>(
    rt: &T,
    alloc: Global,
    row: &Row,
    read: u64,
    write: u64,
) -> Result<(u8, Vec<u8>), Fail> {
    serve_with(rt, alloc, row.words, &row.input, WRITE, [read, write])
}

/// A failure at a row's call of a number.
fn fail_at(row: &Row, call: &str, n: u64) -> Fail {
    let name = row.name;
    Fail::new(format_args!("{name}: {call} {n}"))
}

/// Whether a fault of this read is told, or the row's status where there is no such read.
fn is_read<T: Threads + Wait + Sync>(
    rt: &T,
    alloc: Global,
    row: &Row,
    n: u64,
    has_read: bool,
) -> Result<bool, Fail> {
    let (status, bytes) = serve_faulty(rt, alloc, row, n, 0)?;
    Ok(if has_read {
        status == 5 && bytes.as_slice() == b"READ FAULT\n".as_slice()
    } else {
        status == row.status
    })
}

/// Each read fails in turn, the one that finds the end too; the read behind that isn't made.
fn check_reads<T: Threads + Wait + Sync>(rt: &T, alloc: Global, row: &Row) -> Result<(), Fail> {
    let reads = (row.input.len().div_ceil(READ) as u64).saturating_add(1);
    for n in 1..=reads.saturating_add(1) {
        if !is_read(rt, alloc, row, n, n <= reads)? {
            return Err(fail_at(row, "read", n));
        }
    }
    Ok(())
}

/// How many bytes come where one write fails; none where they aren't the first of the output with status 6, nor all of it with the
/// row's.
fn length_at<T: Threads + Wait + Sync>(
    rt: &T,
    alloc: Global,
    row: &Row,
    whole: &[u8],
    n: u64,
) -> Result<Option<usize>, Fail> {
    let (status, bytes) = serve_faulty(rt, alloc, row, 0, n)?;
    let wanted = if bytes.len() == whole.len() {
        row.status
    } else {
        6
    };
    if status == wanted && whole.starts_with(&bytes) {
        return Ok(Some(bytes.len()));
    }
    Ok(None)
}

/// Whether no byte has come before the first write, and more before each further one, at most what one takes.
fn is_next(n: u64, had: usize, length: usize) -> bool {
    if n == 1 {
        return length == 0;
    }
    had < length && length <= had.saturating_add(WRITE)
}

/// The first write that fails otherwise than it is to: each does so in turn. 0 where too few do.
fn wrong_write<T: Threads + Wait + Sync>(
    rt: &T,
    alloc: Global,
    row: &Row,
    whole: &[u8],
) -> Result<Option<u64>, Fail> {
    let mut had = 0;
    for n in 1..=(whole.len() as u64).saturating_add(1) {
        match length_at(rt, alloc, row, whole, n)? {
            Some(length) if is_next(n, had, length) => had = length,
            _ => return Ok(Some(n)),
        }
        if had == whole.len() {
            return Ok(None);
        }
    }
    Ok(Some(0))
}

/// Each write fails in turn, and none.
fn check_writes<T: Threads + Wait + Sync>(rt: &T, alloc: Global, row: &Row) -> Result<(), Fail> {
    let (status, whole) = serve_faulty(rt, alloc, row, 0, 0)?;
    if status != row.status {
        return Err(fail_at(row, "no write", 0));
    }
    match wrong_write(rt, alloc, row, &whole)? {
        Some(n) => Err(fail_at(row, "write", n)),
        None => Ok(()),
    }
}

/// Whether nothing comes where the first read and the first write fail.
fn check_both<T: Threads + Wait + Sync>(rt: &T, alloc: Global, row: &Row) -> Result<(), Fail> {
    let (status, bytes) = serve_faulty(rt, alloc, row, 1, 1)?;
    if status == 6 && bytes.is_empty() {
        return Ok(());
    }
    Err(fail_at(row, "both", 1))
}

/// Lets each read and each write of the row fail, and both.
fn check_row<T: Threads + Wait + Sync>(
    rt: &T,
    alloc: Global,
    entry: &'static str,
) -> Result<(), Fail> {
    let row = row_of(alloc, entry)?;
    check_reads(rt, alloc, &row)?;
    check_writes(rt, alloc, &row)?;
    check_both(rt, alloc, &row)
}

#[test]
fn tells_a_fault_at_each_read_and_write(rt: HostRuntime) -> Result<(), Fail> {
    for entry in ROWS.split("@row ") {
        if !entry.is_empty() {
            check_row(&rt, rt.alloc(), entry)?;
        }
    }
    Ok(())
}
