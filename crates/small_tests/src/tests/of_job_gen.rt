//! A job's first and last bytes and lines, and its tasks. What comes of it, tests/trial.py tells.
ghost use Rattle.std.specs.Prelude.{◌≤◌};

use job_gen::trial;
use listing_reader::ListingLines;
use session_book::Job;
use std::alloc::Global;
use std::test::Fail;

/// Whether there is one module, of 1874 bytes, which begins with two loads and ends with the branch on count and the return.
fn has_code(job: &Job) -> bool {
    job.images.0.len() == 1
        && job.images.0[0].bytes.len() == 1874
        && job.images.0[0]
            .bytes
            .starts_with(&[0x41, 0x10, 0x10, 0x0E, 0x41, 0x10, 0x10, 0x02])
        && job.images.0[0]
            .bytes
            .ends_with(&[0x46, 0x30, 0xF0, 0x00, 0x07, 0xFE])
}

/// So many lines of the listing, and behind each number the line of that number.
static LINES: &str = "\
619\n\
0:  Loc  Object Code    Addr1 Addr2  Stmt   Source Statement\n\
1:000000 4110 100E                      1          LA\n\
2:000004 4110 1002                      2          LA\n\
3:000008 5020 0094                      3          ST\n\
4:00000C 1222                           4          LTR\n\
5:00000E 47B0 F014                      5          BC\n\
10:00001A 5020 00F8                     10          ST\n\
617:00074C 4630 F000                    617          BCT\n\
618:000750 07FE                         618          BR\n";

fn number_in(digits: &str) -> usize {
    usize::from_str_radix(digits, 10).unwrap_or(usize::MAX)
}

/// Whether the lines are as each entry says.
fn are_lines(lines: &ListingLines) -> bool {
    for entry in LINES.lines() {
        let (digits, text) = entry.split_once(':').unwrap_or((entry, ""));
        let number = number_in(digits);
        let is_so = if number < lines.len() {
            lines.line(number) == text.as_bytes()
        } else {
            lines.len() == number
        };
        if !is_so {
            return false;
        }
    }
    true
}

fn has_lines(job: &Job) -> bool {
    match job.listings.first() {
        Some(Some(lines)) => are_lines(lines),
        _ => false,
    }
}

/// Whether there are so many tasks, the first is T01, and the last has this name and its number, 200, the return address and its
/// entry in registers 1, 3, 14 and 15.
fn has_tasks(job: &Job, count: u32, name: &[u8]) -> bool {
    match (job.tasks.first(), job.tasks.last()) {
        (Some(first), Some(last)) => {
            job.tasks.len() == count as usize
                && first.name.bytes() == b"T01".as_slice()
                && last.name.bytes() == name
                && last.regs[1] == count
                && last.regs[3] == 200
                && last.regs[14] == 0xFF_FFFE
                && last.regs[15] == 0x10_0000
        }
        _ => false,
    }
}

/// Whether the job that a number makes has its tasks, and number 7 its code and lines. It is let go here alone, since that costs a
/// proof list by list.
fn makes(alloc: Global, number: u32, tasks: u32, name: &[u8]) -> Result<bool, Fail>
    requires some { 1 ≤ tasks }
    requires most { tasks ≤ 64 }
{
    let job = trial(alloc, number, tasks)?;
    Ok(has_tasks(&job, tasks, name) && (number != 7 || has_code(&job) && has_lines(&job)))
}

#[test]
fn makes_code_lines_and_tasks(rt: HostRuntime) -> Result<(), Fail> {
    assert!(rt; makes(rt.alloc(), 7, 8, b"T08")?);
    assert!(rt; makes(rt.alloc(), 4_294_967_295, 1, b"T01")?);
    assert!(rt; makes(rt.alloc(), 4_294_967_295, 64, b"T64")?);
    Ok(())
}
