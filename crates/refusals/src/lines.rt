//! The lines that refusals, and a `verify` that passes, are told by.
ghost use Rattle.std.specs.Prelude.{◌≡◌, ◌<◌, ◌≤◌, ◌++◌, ◌∷◌, ◌+◌, [], decimal, length, option_map};
ghost use Rattle.refusals.specs.Meaning.{bad_job_line, limit_name, large_job_line, bad_schedule_line, no_session_line, controlled_line, bad_marks_line, row_text, other_table_line, bad_evidence_line, fact_letter, refuted_line, verified_line};
ghost use Rattle.arrayvec.specs.ArrayVec.{array_vec_len};
ghost use Rattle.marks_file.specs.Combine.{difference_of};

use annotator::text::{add_number, add_text};
use arrayvec::ArrayVec;
use cov_base::{Fact, Name};
use job_text::Limit;
use marks_file::OtherTable;
use report_text::add_bytes;

/// For words that are no command.
pub const USAGE: &[u8] =
    b"USAGE: run | marks NAME | trial NUMBER TASKS | table | replay | combine | show NAME | early | count | exits | prove NAME | verify NAME | ends | services COMMAND\n";

/// For a source that failed.
pub const READ_FAULT: &[u8] = b"READ FAULT\n";

/// For more bytes than the most.
pub const TOO_LARGE_INPUT: &[u8] = b"TOO LARGE INPUT\n";

/// For a growth that the allocator refused.
pub const NO_MEMORY: &[u8] = b"NO MEMORY\n";

/// A line of these words and a number.
fn number_line(words: &[u8], n: u64) -> ArrayVec<u8, 160>
    requires { length words.now ≤ 100 }
    ensures { result.items ≡ words.now ++ decimal n ++ 10 ∷ [] }
{
    let mut line = ArrayVec::new();
    add_text(&mut line, words);
    add_number(&mut line, n);
    add_text(&mut line, b"\n");
    line
}

/// Line n of the input is the first with which no job goes on.
pub fn bad_job_line(n: u32) -> ArrayVec<u8, 160>
    ensures { result.items ≡ bad_job_line n }
{
    number_line(b"BAD JOB LINE ", u64::from(n))
}

/// The schedule is bad at line n of the input; at 0 where its job has not one phase.
pub fn bad_schedule_line(n: u32) -> ArrayVec<u8, 160>
    ensures { result.items ≡ bad_schedule_line n }
{
    number_line(b"BAD SCHEDULE LINE ", u64::from(n))
}

/// The name that a limit is told by.
fn limit_name(what: Limit) -> &'static [u8]
    ensures name { result.now ≡ limit_name what }
    ensures short { length result.now ≤ 8 }
{
    match what {
        Limit::Input => b"INPUT",
        Limit::Modules => b"MODULES",
        Limit::Size => b"SIZE",
        Limit::Line => b"LINE",
        Limit::Places => b"PLACES",
        Limit::Phases => b"PHASES",
        Limit::Sessions => b"SESSIONS",
        Limit::Tasks => b"TASKS",
        Limit::Private => b"PRIVATE",
        Limit::Budget => b"BUDGET",
        Limit::Room => b"ROOM",
    }
}

/// Line n of the input is the first with which the limit is passed.
pub fn large_job_line(what: Limit, n: u32) -> ArrayVec<u8, 160>
    ensures { result.items ≡ large_job_line what n }
{
    let mut line = ArrayVec::new();
    add_text(&mut line, b"TOO LARGE ");
    add_text(&mut line, limit_name(what));
    add_text(&mut line, b" LINE ");
    add_number(&mut line, u64::from(n));
    add_text(&mut line, b"\n");
    line
}

/// No session of the job has the name.
pub fn no_session_line(name: &Name) -> ArrayVec<u8, 160>
    ensures { result.items ≡ no_session_line name.now }
{
    let mut line = ArrayVec::new();
    add_text(&mut line, b"NO SESSION ");
    add_text(&mut line, name.bytes());
    add_text(&mut line, b"\n");
    line
}

/// The session of the name has a controller.
pub fn controlled_line(name: &Name) -> ArrayVec<u8, 160>
    ensures { result.items ≡ controlled_line name.now }
{
    let mut line = ArrayVec::new();
    add_text(&mut line, b"CONTROLLED ");
    add_text(&mut line, name.bytes());
    add_text(&mut line, b"\n");
    line
}

/// The first bad field, or the first byte past the last file, is at the offset from the first byte of the first marks file.
pub fn bad_marks_line(offset: usize) -> ArrayVec<u8, 160>
    ensures { result.items ≡ bad_marks_line offset }
{
    number_line(b"BAD MARKS OFFSET ", offset as u64)
}

/// A row in hexadecimal, or a dash where the table has none.
fn add_row(line: &mut ArrayVec<u8, 160>, row: &Option<ArrayVec<u8, 20>>)
    requires { array_vec_len line.old + 40 ≤ 160 }
    ensures items { line.new.items ≡ line.old.items ++ row_text (option_map (λ v. v.items) row.now) }
    ensures len { array_vec_len line.new ≤ array_vec_len line.old + 40 }
{
    match row {
        Some(bytes) => add_bytes(line, bytes),
        None => add_text(line, b"-"),
    }
}

/// The first row in which two tables differ.
pub fn other_table_line(other: &OtherTable) -> ArrayVec<u8, 160>
    ensures { result.items ≡ other_table_line (difference_of other.now) }
{
    let mut line = ArrayVec::new();
    add_text(&mut line, b"OTHER TABLE ROW ");
    add_number(&mut line, u64::from(other.row));
    add_text(&mut line, b" LEFT ");
    add_row(&mut line, &other.left);
    add_text(&mut line, b" RIGHT ");
    add_row(&mut line, &other.right);
    add_text(&mut line, b"\n");
    line
}

/// The first bad field, or the first byte past the last entry, is at the offset from the evidence's first byte.
pub fn bad_evidence_line(offset: usize) -> ArrayVec<u8, 160>
    ensures { result.items ≡ bad_evidence_line offset }
{
    number_line(b"BAD EVIDENCE OFFSET ", offset as u64)
}

fn fact_letter(fact: Fact) -> &'static [u8]
    ensures letter { result.now ≡ fact_letter fact }
    ensures short { length result.now ≤ 1 }
{
    match fact {
        Fact::Ran => b"R",
        Fact::Went => b"W",
        Fact::Stayed => b"S",
    }
}

/// The first row and fact of which marks, evidence and the session's executions don't agree.
pub fn refuted_line(row: u32, fact: Fact) -> ArrayVec<u8, 160>
    ensures { result.items ≡ refuted_line row fact }
{
    let mut line = ArrayVec::new();
    add_text(&mut line, b"REFUTED ROW ");
    add_number(&mut line, u64::from(row));
    add_text(&mut line, b" FACT ");
    add_text(&mut line, fact_letter(fact));
    add_text(&mut line, b"\n");
    line
}

/// Marks and evidence of so many facts are those of the session of the name.
pub fn verified_line(name: &Name, facts: u32) -> ArrayVec<u8, 160>
    ensures { result.items ≡ verified_line name.now facts }
{
    let mut line = ArrayVec::new();
    add_text(&mut line, b"VERIFIED ");
    add_text(&mut line, name.bytes());
    add_text(&mut line, b" FACTS ");
    add_number(&mut line, u64::from(facts));
    add_text(&mut line, b"\n");
    line
}
