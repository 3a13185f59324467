//! How faults of a source, a job, its listings and marks files are told.
ghost use Rattle.std.specs.Prelude.{◌≡◌, ◌≤◌, length, take};
ghost use Rattle.arrayvec.specs.ArrayVec.{array_vec_len};
ghost use Rattle.refusals.specs.Codes.{exit_code};
ghost use Rattle.refusals.specs.Meaning.{refusal, no_memory_line, line_text, bad_listing, list_refusal, build_refusal, tables_refusal, read_refusal, jobless_refusal, mismatch_text, bad_marks_line, other_table_line};
ghost use Rattle.refusals.specs.Refusals.{input_refusal};
ghost use Rattle.marks_file.specs.Combine.{difference_of};

use crate::lines::{
    NO_MEMORY, READ_FAULT, TOO_LARGE_INPUT, bad_job_line, bad_marks_line, large_job_line,
    other_table_line,
};
use crate::status::Reason;
use annotator::text::{add_hex, add_number, add_text};
use arrayvec::ArrayVec;
use brk_table::BuildFault;
use cov_base::Name;
use cov_outside::ReadFault;
use job_input::{InputFault, TablesFault};
use job_text::JobFault;
use listing_reader::ListFault;
use marks_file::OtherTable;
use report_text::add_bytes;
use s370_decode::Code;
use std::marker::Model;

/// A refusal: why, and the line that tells it.
#[derive(Drop)]
pub struct Refusal {
    pub reason: Reason,
    pub line: ArrayVec<u8, 160>,
}

impl Model for Refusal {
    ghost use Rattle.refusals.specs.Codes.{exit_code};
    ghost use Rattle.refusals.specs.Meaning.{RefusalView};

    ghost Value = { RefusalView };

    ghost view = { λ r. record { status = exit_code r.reason; line = r.line.items } };
}

/// A refusal by its whole line, of at most 160 bytes.
fn plain_refusal(reason: Reason, line: &[u8]) -> Refusal
    requires { length line.now ≤ 160 }
    ensures { result ≡ refusal (exit_code reason) line.now }
{
    let mut text = ArrayVec::new();
    add_text(&mut text, line);
    Refusal { reason, line: text }
}

/// Want of memory.
pub fn no_memory() -> Refusal
    ensures { result ≡ refusal 7 no_memory_line }
{
    plain_refusal(Reason::NoMemory, NO_MEMORY)
}

/// Why an input wasn't read whole.
pub fn read_refusal(fault: ReadFault) -> Refusal
    ensures { result ≡ read_refusal fault }
{
    match fault {
        ReadFault::Failed => plain_refusal(Reason::ReadFault, READ_FAULT),
        ReadFault::TooLarge => plain_refusal(Reason::TooLarge, TOO_LARGE_INPUT),
        ReadFault::NoMemory => no_memory(),
    }
}

/// Why lines have no job.
fn jobless_refusal(fault: JobFault) -> Refusal
    ensures { result ≡ jobless_refusal fault }
{
    match fault {
        JobFault::BadJob { line } => Refusal {
            reason: Reason::BadJob,
            line: bad_job_line(line),
        },
        JobFault::TooLarge { what, line } => Refusal {
            reason: Reason::TooLarge,
            line: large_job_line(what, line),
        },
        JobFault::NoMemory => no_memory(),
    }
}

/// Why a source gave no job.
pub fn input_refusal(fault: InputFault) -> Refusal
    ensures { result ≡ input_refusal fault }
{
    match fault {
        InputFault::Source(fault) => read_refusal(fault),
        InputFault::Job(fault) => jobless_refusal(fault),
    }
}

/// The first bad field, or the first byte past the last file, is at the offset.
pub fn bad_marks(offset: usize) -> Refusal
    ensures { result ≡ refusal 10 (bad_marks_line offset) }
{
    Refusal {
        reason: Reason::BadMarks,
        line: bad_marks_line(offset),
    }
}

/// Two tables are not the same.
pub fn other_table(other: &OtherTable) -> Refusal
    ensures { result ≡ refusal 11 (other_table_line (difference_of other.now)) }
{
    Refusal {
        reason: Reason::OtherTable,
        line: other_table_line(other),
    }
}

/// A line on line n of a module's listing; `why` has at most 80 bytes, `what` at most 20.
#[tactic(auto, unfolding(crate::specs::Meaning::line_text))]
fn line_text(what: &[u8], name: &Name, n: u32, why: &[u8]) -> ArrayVec<u8, 160>
    requires what { length what.now ≤ 20 }
    requires why { length why.now ≤ 80 }
    ensures { result.items ≡ line_text what.now name.now n why.now }
{
    let mut line = ArrayVec::new();
    add_text(&mut line, what);
    add_text(&mut line, name.bytes());
    add_text(&mut line, b" LINE ");
    add_number(&mut line, u64::from(n));
    add_text(&mut line, why);
    add_text(&mut line, b"\n");
    line
}

fn bad_listing(name: &Name, n: u32, why: &[u8]) -> Refusal
    requires { length why.now ≤ 80 }
    ensures { result ≡ bad_listing name.now n why.now }
{
    Refusal {
        reason: Reason::BadListing,
        line: line_text(b"BAD LISTING ", name, n, why),
    }
}

/// The bytes of an instruction.
fn shown(code: &Code) -> &[u8]
    ensures bytes { result.now ≡ take code.now.len code.now.bytes }
    ensures few { length result.now ≤ 6 }
{
    if code.len < 6 {
        &code.bytes[..code.len as usize]
    } else {
        &code.bytes
    }
}

/// Where an instruction stands, in six digits, and its bytes as the listing and the module have them.
#[tactic(auto, unfolding(crate::specs::Meaning::mismatch_text, crate::specs::Meaning::code_text))]
fn mismatch_text(loc: u32, listing: &Code, other: &Code) -> ArrayVec<u8, 160>
    ensures text { result.items ≡ mismatch_text loc listing.now other.now }
    ensures short { array_vec_len result ≤ 60 }
{
    let mut text = ArrayVec::new();
    add_text(&mut text, b" LOC ");
    add_hex(&mut text, loc % 16_777_216, 6);
    add_text(&mut text, b" LISTING ");
    add_bytes(&mut text, shown(listing));
    add_text(&mut text, b" MODULE ");
    add_bytes(&mut text, shown(other));
    text
}

/// Why a listing isn't read.
fn list_refusal(name: &Name, fault: ListFault) -> Refusal
    ensures { result ≡ list_refusal name.now fault }
{
    match fault {
        ListFault::NoHeading => bad_listing(name, 0, b" HEADING"),
        ListFault::BadObject { line } => bad_listing(name, line, b" OBJECT"),
        ListFault::NoMemory => no_memory(),
    }
}

/// Why a listing's lines make no table over their module; a mismatch stands at `loc`.
fn build_refusal(name: &Name, loc: u32, fault: BuildFault) -> Refusal
    ensures { result ≡ build_refusal name.now loc fault }
{
    match fault {
        BuildFault::Odd { line } => bad_listing(name, line, b" ODD"),
        BuildFault::Outside { line } => bad_listing(name, line, b" OUTSIDE"),
        BuildFault::Overlap { line } => bad_listing(name, line, b" OVERLAP"),
        BuildFault::TooMany { line } => Refusal {
            reason: Reason::TooLarge,
            line: line_text(b"TOO LARGE PLACES ", name, line, b""),
        },
        BuildFault::OwnSvc { line } => Refusal {
            reason: Reason::OwnSvc,
            line: line_text(b"OWN SVC ", name, line, b""),
        },
        BuildFault::Mismatch {
            line,
            listing,
            module,
        } => {
            let why = mismatch_text(loc, &listing, &module);
            Refusal {
                reason: Reason::Mismatch,
                line: line_text(b"MISMATCH ", name, line, &why),
            }
        }
        BuildFault::NoMemory => no_memory(),
    }
}

/// Why a job's listings have no tables.
pub fn tables_refusal(fault: TablesFault) -> Refusal
    ensures { result ≡ tables_refusal fault }
{
    match fault {
        TablesFault::List { module, fault } => list_refusal(&module, fault),
        TablesFault::Build {
            module,
            location,
            fault,
        } => build_refusal(&module, location, fault),
        TablesFault::NoMemory => no_memory(),
    }
}
