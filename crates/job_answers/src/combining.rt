//! The union of marks files.
ghost use Rattle.std.specs.Prelude.{◌≡◌};
ghost use Rattle.job_answers.specs.Files.{combine_refusal};
ghost use Rattle.job_answers.specs.Meaning.{IsUnited};
ghost use Rattle.refusals.specs.Told.{Tells};

use cov_outside::Sink;
use marks_file::{CombineFault, combine_files, write};
use refusals::{Refusal, Status, bad_marks, no_memory, other_table, status_of, told};
use std::alloc::Global;

/// Why files are not united.
fn combine_refusal(fault: CombineFault) -> Refusal
    ensures { result ≡ combine_refusal fault }
{
    match fault {
        CombineFault::BadMarks { offset } => bad_marks(offset),
        CombineFault::Other(other) => other_table(&other),
        CombineFault::NoMemory => no_memory(),
    }
}

/// Unites the files that the bytes are, and writes the file of their union. Refused by 10 at the first bad field, and by 11 at the
/// first file of another table than the first one's.
pub fn write_union<K: Sink>(alloc: Global, bytes: &[u8], sink: &mut K) -> Status
    ensures { Tells K.Sink (IsUnited bytes.now) sink.old sink.new result }
{
    let marks = match combine_files(alloc, bytes) {
        Ok(marks) => marks,
        Err(fault) => {
            let refusal = combine_refusal(fault);
            return told(sink, &refusal.line, refusal.reason);
        }
    };
    status_of(write(sink, &marks))
}
