//! Combines marks files that stand one after another.
ghost use Rattle.std.specs.Prelude.{◌≡◌, ◌≤◌, length, drop, true, IfOk, IfErr};
ghost use Rattle.marks_file.specs.Meaning.{keeps_rules, HasFile, file_fields, IsCombined};
ghost use Rattle.marks_file.specs.Reading.{IsFault};
ghost use Rattle.marks_file.specs.Files.{IsCombineFault, HasOneAnswer, IsUnionAnyhow};

use crate::difference::OtherTable;
use crate::fault::MarksFault;
use crate::marks::Marks;
use crate::reading::read;
use crate::union::combine;
use std::alloc::Global;

/// Why files are not combined.
#[derive(Drop)]
pub enum CombineFault {
    /// The offset of the first bad field, counted from the first byte of the first file.
    BadMarks { offset: usize },
    /// The first file whose table is not that of the first, at the first row that differs.
    Other(OtherTable),
    NoMemory,
}

impl From<MarksFault> for CombineFault {
    ghost use Rattle.marks_file.specs.FaultView.{fault_of};
    ghost use Rattle.std.specs.Prelude.{◌≡◌};

    ghost from_gives = { λ f e. e ≡ fault_of f };

    fn from(fault: MarksFault) -> Self {
        match fault {
            MarksFault::BadMarks { offset } => CombineFault::BadMarks { offset },
            MarksFault::NoMemory => CombineFault::NoMemory,
        }
    }
}

/// The file that begins there, which keeps the rules of marks files, and the offset past it.
fn next_file(alloc: Global, bytes: &[u8], at: usize) -> Result<(Marks, usize), MarksFault>
    requires { at ≤ length bytes.now }
    ensures rules { IfOk result (λ r. keeps_rules r.0 ≡ true) }
    ensures file { IfOk result (λ r. HasFile at (drop at bytes.now) r.0 r.1) }
    ensures bad { IfErr result (IsFault (file_fields at (drop at bytes.now))) }
{
    let (marks, end) = read(alloc, bytes, at)?;
    // For the rules of a file, which its type keeps.
    let _modules = &marks.modules;
    Ok((marks, end))
}

/// The union of the files, read one after another.
fn combine_all(alloc: Global, bytes: &[u8]) -> Result<Marks, CombineFault>
    ensures whole { IfOk result (IsCombined bytes.now) }
    ensures fault { IfErr result (IsCombineFault bytes.now) }
{
    let (first, end) = next_file(alloc, bytes, 0)?;
    let mut all = first;
    let mut at = end;
    while at < bytes.len() {
        let (next, end) = next_file(alloc, bytes, at)?;
        if let Err(other) = combine(&mut all, &next) {
            return Err(CombineFault::Other(other));
        }
        at = end;
    }
    Ok(all)
}

/// The union of the files that the bytes are, of either version: its name is that of the first file, and its runs are
/// the sum of all, up to 4,294,967,295. BadMarks where at the end of some files of one table, or at offset 0, no file
/// begins; Other at the first file of another table than the first one's. The sets depend on which tables and sets the
/// files have alone, neither on their order nor on how often each stands there. It reads each byte once, and holds the
/// union and one file at a time.
pub fn combine_files(alloc: Global, bytes: &[u8]) -> Result<Marks, CombineFault>
    ensures whole { IfOk result (IsCombined bytes.now) }
    ensures fault { IfErr result (IsCombineFault bytes.now) }
    ensures one { HasOneAnswer bytes.now }
    ensures anyhow { IfOk result (IsUnionAnyhow bytes.now) }
{
    combine_all(alloc, bytes)
}
