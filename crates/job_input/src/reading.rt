//! A source that is read to its end, and the job of its first lines.
ghost use Rattle.std.specs.Prelude.{IfOk, IfErr};
ghost use Rattle.job_input.specs.Meaning.{CameWhole, IsReadFault, source_change};
ghost use Rattle.job_input.specs.Inputs.{IsInput, IsInputFault};

use crate::faults::InputFault;
use crate::form::Form;
use crate::incoming::Incoming;
use cov_base::INPUT_LIMIT;
use cov_outside::{ReadFault, Source, read_all};
use session_book::Job;
use std::alloc::Global;

/// A job that came, the number of its lines, and the bytes behind them where more than a job may come.
#[derive(Drop)]
pub struct Input {
    pub job: Job,
    pub lines: u32,
    pub rest: Vec<u8>,
}

/// Reads the source to its end. TooLarge where it has more than `INPUT_LIMIT` bytes.
pub fn read_input<S: Source>(alloc: Global, source: &mut S) -> Result<Vec<u8>, ReadFault>
    ensures bytes { IfOk result (λ v. CameWhole (source_change S.left S.faults source.old source.new) v.items) }
    ensures fault { IfErr result (IsReadFault (source_change S.left S.faults source.old source.new)) }
{
    read_all(alloc, source, INPUT_LIMIT)
}

/// Reads the source to its end, and the job of its first lines meanwhile. A fault of the source comes before one of the job.
/// What stands behind the job is kept where the form lets more stand there; else the line behind it is bad.
pub fn job_of_source<S: Source>(
    alloc: Global,
    source: &mut S,
    form: Form,
) -> Result<Input, InputFault>
    ensures came { IfOk result (IsInput form (source_change S.left S.faults source.old source.new)) }
    ensures fault { IfErr result (IsInputFault form (source_change S.left S.faults source.old source.new)) }
{
    let mut incoming = Incoming::new(alloc, form)?;
    incoming.fill(alloc, source)?;
    incoming.finish(alloc).map_err(InputFault::Job)
}
