//! Why no job was come to.

use cov_base::NoMemory;
use cov_outside::ReadFault;
use job_text::JobFault;

/// Why a source gives no job.
#[derive(Clone, Copy)]
pub enum InputFault {
    /// It wasn't read to its end, or memory was wanting before.
    Source(ReadFault),
    /// It was, and its lines have no job; or memory was wanting behind.
    Job(JobFault),
}

impl From<NoMemory> for InputFault {
    ghost use Rattle.std.specs.Prelude.{◌≡◌};
    ghost use Rattle.cov_outside.specs.declared.whole.ReadFault.TheVariants.{NoMemory as Wanting};
    ghost use Rattle.job_input.specs.declared.faults.InputFault.TheVariants.{Source};

    ghost from_gives = { λ _ e. e ≡ Source Wanting };

    fn from(_: NoMemory) -> Self {
        InputFault::Source(ReadFault::NoMemory)
    }
}

impl From<ReadFault> for InputFault {
    ghost use Rattle.std.specs.Prelude.{◌≡◌};
    ghost use Rattle.job_input.specs.declared.faults.InputFault.TheVariants.{Source};

    ghost from_gives = { λ fault e. e ≡ Source fault };

    fn from(fault: ReadFault) -> Self {
        InputFault::Source(fault)
    }
}
