//! Reads a job.
ghost use Rattle.std.specs.Prelude.{◌≡◌, ℕ, ◌≤◌, IfOk, IfErr, length, take};
ghost use Rattle.cov_base.specs.declared.constants.TheConstants.{INPUT_LIMIT};
ghost use Rattle.session_book.specs.Meaning.{JobView};
ghost use Rattle.job_text.specs.Meaning.{Present, lines_of, IsWithin, IsRefusal, Spells};
ghost use Rattle.job_text.specs.Refusals.{IsRead, AnswersOnly};

use crate::grammar::Grammar;
use crate::limit::Limit;
use crate::reader::JobReader;
use cov_base::NoMemory as OutOfMemory;
use session_book::Job;
use std::alloc::{AllocError, Global};

/// A job that was read, the offset past its ENDJOB line, and the number of lines up to and including that line.
#[derive(Drop)]
pub struct ReadJob {
    pub job: Job,
    pub end: usize,
    pub lines: u32,
}

/// What ends the reading of a job.
#[derive(Clone, Copy)]
pub enum JobFault {
    /// The first line, counted from 1, with which no job continues; one more than the number of lines where the
    /// input ends early.
    BadJob { line: u32 },
    /// The first line with which a limit is passed, where the lines up to it begin a job. Of several limits it is
    /// the first in the order of `Limit`.
    TooLarge { what: Limit, line: u32 },
    /// A growth was refused by the allocator, which may come at any line.
    NoMemory,
}

impl From<AllocError> for JobFault {
    ghost use Rattle.std.specs.Prelude.{◌≡◌};
    ghost use Rattle.job_text.specs.declared.jobs.JobFault.TheVariants.{NoMemory};

    ghost from_gives = { λ _ e. e ≡ NoMemory };

    fn from(_: AllocError) -> Self {
        JobFault::NoMemory
    }
}

impl From<OutOfMemory> for JobFault {
    ghost use Rattle.std.specs.Prelude.{◌≡◌};
    ghost use Rattle.job_text.specs.declared.jobs.JobFault.TheVariants.{NoMemory};

    ghost from_gives = { λ _ e. e ≡ NoMemory };

    fn from(_: OutOfMemory) -> Self {
        JobFault::NoMemory
    }
}

/// Reads the job that the first lines of the input, of at most `INPUT_LIMIT` bytes, spell by this grammar. The bytes after
/// its ENDJOB line are the caller's. Neither `Limit::Input` nor `Limit::Places` is answered.
pub fn read_job(alloc: Global, grammar: Grammar, input: &[u8]) -> Result<ReadJob, JobFault>
    requires { length input.now ≤ INPUT_LIMIT }
    ensures job { IfOk result (IsRead grammar input.now) }
    ensures only { AnswersOnly grammar (lines_of input.now) result }
    ensures fault { IfErr result (IsRefusal grammar (lines_of input.now)) }
{
    let mut reader = JobReader::new(alloc, grammar)?;
    // a fault is told again by what follows
    let _fed = reader.feed(alloc, input);
    reader.finish(alloc)
}
