//! The whole lines of a job that were taken.
ghost use Rattle.std.specs.Prelude.{◌+◌, ◌<◌, ◌^◌, ℕ, List, IfOk, IfErr, length};
ghost use Rattle.job_text.specs.Meaning.{Present, as_line};
ghost use Rattle.job_text.specs.Refusals.{IsAnswer};
ghost use Rattle.job_text.specs.Steps.{step};
ghost use Rattle.job_text.specs.Taken.{IsNext, IsFaultAt, HasRun};

use crate::grammar::Grammar;
use crate::jobs::{JobFault, ReadJob};
use crate::refused::LineRefused;
use crate::steps::LineReader;
use std::alloc::Global;

/// What the lines say that were taken, how many they are, and how many bytes with their LFs.
#[derive(Drop)]
pub(crate) struct Taken {
    pub grammar: Grammar,
    pub reader: LineReader,
    pub lines: u32,
    pub bytes: usize,
}

impl Taken {
    /// Takes the next line; `ended` where an LF ended it.
    pub(crate) fn line(&mut self, alloc: Global, bytes: &[u8], ended: bool) -> Result<(), JobFault>
        requires few { self.old.lines + 1 < 2 ^ 32 }
        requires room { self.old.bytes + length bytes.now + 1 < 2 ^ 32 }
        ensures next { IfOk result (λ _. IsNext self.old self.new (as_line bytes.now ended)) }
        ensures fault { IfErr result (IsFaultAt self.old (as_line bytes.now ended)) }
    {
        let size = if ended { bytes.len() + 1 } else { bytes.len() };
        match self.reader.line(alloc, bytes, ended) {
            Ok(()) => {
                self.lines += 1;
                self.bytes += size;
                Ok(())
            }
            Err(LineRefused::Bad) => Err(JobFault::BadJob {
                line: self.lines + 1,
            }),
            Err(LineRefused::TooLarge(what)) => Err(JobFault::TooLarge {
                what,
                line: self.lines + 1,
            }),
            Err(LineRefused::NoMemory) => Err(JobFault::NoMemory),
        }
    }

    /// The job that all lines of an input spell, which is taken out.
    pub(crate) fn finish(&mut self, alloc: Global) -> Result<ReadJob, JobFault>
        requires ran { (bytes : List ℕ) × HasRun bytes self.old }
        requires room { self.old.bytes + 1 < 2 ^ 32 }
        ensures { (bytes : List ℕ) → HasRun bytes self.old → IsAnswer self.old.grammar bytes result }
    {
        if self.reader.is_done() {
            return Ok(ReadJob {
                job: self.reader.finish(alloc)?,
                end: self.bytes,
                lines: self.lines,
            });
        }
        Err(JobFault::BadJob {
            line: self.lines + 1,
        })
    }
}
