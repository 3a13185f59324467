//! Takes the lines of a job from pieces of bytes.
ghost use Rattle.std.specs.Prelude.{◌≡◌, ◌+◌, ◌<◌, ◌≤◌, ◌++◌, ◌^◌, ℕ, List, [], true, false, IfOk, IfErr, length, take};
ghost use Rattle.cov_base.specs.declared.constants.TheConstants.{INPUT_LIMIT};
ghost use Rattle.job_text.specs.Meaning.{as_line, lines_of};
ghost use Rattle.job_text.specs.Pieces.{IsTold};
ghost use Rattle.job_text.specs.Refusals.{IsAnswer, IsRefused};
ghost use Rattle.job_text.specs.Steps.{is_done};
ghost use Rattle.job_text.specs.Taken.{IsNext, IsFaultAt, HasRun, HasTaken, HasFed, size_of};

use crate::jobs::{JobFault, ReadJob};
use crate::lines::first_of;
use crate::taken::Taken;
use std::alloc::Global;

/// What became of a piece.
#[derive(Clone, Copy)]
pub enum Fed {
    /// The job goes on behind the piece.
    More,
    /// The LF of ENDJOB's line is the last of so many bytes of the piece.
    Ended { used: usize },
}

/// Whole lines that were taken, and the bytes that have come of the next.
#[derive(Drop)]
pub(crate) struct Pieces {
    pub taken: Taken,
    pub cut: Vec<u8>,
}

impl Pieces {
    /// Takes a line whose LF has come; the bytes that were kept are its first.
    fn ended_line(&mut self, alloc: Global, line: &[u8]) -> Result<(), JobFault>
        requires few { self.old.taken.lines + 1 < 2 ^ 32 }
        requires room { size_of self.old + length line.now + 1 < 2 ^ 32 }
        ensures next { IfOk result (λ _. IsNext self.old.taken self.new.taken (as_line (self.old.cut.items ++ line.now) true)) }
        ensures none { IfOk result (λ _. self.new.cut.items ≡ []) }
        ensures fault { IfErr result (IsFaultAt self.old.taken (as_line (self.old.cut.items ++ line.now) true)) }
    {
        if self.cut.is_empty() {
            return self.taken.line(alloc, line, true);
        }
        self.cut.extend_from_slice(line)?;
        self.taken.line(alloc, &self.cut, true)?;
        self.cut.clear();
        Ok(())
    }

    /// Takes the lines that end in the piece, up to ENDJOB's, and keeps the bytes behind the last LF.
    pub(crate) fn feed(&mut self, alloc: Global, piece: &[u8]) -> Result<Fed, JobFault>
        requires taken { (before : List ℕ) × HasTaken before self.old }
        requires reading { is_done self.old.taken.reader.part ≡ false }
        requires room { size_of self.old + length piece.now ≤ INPUT_LIMIT }
        ensures fed { IfOk result (HasFed self.old piece.now self.new) }
        ensures fault { (b : List ℕ) → HasTaken b self.old → IfErr result (IsTold self.old.taken.grammar (b ++ piece.now)) }
    {
        let mut used = 0;
        while let Some(size) = first_of(b'\n', &piece[used..]) {
            self.ended_line(alloc, &piece[used..used + size])?;
            used += size + 1;
            if self.taken.reader.is_done() {
                return Ok(Fed::Ended { used });
            }
        }
        self.cut.extend_from_slice(&piece[used..])?;
        Ok(Fed::More)
    }

    /// Takes what was kept, where it is anything, as the last line, which lacks its LF.
    fn last_line(&mut self, alloc: Global) -> Result<(), JobFault>
        requires taken { (bytes : List ℕ) × HasTaken bytes self.old }
        requires room { size_of self.old ≤ INPUT_LIMIT }
        ensures ran { (bytes : List ℕ) → HasTaken bytes self.old → IfOk result (λ _. HasRun bytes self.new.taken) }
        ensures grammar { IfOk result (λ _. self.new.taken.grammar ≡ self.old.taken.grammar) }
        ensures fault { (b : List ℕ) → HasTaken b self.old → IfErr result (IsRefused self.old.taken.grammar (lines_of b)) }
    {
        if self.cut.is_empty() {
            return Ok(());
        }
        self.taken.line(alloc, &self.cut, false)
    }

    /// The job of all that was taken, which is taken out; what was kept is the last line.
    pub(crate) fn finish(&mut self, alloc: Global) -> Result<ReadJob, JobFault>
        requires taken { (bytes : List ℕ) × HasTaken bytes self.old }
        requires room { size_of self.old ≤ INPUT_LIMIT }
        ensures { (bytes : List ℕ) → HasTaken bytes self.old → IsAnswer self.old.taken.grammar bytes result }
    {
        match self.last_line(alloc) {
            Ok(()) => self.taken.finish(alloc),
            Err(fault) => Err(fault),
        }
    }
}
