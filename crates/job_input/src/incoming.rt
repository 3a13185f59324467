//! The input of a command that reads a job: the job is read while the input comes.
ghost use Rattle.std.specs.Prelude.{◌≡◌, ◌≤◌, ◌<◌, ◌+◌, ◌++◌, [], ℕ, List, true, length, IfOk, IfErr, OnOk};
ghost use Rattle.job_text.specs.Taken.{fed_size};
ghost use Rattle.job_input.specs.Incoming.{HasCome, HasAll};
ghost use Rattle.job_input.specs.Meaning.{SourceChange, IsReadFault, source_change};
ghost use Rattle.job_input.specs.Inputs.{CameJobless, IsInput};

use crate::form::Form;
use crate::reading::Input;
use cov_base::{INPUT_LIMIT, NoMemory};
use cov_outside::{ReadFault, Source, read_piece};
use job_text::{Fed, JobFault, JobReader};
use std::alloc::{AllocError, Global};

/// What has come of an input: the reader of its job, and where more than a job may come the bytes behind it; else whether
/// there are any.
#[derive(Drop)]
pub struct Incoming {
    pub reader: JobReader,
    pub form: Form,
    pub over: bool,
    pub rest: Vec<u8>,
}

impl Incoming {
    /// Nothing has come.
    pub fn new(alloc: Global, form: Form) -> Result<Incoming, NoMemory>
        ensures nothing { IfOk result (HasCome []) }
        ensures size { IfOk result (λ i. fed_size i.reader ≡ 0) }
        ensures form { IfOk result (λ i. i.form ≡ form) }
    {
        let reader = JobReader::new(alloc, form.grammar)?;
        Ok(Incoming {
            reader,
            form,
            over: false,
            rest: Vec::new(alloc),
        })
    }

    fn keep(&mut self, behind: &[u8]) -> Result<(), AllocError>
        ensures reader { self.new.reader ≡ self.old.reader }
        ensures form { self.new.form ≡ self.old.form }
        ensures some { 0 < length behind.now → self.new.over ≡ true }
        ensures none { behind.now ≡ [] → self.new.over ≡ self.old.over }
        ensures rest { OnOk result (self.old.form.more ≡ true → self.new.rest.items ≡ self.old.rest.items ++ behind.now) }
    {
        if !behind.is_empty() {
            self.over = true;
        }
        if self.form.more {
            self.rest.extend_from_slice(behind)?;
        }
        Ok(())
    }

    /// Takes the next bytes. A fault of the job is told by `finish` alone, so that one of the source comes first.
    fn take(&mut self, alloc: Global, piece: &[u8]) -> Result<(), AllocError>
        requires { fed_size self.old.reader + length piece.now ≤ INPUT_LIMIT }
        ensures come { (bytes : List ℕ) → HasCome bytes self.old → OnOk result (HasCome (bytes ++ piece.now) self.new) }
        ensures size { fed_size self.new.reader ≤ fed_size self.old.reader + length piece.now }
        ensures form { self.new.form ≡ self.old.form }
    {
        if self.reader.has_ended() {
            return self.keep(piece);
        }
        match self.reader.feed(alloc, piece) {
            Ok(Fed::Ended { used }) => self.keep(&piece[used..]),
            Ok(Fed::More) => Ok(()),
            Err(_) => Ok(()),
        }
    }

    /// Reads a source to its end. TooLarge as soon as the first byte past the limit of an input comes.
    pub fn fill<S: Source>(&mut self, alloc: Global, source: &mut S) -> Result<(), ReadFault>
        requires nothing { HasCome [] self.old }
        requires size { fed_size self.old.reader ≡ 0 }
        ensures come { OnOk result (HasAll (source_change S.left S.faults source.old source.new) self.new) }
        ensures form { self.new.form ≡ self.old.form }
        ensures fault { IfErr result (IsReadFault (source_change S.left S.faults source.old source.new)) }
    {
        let mut buffer = [0u8; 65_536];
        let mut room = INPUT_LIMIT;
        for _turn in 0..INPUT_LIMIT + 1 {
            let count = read_piece(source, &mut buffer, room)?;
            if count == 0 {
                return Ok(());
            }
            self.take(alloc, &buffer[..count])?;
            room -= count;
        }
        Err(ReadFault::TooLarge)
    }

    /// The job, and the bytes behind it where more than a job may come. Where none may, `BadJob` at the line behind the job.
    pub fn finish(self, alloc: Global) -> Result<Input, JobFault>
        requires { (s : SourceChange) × HasAll s self }
        ensures input { (s : SourceChange) → HasAll s self → IfOk result (IsInput self.form s) }
        ensures fault { (s : SourceChange) → HasAll s self → IfErr result (CameJobless self.form s) }
    {
        let Incoming {
            reader,
            form,
            over,
            rest,
        } = self;
        let more = form.more;
        let read = reader.finish(alloc)?;
        if over && !more {
            return Err(JobFault::BadJob {
                line: read.lines + 1,
            });
        }
        Ok(Input {
            job: read.job,
            lines: read.lines,
            rest,
        })
    }
}
