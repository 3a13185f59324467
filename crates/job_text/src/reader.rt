//! A job that is read in pieces.
ghost use Rattle.std.specs.Prelude.{◌≡◌, ◌+◌, ◌≤◌, ◌++◌, ℕ, List, [], false, None, Some, Err, IfOk, IfErr, length, take};
ghost use Rattle.cov_base.specs.declared.constants.TheConstants.{INPUT_LIMIT};
ghost use Rattle.session_book.specs.Meaning.{JobView};
ghost use Rattle.job_text.specs.Meaning.{Present, lines_of, IsWithin, IsRefusal, Spells};
ghost use Rattle.job_text.specs.Pieces.{IsTold, Feeds, used_of, used_count, is_end};
ghost use Rattle.job_text.specs.Refusals.{IsRead, IsAnswer, AnswersOnly};
ghost use Rattle.job_text.specs.Taken.{Finds, IsFed, WasFed, stage_of, grammar_of, told, has_ended, fed_size};

use crate::grammar::Grammar;
use crate::jobs::{JobFault, ReadJob};
use crate::pieces::{Fed, Pieces};
use crate::steps::LineReader;
use crate::taken::Taken;
use cov_base::NoMemory;
use std::alloc::Global;
use std::marker::Model;

/// Reads a job from pieces of bytes as they come.
#[derive(Drop)]
pub struct JobReader {
    pieces: Pieces,
    /// The fault that was told, with the grammar of the job; what was read is of no use then.
    failed: Option<(Grammar, JobFault)>,
}

impl Model for JobReader {
    ghost use Rattle.job_text.specs.Taken.{Stage, stage_of};

    ghost Value = { Stage };

    ghost use Rattle.job_text.specs.Taken.{WasFed};

    ghost view = { λ r. stage_of r.pieces r.failed };

    ghost invariant = { λ r. WasFed (stage_of r.pieces r.failed) };
}

impl JobReader {
    /// Nothing was fed; the job may have the cards of this grammar.
    pub fn new(alloc: Global, grammar: Grammar) -> Result<JobReader, NoMemory>
        ensures grammar { IfOk result (λ r. grammar_of r ≡ grammar) }
        ensures nothing { IfOk result (IsFed []) }
        ensures no_fault { IfOk result (λ r. told r ≡ None) }
        ensures reading { IfOk result (λ r. has_ended r ≡ false) }
        ensures size { IfOk result (λ r. fed_size r ≡ 0) }
    {
        Ok(JobReader {
            pieces: Pieces {
                taken: Taken {
                    grammar,
                    reader: LineReader::new(alloc, grammar),
                    lines: 0,
                    bytes: 0,
                },
                cut: Vec::new(alloc),
            },
            failed: None,
        })
    }

    /// Takes the next bytes of the input. `BadJob` or `TooLarge` exactly where the bytes so far hold, with its LF, the first
    /// line that is bad or passes a limit, and the fault is that of `read_job` at that line; an input that ends early is a
    /// fault of `finish` alone. Else it is `Ended` exactly where the LF of ENDJOB's line stands in this piece; the bytes
    /// behind it are the caller's. No earlier call has answered `Ended`, and the pieces have at most `INPUT_LIMIT` bytes
    /// together. After a fault each later call answers the same.
    pub fn feed(&mut self, alloc: Global, piece: &[u8]) -> Result<Fed, JobFault>
        requires reading { has_ended self.old ≡ false }
        requires room { fed_size self.old + length piece.now ≤ INPUT_LIMIT }
        ensures grammar { grammar_of self.new ≡ grammar_of self.old }
        ensures taken { (old : List ℕ) → IsFed old self.old → IfOk result (λ f. IsFed (old ++ used_of piece.now f) self.new) }
        ensures fed { (old : List ℕ) → IsFed old self.old → IfOk result (Feeds (grammar_of self.old) old piece.now) }
        ensures used { IfOk result (λ f. used_count piece.now f ≤ length piece.now) }
        ensures fault { (old : List ℕ) → IsFed old self.old → IfErr result (IsTold (grammar_of self.old) (old ++ piece.now)) }
        ensures failed { (old : List ℕ) → IsFed old self.old → IfErr result (λ _. IsFed (old ++ piece.now) self.new) }
        ensures same { (e : JobFault) → told self.old ≡ Some e → result ≡ Err e }
        ensures told { IfErr result (λ e. told self.new ≡ Some e) }
        ensures no_fault { IfOk result (λ _. told self.new ≡ None) }
        ensures ended { IfOk result (λ f. has_ended self.new ≡ is_end f) }
        ensures size { fed_size self.new ≤ fed_size self.old + length piece.now }
    {
        match self.failed {
            Some((_, fault)) => Err(fault),
            None => {
                let grammar = self.pieces.taken.grammar;
                match self.pieces.feed(alloc, piece) {
                    Ok(fed) => Ok(fed),
                    Err(fault) => {
                        self.failed = Some((grammar, fault));
                        Err(fault)
                    }
                }
            }
        }
    }

    /// Whether `feed` has answered `Ended`.
    pub fn has_ended(&self) -> bool
        ensures { result ≡ has_ended self.now }
    {
        match self.failed {
            Some(_) => false,
            None => self.pieces.taken.reader.is_done(),
        }
    }

    /// What `read_job` answers for the bytes that were fed, up to ENDJOB's.
    pub fn finish(self, alloc: Global) -> Result<ReadJob, JobFault>
        ensures job { (bytes : List ℕ) → IsFed bytes self → IfOk result (IsRead (grammar_of self) bytes) }
        ensures whole { (bytes : List ℕ) → IsFed bytes self → IfOk result (λ r. r.end ≡ length bytes) }
        ensures only { (bytes : List ℕ) → IsFed bytes self → AnswersOnly (grammar_of self) (lines_of bytes) result }
        ensures fault { (bytes : List ℕ) → IsFed bytes self → IfErr result (IsRefusal (grammar_of self) (lines_of bytes)) }
        ensures same { (e : JobFault) → told self ≡ Some e → result ≡ Err e }
    {
        let JobReader { mut pieces, failed } = self;
        let read = finished(alloc, &mut pieces, failed);
        drop(pieces);
        read
    }
}

/// The fault that was told, else the job of what was taken, which is taken out.
fn finished(
    alloc: Global,
    pieces: &mut Pieces,
    failed: Option<(Grammar, JobFault)>,
) -> Result<ReadJob, JobFault>
    requires { WasFed (stage_of pieces.old failed) }
    ensures answer { Finds pieces.old failed (λ g bytes. IsAnswer g bytes result) }
    ensures same { (e : JobFault) → told (stage_of pieces.old failed) ≡ Some e → result ≡ Err e }
{
    match failed {
        Some((_, fault)) => Err(fault),
        None => pieces.finish(alloc),
    }
}
