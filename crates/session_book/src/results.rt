//! What a report is made of: the tasks' results, and the sessions' sets.
ghost use Rattle.std.specs.Prelude.{◌≡◌, ℕ, ◌+◌, ◌*◌, ◌<◌, length};
ghost use Rattle.cov_base.specs.Meaning.{FactSet};
ghost use Rattle.cov_base.specs.declared.facts.Fact.{Fact};
ghost use Rattle.session_book.specs.Meaning.{ResultView};
ghost use Rattle.session_book.specs.Results.{storage_row};

use cov_base::{Bits, Fact, PlaceNo, SessNo, TaskNo};
use s370_state::{Cpu, Ending};

/// The results of a job's tasks. Each call needs the number of a task of the job.
pub trait Results {
    /// How many tasks there are.
    ghost tasks: { Self → ℕ };

    /// What each has come to.
    ghost result_of: { Self → ℕ → ResultView };

    /// How the task ended; none exactly where it hasn't ended.
    fn ending(&self, t: TaskNo) -> Option<Ending>
        requires { t.0 < tasks self.now }
        ensures { result ≡ (result_of self.now t.0).ending };

    /// The instructions that it has done.
    fn done(&self, t: TaskNo) -> u32
        requires { t.0 < tasks self.now }
        ensures { result ≡ (result_of self.now t.0).done };

    /// Its processor.
    fn cpu(&self, t: TaskNo) -> &Cpu
        requires { t.0 < tasks self.now }
        ensures { result.now ≡ (result_of self.now t.0).cpu };

    /// Its output.
    fn output(&self, t: TaskNo) -> &[u8]
        requires { t.0 < tasks self.now }
        ensures { result.now ≡ (result_of self.now t.0).output };

    /// The bytes of row n of its private storage, 16 or, in the last row, fewer.
    fn row(&self, t: TaskNo, n: u32) -> &[u8]
        requires task { t.0 < tasks self.now }
        requires exists { 16 * n < length (result_of self.now t.0).bytes }
        ensures { result.now ≡ storage_row (result_of self.now t.0).bytes n };
}

/// The sets of a job's sessions at the places of its tables. The call needs existing numbers.
pub trait FactSets {
    /// How many sessions there are, and how many places.
    ghost sessions: { Self → ℕ };

    ghost places: { Self → ℕ };

    /// The set of each session at each place.
    ghost set_of: { Self → ℕ → ℕ → FactSet };

    /// The set of the session at the place.
    fn set(&self, s: SessNo, p: PlaceNo) -> Bits
        requires some { 0 < s.0 }
        requires session { s.0 < sessions self.now + 1 }
        requires place { p.0 < places self.now }
        ensures { result ≡ set_of self.now s.0 p.0 };
}

/// How often the executions of a job's sessions gave each fact at the places of its tables. The call needs existing
/// numbers.
pub trait FactCounts {
    /// How many sessions there are, and how many places.
    ghost sessions: { Self → ℕ };

    ghost places: { Self → ℕ };

    /// The count of each session of each fact at each place.
    ghost count_of: { Self → ℕ → ℕ → Fact → ℕ };

    /// How often the session's executions gave the fact at the place.
    fn count(&self, s: SessNo, p: PlaceNo, fact: Fact) -> u64
        requires some { 0 < s.0 }
        requires session { s.0 < sessions self.now + 1 }
        requires place { p.0 < places self.now }
        ensures { result ≡ count_of self.now s.0 p.0 fact };
}
