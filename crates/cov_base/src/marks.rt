//! The mark that an annotated listing line bears.
ghost use Rattle.std.specs.Prelude.{◌≡◌};
ghost use Rattle.std.specs.Prelude.{true};
ghost use Rattle.cov_base.specs.Meaning.{is_within, mark_of, branch_mark};

use crate::facts::{Bits, Fact, Kind};

/// The mark of a listing line.
#[derive(Clone, Copy)]
pub enum Mark {
    /// A text line: blank.
    Text,
    /// The instruction has not run: `^`.
    Not,
    /// It has run: `:`.
    Done,
    /// It has branched, and not fallen through: `>`.
    Branched,
    /// It has fallen through, and not branched: `V`.
    Fell,
    /// It has branched and fallen through: `&`.
    Both,
}

/// The mark of an instruction of this kind whose executions showed these facts, all of them the kind's.
pub fn mark_of(k: Kind, b: Bits) -> Mark
    requires { is_within k b ≡ true }
    ensures { result ≡ mark_of k b }
{
    match k {
        Kind::Straight => {
            if b.has(Fact::Ran) {
                Mark::Done
            } else {
                Mark::Not
            }
        }
        Kind::Conditional => branch_mark(b.has(Fact::Went), b.has(Fact::Stayed)),
    }
}

fn branch_mark(went: bool, stayed: bool) -> Mark
    ensures { result ≡ branch_mark went stayed }
{
    match (went, stayed) {
        (true, true) => Mark::Both,
        (true, false) => Mark::Branched,
        (false, true) => Mark::Fell,
        (false, false) => Mark::Not,
    }
}
