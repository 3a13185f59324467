//! Lines that go to a sink.
ghost use Rattle.std.specs.Prelude.{◌≡◌, ℕ, List, ◌++◌, ◌∷◌, []};
ghost use Rattle.report_text.specs.Writes.{Prints};

use arrayvec::ArrayVec;
use cov_outside::{Failed, Sink, write_all};

/// Writes a line that ends with LF, whole or its first bytes where the sink's count of faults rose. Takes no memory.
#[tactic(auto, using(crate::proofs::WriteLemmas::one_line))]
pub fn put<K: Sink>(sink: &mut K, line: ArrayVec<u8, 160>) -> Result<(), Failed>
    ensures { (text : List ℕ) → line.items ≡ text ++ 10 ∷ [] → Prints K.Sink sink.old sink.new result (text ∷ []) }
{
    write_all(sink, line.as_slice())
}
