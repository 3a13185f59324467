//! A refusal, told.
ghost use Rattle.refusals.specs.Meaning.{IsWritten, sink_change};

use cov_outside::Sink;
use refusals::{Refusal, Status, told};

/// Tells the refusal.
pub fn refuse<K: Sink>(sink: &mut K, refusal: &Refusal) -> Status
    ensures { IsWritten refusal.now.status refusal.now.line (sink_change K.written K.faults sink.old sink.new) result }
{
    told(sink, &refusal.line, refusal.reason)
}
