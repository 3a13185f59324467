//! The words of a command line, from a source to a writer that holds bytes back.
ghost use Rattle.std.specs.Prelude.{◌<◌, ◌^◌};
ghost use Rattle.coverage_program.specs.Serving.{Hands};

use cov_outside::{Failed, OpenGate, Source, StdSink};
use coverage_commands::{Reason, Status, cover};
use module_area::Areas;
use std::alloc::Global;
use std::io::{BufWriter, Write};
use std::sync::Wait;
use std::thread::Threads;

/// Serves the words as `cover` does, and then hands on what the writer still holds. Where that fails, which the sink counts, the
/// status is 6.
pub(crate) fn serve<T: Threads + Wait + Sync, S: Source, W: Write + Drop, A: Areas>(
    rt: &T,
    alloc: Global,
    words: &[String],
    source: &mut S,
    sink: &mut StdSink<BufWriter<W>>,
    areas: &mut A,
) -> Status
    requires { A.made areas.old < 2 ^ 61 }
    ensures { Hands S.Source A.Areas W.Write words.now source.old source.new areas.old areas.new sink.old sink.new result }
{
    let status = cover(rt, alloc, words, source, sink, areas, &OpenGate);
    match sink.flush() {
        Ok(()) => status,
        Err(Failed) => Status::of(Reason::WriteFault),
    }
}
