//! The coverage utility.
#![tactic(auto)]

mod serving;

use crate::serving::serve;
use cov_outside::{StdSink, StdSource};
use coverage_commands::{Reason, Status};
use shared_area::SharedAreas;
use std::alloc::AllocError;
use std::io::BufWriter;
use std::process::ExitCode;
use std::{env, io};

/// The words after the program's name.
fn given_words(rt: &HostRuntime) -> io::Result<Vec<String>> {
    let mut words = Vec::new(rt.alloc());
    for (i, word) in env::args(rt)?.enumerate() {
        if i > 0 {
            words.push(word)?;
        }
    }
    Ok(words)
}

/// Those words; none where one of them isn't text, which no command has.
fn words_of(rt: &HostRuntime) -> Result<Vec<String>, AllocError> {
    match given_words(rt) {
        Ok(words) => Ok(words),
        Err(e) if e.kind() == io::ErrorKind::OutOfMemory => Err(AllocError),
        Err(_) => Ok(Vec::new(rt.alloc())),
    }
}

fn main(rt: HostRuntime) -> ExitCode {
    let alloc = rt.alloc();
    let writer = BufWriter::with_capacity(alloc, 65_536, rt.stdout());
    // One for each phase of a job.
    let areas = SharedAreas::new(alloc, 16);
    let (Ok(words), Ok(writer), Ok(mut areas)) = (words_of(&rt), writer, areas) else {
        return ExitCode::from(Status::of(Reason::NoMemory).code());
    };
    let (mut source, mut sink) = (StdSource::new(rt.stdin()), StdSink::new(writer));
    ExitCode::from(serve(&rt, alloc, &words, &mut source, &mut sink, &mut areas).code())
}
