//! The whole job.
ghost use Rattle.std.specs.Prelude.{◌≡◌, ◌≤◌, ◌∷◌, [], IfOk};
ghost use Rattle.cov_base.specs.Meaning.{padded};
ghost use Rattle.job_gen.specs.Meaning.{trial_job};

use crate::code::code_of;
use crate::listing::{bytes_of, listing_of};
use crate::tasks::{BASE, tasks_of};
use cov_base::{Addr, Name, NoMemory};
use module_area::{Image, Images};
use session_book::{Job, JobCards, Session};
use std::alloc::Global;

/// The name of one letter.
fn letter(letter: u8) -> Name
    requires from { 65 ≤ letter }
    requires to { letter ≤ 90 }
    ensures { result ≡ padded (letter ∷ []) }
{
    match Name::read(&[letter]) {
        Some(name) => name,
        None => unreachable!(),
    }
}

/// The generated job of a number and 1 to 64 tasks. Its module M at X'100000' has 400 blocks, drawn from the number
/// on by a linear congruential generator, at most 3,206 bytes, and a listing. Session S observes it in the one phase P.
/// Each task goes through it 200 times, in fewer than 250,000 instructions, and then returns.
pub fn trial(alloc: Global, number: u32, tasks: u32) -> Result<Job, NoMemory>
    requires some { 1 ≤ tasks }
    requires most { tasks ≤ 64 }
    ensures { IfOk result (λ j. j ≡ trial_job number tasks) }
{
    let code = code_of(alloc, number, 400)?;
    let image = Image {
        name: letter(b'M'),
        base: Addr::of(BASE),
        bytes: bytes_of(alloc, &code)?,
    };
    let session = Session {
        name: letter(b'S'),
        phase: 0,
        modules: vec![in alloc; 0]?,
        by: None,
    };
    let cards = JobCards {
        images: Images(vec![in alloc; image]?),
        listings: vec![in alloc; Some(listing_of(alloc, &code)?)]?,
        services: Vec::new(alloc),
        phases: vec![in alloc; letter(b'P')]?,
        sessions: vec![in alloc; session]?,
        tasks: tasks_of(alloc, tasks)?,
    };
    Ok(Job::new(cards))
}
