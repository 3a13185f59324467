//! A task of a job before its first instruction.
ghost use Rattle.std.specs.Prelude.{◌≡◌, ◌<◌, length, All, IfOk};
ghost use Rattle.module_area.specs.Images.{AreImages};
ghost use Rattle.brk_table.specs.Places.{IsIn};
ghost use Rattle.phase_plan.specs.Begun.{IsBegun};

use brk_table::Tables;
use cov_base::NoMemory;
use module_area::Images;
use s370_state::{Cpu, TaskIo};
use session_book::Job;
use space_map::TaskSpace;
use std::alloc::Global;

/// A task's processor, storage, input and output.
#[derive(Drop)]
pub struct Begun<'a> {
    pub cpu: Cpu,
    pub space: TaskSpace<'a>,
    pub io: TaskIo,
}

/// The job's modules.
fn images_of(job: &Job) -> &Images
    ensures value { result.now ≡ job.now.images }
    ensures images { AreImages result.now }
{
    &job.images
}

/// Task t of the job, which numbers from 0, as its card says, over the job's modules and the tables of their listings.
pub fn begin<'a>(
    alloc: Global,
    job: &'a Job,
    tables: &'a Tables,
    t: usize,
) -> Result<Begun<'a>, NoMemory>
    requires task { t < length job.now.tasks }
    requires tables { All (IsIn job.now.images) tables.now.places }
    ensures { IfOk result (IsBegun job.now tables.now.places t) }
{
    let card = job.card(t);
    let input = card.input.to_vec(alloc)?;
    let io = TaskIo::new(alloc, input, card.room)?;
    let space = TaskSpace::new(alloc, card.private, &card.cards, images_of(job), tables)?;
    let cpu = Cpu::new(&card.regs, card.entry, 0, 0);
    Ok(Begun { cpu, space, io })
}
