//! The run of each task of a job, over modules that were never planted.
ghost use Rattle.std.specs.Prelude.{◌≡◌, ◌+◌, ◌<◌, ◌++◌, ◌∷◌, [], length, IfOk, OnOk};
ghost use Rattle.brk_table.specs.Kept.{AreCodes};
ghost use Rattle.task_ends.specs.Meaning.{end_of, unlisted_of};
ghost use Rattle.task_ends.specs.Ends.{AreEnds};
ghost use Rattle.task_ends.specs.Held.{HasRoom};
ghost use Rattle.task_ends.specs.Unlisted.{AddsTask};

use crate::unlisted::Unlisted;
use brk_table::Tables;
use cov_base::NoMemory;
use module_area::Images;
use session_book::Job;
use std::alloc::Global;
use task_run::TaskEnd;
use task_services::{begin_alone, run_alone};

/// Of a job, in its order: where each task ended, and for each module how many visits of all tasks were begun in it where
/// no place begins, up to 2 for each instruction.
#[derive(Drop)]
pub struct Ends {
    pub tasks: Vec<TaskEnd>,
    pub unlisted: Vec<u64>,
}

/// The job's modules.
fn images_of(job: &Job) -> &Images
    ensures { result.now ≡ job.now.images }
{
    &job.images
}

/// Runs task t of the job as its card says, adds to the counts of the tasks before it, and adds where it ended.
fn add_task(
    alloc: Global,
    job: &Job,
    tables: &Tables,
    counts: &mut Vec<u64>,
    ends: &mut Vec<TaskEnd>,
    t: usize,
) -> Result<(), NoMemory>
    requires task { t < length job.now.tasks }
    requires tables { AreCodes job.now.images tables.now }
    requires number { t + 1 < 65536 }
    requires room { HasRoom (length job.now.images) t counts.old.items 0 0 }
    ensures end { OnOk result (ends.new.items ≡ ends.old.items ++ end_of job.now tables.now.places t ∷ []) }
    ensures room { OnOk result (HasRoom (length job.now.images) (t + 1) counts.new.items 0 0) }
    ensures counts { OnOk result (AddsTask job.now tables.now.places t counts.old.items counts.new.items) }
{
    let unlisted = Unlisted {
        images: images_of(job),
        tasks: t as u32,
    };
    let card = job.card(t);
    let mut bench = begin_alone(alloc, job, tables, t)?;
    // Taken apart, since the check doesn't carry a TaskEnd over the call that adds it.
    let TaskEnd { ending, done, at } = run_alone(
        &unlisted,
        counts,
        tables,
        job.services(),
        &mut bench,
        card.budget,
    );
    ends.push(TaskEnd { ending, done, at })?;
    Ok(())
}

/// Runs each task of the job once, whatever its phase, with the job's services, if it has any. The tables are those of the
/// job's listings. Memory is linear in the tasks and modules, beside one task's storage at a time.
pub fn find_ends(alloc: Global, job: &Job, tables: &Tables) -> Result<Ends, NoMemory>
    requires tables { AreCodes job.now.images tables.now }
    ensures { IfOk result (AreEnds job.now (end_of job.now tables.now.places) (unlisted_of job.now tables.now.places)) }
{
    let mut counts = vec![in alloc; 0u64; job.module_count() as usize]?;
    let mut ends = Vec::with_capacity(alloc, job.task_count())?;
    for t in 0..job.task_count() {
        add_task(alloc, job, tables, &mut counts, &mut ends, t)?;
    }
    Ok(Ends {
        tasks: ends,
        unlisted: counts,
    })
}
