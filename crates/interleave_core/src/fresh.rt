//! What a core begins with.
ghost use Rattle.std.specs.Prelude.{◌≡◌, length, map, replicate, All, IfOk};
ghost use Rattle.module_area.specs.Meaning.{fresh_word};
ghost use Rattle.brk_table.specs.Places.{IsIn};
ghost use Rattle.cov_base.specs.Meaning.{no_facts};
ghost use Rattle.interleave_core.specs.World.{world_of};
ghost use Rattle.interleave_core.specs.Views.{AreReady};

use crate::running::Running;
use brk_table::Tables;
use cov_base::{Bits, NoMemory};
use module_area::{Cell, Place};
use session_book::Job;
use std::alloc::{AllocError, Global};

/// The job's tasks, in job order.
pub(crate) fn make_tasks<'a>(
    alloc: Global,
    job: &'a Job,
    tables: &'a Tables,
) -> Result<Vec<Running<'a>>, NoMemory>
    requires { All (IsIn job.now.images) tables.now.places }
    ensures { IfOk result (λ v. AreReady (world_of job.now tables.now) (length job.now.tasks) v.items) }
{
    let count = job.task_count();
    let mut tasks = Vec::with_capacity(alloc, count)?;
    for t in 0..count {
        tasks.push(Running::new(alloc, job, tables, t)?)?;
    }
    Ok(tasks)
}

/// The cells of the places before anything is planted.
pub(crate) fn fresh_cells(alloc: Global, places: &[Place]) -> Result<Vec<Cell>, AllocError>
    ensures { IfOk result (λ v. v.items ≡ map fresh_word places.now) }
{
    places
        .iter()
        .map(|p| Cell {
            tag: 0,
            half: p.original,
        })
        .collect(alloc)
}

/// So many sets without a fact.
pub(crate) fn fresh_sets(alloc: Global, count: usize) -> Result<Vec<Bits>, AllocError>
    ensures { IfOk result (λ v. v.items ≡ replicate count no_facts) }
{
    vec![in alloc; Bits::empty(); count]
}
