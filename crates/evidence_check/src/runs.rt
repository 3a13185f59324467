//! The run of each task of a phase, alone over modules that were never planted.
ghost use Rattle.std.specs.Prelude.{◌≡◌, ◌<◌, length, IfOk, OnOk};
ghost use Rattle.brk_table.specs.Kept.{AreCodes};
ghost use Rattle.evidence_check.specs.Found.{NotesTask, AreFirsts};

use crate::firsts::{FirstVisits, Found};
use brk_table::Tables;
use cov_base::NoMemory;
use session_book::Job;
use std::alloc::Global;
use task_services::{begin_alone, run_alone};

/// Runs task t of the job as its card says, and notes its first visits.
fn add_task(
    alloc: Global,
    job: &Job,
    tables: &Tables,
    found: &mut Vec<Found>,
    t: u16,
) -> Result<(), NoMemory>
    requires task { t < length job.now.tasks }
    requires tables { AreCodes job.now.images tables.now }
    requires size { length found.old.items ≡ length tables.now.places }
    ensures noted { OnOk result (NotesTask job.now tables.now.places t found.old.items found.new.items) }
{
    let card = job.card(t as usize);
    let mut bench = begin_alone(alloc, job, tables, t as usize)?;
    let visits = FirstVisits { task: t };
    run_alone(&visits, found, tables, &[], &mut bench, card.budget);
    Ok(())
}

/// Runs each task of the phase once, and finds at each place the first visit that shows each fact.
pub(crate) fn find_firsts(
    alloc: Global,
    job: &Job,
    tables: &Tables,
    phase: u32,
) -> Result<Vec<Found>, NoMemory>
    requires tables { AreCodes job.now.images tables.now }
    ensures { IfOk result (λ v. AreFirsts job.now tables.now.places phase v.items) }
{
    let mut found = vec![in alloc; Found::none(); tables.len() as usize]?;
    for t in 0..job.task_count() {
        if job.card(t).phase == phase {
            add_task(alloc, job, tables, &mut found, t as u16)?;
        }
    }
    Ok(found)
}
