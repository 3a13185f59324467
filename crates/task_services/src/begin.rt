//! A task of a job that runs alone, before its first instruction.
ghost use Rattle.std.specs.Prelude.{◌≡◌, ◌<◌, length, IfOk};
ghost use Rattle.brk_table.specs.Kept.{AreCodes};
ghost use Rattle.session_book.specs.Meaning.{task_of};
ghost use Rattle.phase_plan.specs.Meaning.{first_state, task_memory};
ghost use Rattle.task_run.specs.Steps.{IsShown, memory_at, stands};
ghost use Rattle.task_services.specs.Alone.{no_sessions};

use brk_table::Tables;
use cov_base::NoMemory;
use module_area::Control;
use phase_plan::{Begun, begin};
use session_book::Job;
use std::alloc::Global;
use task_run::Bench;

/// Task t of the job as its card says, over modules that were never planted, whatever sessions it controls: it opens and
/// closes none. The tables are those of the job's listings.
pub fn begin_alone<'a>(
    alloc: Global,
    job: &'a Job,
    tables: &'a Tables,
    t: usize,
) -> Result<Bench<'a>, NoMemory>
    requires task { t < length job.now.tasks }
    requires tables { AreCodes job.now.images tables.now }
    ensures memory { IfOk result (λ b. memory_at b ≡ task_memory job.now tables.now.places t) }
    ensures state { IfOk result (λ b. stands b 0 ≡ first_state (task_of job.now t)) }
    ensures control { IfOk result (λ b. b.control ≡ no_sessions) }
    ensures shown { IfOk result (λ b. IsShown (memory_at b) tables.now) }
{
    // the proof reads off the number of tasks what the job's rules say of its modules and tasks
    let _ = job.task_count();
    let Begun { cpu, space, io } = begin(alloc, job, tables, t)?;
    Ok(Bench {
        cpu,
        space,
        io,
        control: Control {
            sessions: Vec::new(alloc),
            next: 0,
            opened: None,
        },
    })
}
