//! The tasks of a phase, each on a thread of its own, over cells in which breakpoints stay.
ghost use Rattle.std.specs.Prelude.{◌≡◌, ◌+◌, ◌<◌, true, false, length, IfOk};
ghost use Rattle.brk_table.specs.Kept.{AreCodes};
ghost use Rattle.session_book.specs.JobView.{IsJob};
ghost use Rattle.count_session.specs.Notes.{root_notes, OnlyPlants, PlantsAt, HasPlanted};
ghost use Rattle.count_session.specs.Passes.{IsPassOf, notes_of, plan_in};
ghost use Rattle.count_session.specs.Phases.{AreBefore, IsCounted};

use crate::cells::CountCells;
use crate::counts::Counts;
use crate::pass::{CountPass, CountSlot};
use crate::run::run_counted;
use brk_table::Tables;
use cov_base::{NoMemory, PlaceNo, TaskNo};
use cov_outside::Gate;
use job_run::{Crew, Done, run_crew};
use module_area::Plan;
use phase_plan::plan_of;
use session_book::Job;
use std::alloc::Global;
use std::thread::Threads;

/// Plants the place where it has a window.
#[tactic(auto, using(crate::proofs::PlantLemmas::no_window, crate::proofs::PlantLemmas::a_window))]
fn plant_one(cells: &CountCells, root: &mut CountPass, plan: &Plan, place: PlaceNo)
    requires area { IsPassOf cells.now root.old }
    requires plan { plan_in cells.now ≡ plan.now }
    requires root { (notes_of cells.now root.old).root ≡ true }
    requires unsplit { (notes_of cells.now root.old).given ≡ 0 }
    requires place { place.0 < length plan.now.places }
    requires unplanted { (notes_of cells.now root.old).planted place.0 ≡ false }
    ensures area { IsPassOf cells.now root.new }
    ensures same { OnlyPlants (notes_of cells.now root.old) (notes_of cells.now root.new) }
    ensures planted { PlantsAt plan.now place.0 (notes_of cells.now root.old) (notes_of cells.now root.new) }
{
    if plan.window(place) == 0 {
        return;
    }
    cells.plant(root, place);
}

/// Plants each place with a window.
fn plant_all(cells: &CountCells, root: &mut CountPass, plan: &Plan)
    requires area { IsPassOf cells.now root.old }
    requires plan { plan_in cells.now ≡ plan.now }
    requires root { notes_of cells.now root.old ≡ root_notes }
    ensures area { IsPassOf cells.now root.new }
    ensures same { OnlyPlants root_notes (notes_of cells.now root.new) }
    ensures planted { HasPlanted plan.now (notes_of cells.now root.new) }
{
    for i in 0..plan.places_len() {
        plant_one(cells, root, plan, PlaceNo(i));
    }
}

/// Counts with the cells of an area that was made for a phase of the job.
#[derive(Drop)]
pub(crate) struct CountCrew<'a> {
    cells: &'a CountCells,
    job: &'a Job,
    tables: &'a Tables,
    phase: u32,
}

impl<'a> Crew for CountCrew<'a> {
    ghost use Rattle.phase_plan.specs.Meaning.{plan_view};
    ghost use Rattle.task_services.specs.Meaning.{course_of};
    ghost use Rattle.job_run.specs.Crews.{phase_at};
    ghost use Rattle.job_run.specs.Passes.{IsOfPhase};
    ghost use Rattle.job_run.specs.Meaning.{trace_by};
    ghost use Rattle.job_run.specs.Tasks.{HasNotRun, IsEnded};
    ghost use Rattle.count_session.specs.Passes.{plan_in};
    ghost use Rattle.count_session.specs.Phases.{HasCounted, HasJoined, IsFresh};

    type Pass = CountPass;

    type Extra = ();

    ghost phase = { λ c. phase_at c.job.now c.phase };

    ghost IsFit = { λ c. IsOfPhase (plan_in c.cells.now) c.job.now c.tables.now c.phase };

    ghost IsRoot = { λ c. HasJoined c.cells.now c.job.now c.tables.now.places };

    ghost IsFresh = { λ c t. IsFresh c.cells.now };

    ghost CanRun = { λ c t d extra. HasNotRun c.job.now c.tables.now.places t d };

    ghost HasRun = { λ c t. HasCounted c.cells.now (trace_by (course_of c.job.now.services) c.job.now c.tables.now.places t) };

    ghost Ends = { λ c t old new extra pass. IsEnded (course_of c.job.now.services) c.job.now c.tables.now.places t new };

    ghost Knows = { λ c root pass. Unit {0} };

    fn split(&self, root: &mut CountPass, task: TaskNo) -> CountPass {
        self.cells.split(root)
    }

    fn run(&self, task: TaskNo, pass: &mut CountPass, extra: &mut Option<()>, done: &mut Done<'_>) {
        let services = self.job.services();
        let ending = run_counted(self.cells, pass, self.tables, services, &mut done.task);
        done.ending = Some(ending);
    }

    fn join(&self, root: &mut CountPass, task: TaskNo, pass: CountPass) {
        self.cells.join(root, pass);
    }
}

/// Counts a phase: makes an area of its plan, plants every place with a window, runs the phase's tasks, and ends the area.
pub(crate) fn count_phase<'a, T: Threads + Sync, G: Gate + Sync>(
    rt: &T,
    alloc: Global,
    gate: &G,
    job: &Job,
    tables: &Tables,
    phase: u32,
    slots: &mut [CountSlot<'a>],
) -> Result<Counts, NoMemory>
    requires job { IsJob job.now }
    requires phase { phase < length job.now.phases }
    requires codes { AreCodes job.now.images tables.now }
    requires before { AreBefore job.now tables.now.places phase slots.old }
    ensures counts { IfOk result (IsCounted job.now tables.now.places phase) }
    ensures next { IfOk result (λ _. AreBefore job.now tables.now.places (phase + 1) slots.new) }
{
    let plan = plan_of(alloc, job, tables, phase)?;
    let (cells, mut root) = CountCells::new(alloc, &plan)?;
    plant_all(&cells, &mut root, &plan);
    let crew = CountCrew {
        cells: &cells,
        job,
        tables,
        phase,
    };
    run_crew(rt, gate, &crew, job, phase, &mut root, slots);
    cells.finish(alloc, root)
}
