//! The sets of a run, put where the marks of a session stand.
ghost use Rattle.std.specs.Prelude.{◌≡◌, ◌+◌, ◌<◌, ◌≤◌, length};
ghost use Rattle.brk_table.specs.Together.{AreTables};
ghost use Rattle.cov_base.specs.Meaning.{no_facts};
ghost use Rattle.phase_plan.specs.Sets.{HasSetsOf};
ghost use Rattle.session_marks.specs.Filled.{with_sets, filled_module, AreThere, filled};
ghost use Rattle.session_marks.specs.Marking.{HasSets};
ghost use Rattle.session_marks.specs.Meaning.{session_file};

use crate::marking::modules_of;
use brk_table::Tables;
use cov_base::{PlaceNo, SessNo};
use marks_file::{MarkedModule, MarkedPlace, Marks};
use session_book::{FactSets, Job};

/// Puts the set of each place there, of which the first has this number.
fn fill_places<R: FactSets>(places: &mut [MarkedPlace], sets: &R, s: SessNo, first: u32)
    requires some { 0 < s.0 }
    requires session { s.0 < R.sessions sets.now + 1 }
    requires exist { first + length places.old ≤ R.places sets.now }
    requires fits { first + length places.old ≤ 65536 }
    ensures { places.new ≡ with_sets (R.set_of sets.now s.0) first places.old }
{
    for i in 0..places.len() {
        places[i].set = sets.set(s, PlaceNo(first + i as u32));
    }
}

/// Puts the sets of a module's places there.
fn fill_module<R: FactSets>(marked: &mut MarkedModule, sets: &R, s: SessNo, first: u32)
    requires some { 0 < s.0 }
    requires session { s.0 < R.sessions sets.now + 1 }
    requires exist { first + length marked.old.places ≤ R.places sets.now }
    requires fits { first + length marked.old.places ≤ 65536 }
    ensures { marked.new ≡ filled_module (R.set_of sets.now s.0) first marked.old }
{
    fill_places(&mut marked.places, sets, s, first);
}

/// Puts the sets of these modules' places there.
fn fill_modules<R: FactSets>(
    marked: &mut [MarkedModule],
    tables: &Tables,
    sets: &R,
    s: SessNo,
    modules: &[u32],
)
    requires has { HasSets (R.sessions sets.now) (R.places sets.now) tables.now s.0 }
    requires most { length tables.now.places ≤ 65536 }
    requires there { AreThere tables.now marked.old modules.now }
    ensures { marked.new ≡ filled tables.now (R.set_of sets.now s.0) marked.old modules.now }
{
    for i in 0..marked.len().min(modules.len()) {
        let (first, _) = tables.range(modules[i]);
        fill_module(&mut marked[i], sets, s, first);
    }
}

/// Puts the sets where the marks of session s of the job stand, which were made with empty sets. Each set
/// has facts of its place's kind alone. Takes no memory; time is linear in the places of the session's modules.
pub fn fill_marks<R: FactSets>(marks: &mut Marks, job: &Job, tables: &Tables, sets: &R, s: SessNo)
    requires from { 0 < s.0 }
    requires to { s.0 ≤ length job.now.sessions }
    requires tables { AreTables job.now.images tables.now.tables }
    requires sets { HasSetsOf job.now tables.now (R.sessions sets.now) (R.places sets.now) (R.set_of sets.now) s.0 }
    requires empty { marks.old ≡ session_file job.now tables.now (λ n. no_facts) s.0 }
    ensures { marks.new ≡ session_file job.now tables.now (R.set_of sets.now s.0) s.0 }
{
    // For what it says of the tables: their places are all places, one table after the other.
    let _ = tables.range(0);
    fill_modules(&mut marks.modules, tables, sets, s, modules_of(job, s));
}
