//! The marks that a session's sets come to.
ghost use Rattle.std.specs.Prelude.{◌≡◌, ℕ, ◌<◌, ◌≤◌, length, All, IfOk};
ghost use Rattle.brk_table.specs.Together.{AreTables};
ghost use Rattle.module_area.specs.Meaning.{place_of};
ghost use Rattle.session_book.specs.JobView.{IsJob, IsSession};
ghost use Rattle.session_book.specs.Meaning.{module_of, session_of};
ghost use Rattle.phase_plan.specs.Sets.{HasSetsOf, AreWithin};
ghost use Rattle.session_marks.specs.Meaning.{marked_place, marked_module, marked_modules, session_file};
ghost use Rattle.session_marks.specs.Marking.{HasSets, marked_between};
ghost use Rattle.session_marks.specs.Fields.{HasGoodFields, AreHalfwords};

use brk_table::Tables;
use cov_base::{Name, NoMemory, PlaceNo, SessNo};
use marks_file::{MarkedModule, MarkedPlace, Marks};
use module_area::{Image, Place};
use session_book::{FactSets, Job};
use std::alloc::Global;

/// The place's original, of which a caller then knows that it is a halfword.
fn original_of(place: &Place) -> u16
    ensures { result ≡ place.now.original }
{
    place.original
}

/// A place of a module of this base, and its set.
fn marked_place<R: FactSets>(tables: &Tables, sets: &R, s: SessNo, base: u32, n: u32) -> MarkedPlace
    requires has { HasSets (R.sessions sets.now) (R.places sets.now) tables.now s.0 }
    requires exists { n < length tables.now.places }
    requires from { base ≤ (place_of tables.now.places n).at }
    ensures value { result ≡ marked_place base tables.now.places (R.set_of sets.now s.0) n }
    ensures halfword { result.original < 65536 }
{
    let place = tables.place(PlaceNo(n));
    MarkedPlace {
        location: place.at.get() - base,
        len: place.len,
        kind: place.kind,
        original: original_of(place),
        set: sets.set(s, PlaceNo(n)),
    }
}

/// The places from `first` on, below `past`, of a module of this base.
fn marked_places<R: FactSets>(
    alloc: Global,
    tables: &Tables,
    sets: &R,
    s: SessNo,
    base: u32,
    first: u32,
    past: u32,
) -> Result<Vec<MarkedPlace>, NoMemory>
    requires has { HasSets (R.sessions sets.now) (R.places sets.now) tables.now s.0 }
    requires range { first ≤ past }
    requires exist { past ≤ length tables.now.places }
    requires from { (n : ℕ) → first ≤ n → n < past → base ≤ (place_of tables.now.places n).at }
    ensures value { IfOk result (λ v. v.items ≡ marked_between base tables.now (R.set_of sets.now s.0) first past) }
    ensures halfwords { IfOk result (λ v. AreHalfwords v.items) }
{
    let mut places = Vec::with_capacity(alloc, (past - first) as usize)?;
    for n in first..past {
        places.push(marked_place(tables, sets, s, base, n))?;
    }
    Ok(places)
}

/// The module of that number.
fn image_of(job: &Job, m: u32) -> &Image
    requires { m < length job.now.images }
    ensures value { result.now ≡ module_of job.now m }
    ensures job { IsJob job.now }
{
    &job.images.0[m as usize]
}

/// The module's name, of which a caller then knows that it is one filled with blanks.
fn name_of(image: &Image) -> Name
    ensures { result ≡ image.now.name }
{
    image.name
}

/// A module, and its places with their sets.
fn marked_module<R: FactSets>(
    alloc: Global,
    job: &Job,
    tables: &Tables,
    sets: &R,
    s: SessNo,
    m: u32,
) -> Result<MarkedModule, NoMemory>
    requires module { m < length job.now.images }
    requires tables { AreTables job.now.images tables.now.tables }
    requires has { HasSets (R.sessions sets.now) (R.places sets.now) tables.now s.0 }
    requires within { AreWithin tables.now (R.set_of sets.now s.0) m }
    ensures value { IfOk result (λ v. v ≡ marked_module job.now tables.now (R.set_of sets.now s.0) m) }
    ensures fields { IfOk result (λ v. HasGoodFields v) }
{
    let image = image_of(job, m);
    let base = image.base.get();
    let (first, past) = tables.range(m);
    let places = marked_places(alloc, tables, sets, s, base, first, past)?;
    Ok(MarkedModule {
        name: name_of(image),
        base,
        size: image.bytes.len() as u32,
        places,
    })
}

/// The modules, and their places with their sets.
fn marked_modules<R: FactSets>(
    alloc: Global,
    job: &Job,
    tables: &Tables,
    sets: &R,
    s: SessNo,
    modules: &[u32],
) -> Result<Vec<MarkedModule>, NoMemory>
    requires modules { All (λ m. m < length job.now.images) modules.now }
    requires tables { AreTables job.now.images tables.now.tables }
    requires has { HasSets (R.sessions sets.now) (R.places sets.now) tables.now s.0 }
    requires within { All (AreWithin tables.now (R.set_of sets.now s.0)) modules.now }
    ensures value { IfOk result (λ v. v.items ≡ marked_modules job.now tables.now (R.set_of sets.now s.0) modules.now) }
    ensures fields { IfOk result (λ v. All HasGoodFields v.items) }
{
    let mut marked = Vec::with_capacity(alloc, modules.len())?;
    for m in modules {
        marked.push(marked_module(alloc, job, tables, sets, s, *m)?)?;
    }
    Ok(marked)
}

/// The modules of the session; the clause `job` is what `Job::session` doesn't say.
pub fn modules_of(job: &Job, s: SessNo) -> &[u32]
    requires from { 0 < s.0 }
    requires to { s.0 ≤ length job.now.sessions }
    ensures value { result.now ≡ (session_of job.now s.0).modules }
    ensures is { IsSession (length job.now.images) (length job.now.phases) (session_of job.now s.0) }
    ensures job { IsJob job.now }
{
    &job.sessions[s.0 as usize - 1].modules
}

/// The session's name, of which a caller then knows that it is one filled with blanks.
fn session_name(job: &Job, s: SessNo) -> Name
    requires from { 0 < s.0 }
    requires to { s.0 ≤ length job.now.sessions }
    ensures { result ≡ (session_of job.now s.0).name }
{
    job.session(s).name
}

/// The marks of session s of the job: its name, one run, its modules in the order of its card, a module without a
/// listing too, and each with the places of its table and the session's set at each. The tables are those of the job's
/// listings, and each set has facts of its place's kind alone. Time and memory are linear in the places of the session's
/// modules.
pub fn marks_of<R: FactSets>(
    alloc: Global,
    job: &Job,
    tables: &Tables,
    sets: &R,
    s: SessNo,
) -> Result<Marks, NoMemory>
    requires from { 0 < s.0 }
    requires to { s.0 ≤ length job.now.sessions }
    requires tables { AreTables job.now.images tables.now.tables }
    requires sets { HasSetsOf job.now tables.now (R.sessions sets.now) (R.places sets.now) (R.set_of sets.now) s.0 }
    ensures { IfOk result (λ m. m ≡ session_file job.now tables.now (R.set_of sets.now s.0) s.0) }
{
    let modules = marked_modules(alloc, job, tables, sets, s, modules_of(job, s))?;
    Ok(Marks {
        name: Some(session_name(job, s)),
        runs: 1,
        modules,
    })
}
