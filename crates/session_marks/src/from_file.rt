//! The sets of a session that a marks file has.
ghost use Rattle.std.specs.Prelude.{◌≡◌, ◌⊎◌, ℕ, ◌+◌, ◌<◌, ◌≤◌, length, replicate, IfOk, IfErr};
ghost use Rattle.cov_base.specs.Lists.{Differ};
ghost use Rattle.cov_base.specs.Meaning.{no_facts};
ghost use Rattle.brk_table.specs.Together.{AreTables};
ghost use Rattle.session_book.specs.Meaning.{session_of};
ghost use Rattle.phase_plan.specs.Sets.{HasSetsOf};
ghost use Rattle.session_marks.specs.Meaning.{session_marks};
ghost use Rattle.session_marks.specs.FromFile.{set_at, sets_of_one, HasSetsAt, HaveSets, HaveCounts, AreEmptyElsewhere, AreOfSession, IsSetsFault, IsDecided};

use crate::marking::marks_of;
use crate::no_sets::NoSets;
use brk_table::Tables;
use cov_base::{Bits, NoMemory, PlaceNo, SessNo};
use marks_file::{MarkedModule, MarkedPlace, Marks, OtherTable, combine};
use session_book::{FactSets, Job};
use std::alloc::Global;
use std::marker::Model;

/// Why a marks file is none of a session's.
#[derive(Drop)]
pub enum SetsFault {
    /// The first row in which the session's table, on the left, and the file's differ.
    Other(OtherTable),
    NoMemory,
}

/// A session's sets: the file's at the places of its modules, and empty ones elsewhere.
#[derive(Drop)]
pub struct FileSets {
    session: SessNo,
    sets: Vec<Bits>,
}

impl Model for FileSets {
    ghost use Rattle.session_marks.specs.FromFile.{FileSetsView};

    ghost Value = { FileSetsView };

    ghost view = { λ f. record { session = f.session.0; sets = f.sets.items } };
}

impl FactSets for FileSets {
    ghost use Rattle.std.specs.Prelude.{length};
    ghost use Rattle.session_marks.specs.FromFile.{sets_of_one};

    ghost sessions = { λ f. f.session };

    ghost places = { λ f. length f.sets };

    ghost set_of = { λ f s n. sets_of_one f s n };

    fn set(&self, _s: SessNo, p: PlaceNo) -> Bits {
        self.sets[p.0 as usize]
    }
}

/// Puts the places' sets there, from this number on.
fn put(sets: &mut [Bits], first: usize, places: &[MarkedPlace])
    requires { first + length places.now ≤ length sets.old }
    ensures there { HasSetsAt (set_at sets.new) first places.now }
    ensures others { (n : ℕ) → (n < first) ⊎ (first + length places.now ≤ n) → set_at sets.new n ≡ set_at sets.old n }
{
    for k in 0..places.len() {
        sets[first + k] = places[k].set;
    }
}

/// So many empty sets.
fn empty_sets(alloc: Global, count: usize) -> Result<Vec<Bits>, NoMemory>
    ensures { IfOk result (λ v. v.items ≡ replicate count no_facts) }
{
    let sets = vec![in alloc; Bits::empty(); count]?;
    Ok(sets)
}

/// The sets of a file's modules, which are these and have as many places, each at its place's number; the other
/// places' sets are empty.
fn sets_of(
    alloc: Global,
    tables: &Tables,
    modules: &[u32],
    file: &[MarkedModule],
) -> Result<Vec<Bits>, NoMemory>
    requires differ { Differ modules.now }
    requires modules { length file.now ≡ length modules.now }
    requires counts { HaveCounts tables.now.tables modules.now file.now }
    ensures size { IfOk result (λ v. length v.items ≡ length tables.now.places) }
    ensures sets { IfOk result (λ v. HaveSets tables.now.tables (set_at v.items) modules.now file.now) }
    ensures elsewhere { IfOk result (λ v. AreEmptyElsewhere tables.now.tables (set_at v.items) modules.now) }
{
    let mut sets = empty_sets(alloc, tables.len() as usize)?;
    for i in 0..modules.len() {
        let (first, _) = tables.range(modules[i]);
        let marked = &file[i];
        put(&mut sets, first as usize, &marked.places);
    }
    Ok(sets)
}

/// The sets that the file has for the session of these modules.
fn session_sets(
    alloc: Global,
    job: &Job,
    tables: &Tables,
    s: SessNo,
    modules: &[u32],
    file: &Marks,
) -> Result<FileSets, SetsFault>
    requires from { 0 < s.0 }
    requires to { s.0 ≤ length job.now.sessions }
    requires tables { AreTables job.now.images tables.now.tables }
    requires modules { modules.now ≡ (session_of job.now s.0).modules }
    requires differ { Differ modules.now }
    ensures same { IfOk result (λ f. file.now.modules ≡ session_marks job.now tables.now (set_at f.sets) s.0) }
    ensures sets { IfOk result (λ f. HasSetsOf job.now tables.now f.session (length f.sets) (sets_of_one f) s.0) }
    ensures elsewhere { IfOk result (λ f. AreOfSession job.now tables.now s.0 f.sets) }
    ensures fault { IfErr result (λ e. IsSetsFault job.now tables.now s.0 file.now.modules e) }
{
    let none = NoSets {
        sessions: s.0,
        places: tables.len(),
    };
    let mut own = match marks_of(alloc, job, tables, &none, s) {
        Ok(own) => own,
        Err(NoMemory) => return Err(SetsFault::NoMemory),
    };
    if let Err(other) = combine(&mut own, file) {
        return Err(SetsFault::Other(other));
    }
    // The union of the file and a table without facts is the file, whose rules are known once it was read.
    let _ = file.modules.len();
    match sets_of(alloc, tables, modules, &own.modules) {
        Ok(sets) => Ok(FileSets { session: s, sets }),
        Err(NoMemory) => Err(SetsFault::NoMemory),
    }
}

/// The sets that the file has for session s of the job, whose tables these are; its name and runs may be any. Other comes
/// exactly where the file's table isn't the session's. Time and memory are linear in the places of the tables.
pub fn file_sets(
    alloc: Global,
    job: &Job,
    tables: &Tables,
    s: SessNo,
    file: &Marks,
) -> Result<FileSets, SetsFault>
    requires from { 0 < s.0 }
    requires to { s.0 ≤ length job.now.sessions }
    requires tables { AreTables job.now.images tables.now.tables }
    ensures same { IfOk result (λ f. file.now.modules ≡ session_marks job.now tables.now (set_at f.sets) s.0) }
    ensures sets { IfOk result (λ f. HasSetsOf job.now tables.now f.session (length f.sets) (sets_of_one f) s.0) }
    ensures elsewhere { IfOk result (λ f. AreOfSession job.now tables.now s.0 f.sets) }
    ensures decided { IsDecided job.now tables.now s.0 file.now.modules }
    ensures fault { IfErr result (λ e. IsSetsFault job.now tables.now s.0 file.now.modules e) }
{
    let card = job.session(s);
    session_sets(alloc, job, tables, s, &card.modules, file)
}
