//! The first visits that show the facts of each place.
ghost use Rattle.std.specs.Prelude.{◌≡◌, ◌≢◌, ℕ, ◌<◌, length};
ghost use Rattle.cov_base.specs.Meaning.{fact_of};
ghost use Rattle.cov_base.specs.declared.facts.Fact.{Fact as AnyFact};
ghost use Rattle.module_area.specs.Meaning.{place_of};
ghost use Rattle.evidence_check.specs.Found.{found_of, found_at, none_found, NotesOne, NotesAt};

use brk_table::Tables;
use cov_base::{Fact, PlaceNo};
use module_area::Control;
use s370_branch::outcome;
use s370_decode::Code;
use s370_state::Cpu;
use task_run::{Observer, Sight};

/// A visit: the index of its task in the job, the instructions that the task had done before, and whether it is of the
/// subject of an EX.
#[derive(Clone, Copy)]
pub struct First {
    pub task: u16,
    pub before: u32,
    pub subject: bool,
}

/// For each fact of a place the first visit that showed it; none where none has yet.
#[derive(Clone, Copy)]
pub(crate) struct Found {
    pub(crate) ran: Option<First>,
    pub(crate) went: Option<First>,
    pub(crate) stayed: Option<First>,
}

impl Found {
    pub(crate) fn none() -> Found
        ensures { result ≡ none_found }
    {
        Found {
            ran: None,
            went: None,
            stayed: None,
        }
    }

    pub(crate) fn get(&self, f: Fact) -> Option<First>
        ensures { result ≡ found_of self.now f }
    {
        match f {
            Fact::Ran => self.ran,
            Fact::Went => self.went,
            Fact::Stayed => self.stayed,
        }
    }

    /// Notes a visit that shows the fact; an earlier one stays.
    fn note(&mut self, f: Fact, first: First)
        ensures { NotesOne f first (found_of self.old) (found_of self.new) }
    {
        match f {
            Fact::Ran => self.ran = self.ran.or(Some(first)),
            Fact::Went => self.went = self.went.or(Some(first)),
            Fact::Stayed => self.stayed = self.stayed.or(Some(first)),
        }
    }
}

/// Notes a visit that executes the instruction at the place.
fn note_at(tables: &Tables, found: &mut [Found], place: PlaceNo, went: bool, first: First)
    requires place { place.0 < length tables.now.places }
    requires size { length found.old ≡ length tables.now.places }
    ensures size { length found.new ≡ length found.old }
    ensures here { NotesAt (fact_of (place_of tables.now.places place.0).kind went) first place.0 found.old found.new }
    ensures others { (n : ℕ) (f : AnyFact) → n ≢ place.0 → found_at found.new n f ≡ found_at found.old n f }
{
    let fact = tables.place(place).kind.fact(went);
    let mut here = found[place.0 as usize];
    here.note(fact, first);
    found[place.0 as usize] = here;
}

/// Notes the first visits of one task: its pass has for each place those that were found so far, also of other tasks.
#[derive(Drop)]
pub(crate) struct FirstVisits {
    // the task's index in the job
    pub(crate) task: u16,
}

impl Observer for FirstVisits {
    type Pass = Vec<Found>;

    ghost use Rattle.std.specs.Prelude.{◌≡◌, length, refl};
    ghost use Rattle.evidence_check.specs.Found.{Notes};
    ghost use Rattle.evidence_check.specs.Noting.{notes_none, notes_more};

    ghost IsReady = { λ visits tables found done shown. length found.items ≡ length tables.places };

    ghost IsTied = { λ visits found control. Unit {0} };

    ghost Makes = { λ visits tables found vs new. Notes tables.places visits.task vs found.items new.items };

    ghost Answers = { λ visits found control call new after. (new ≡ found) × (after ≡ control) };

    fn begun(&self, found: &mut Vec<Found>, tables: &Tables, cpu: &Cpu, code: &Code, sight: Sight) {
        if let Some(place) = sight.place {
            let first = First {
                task: self.task,
                before: sight.done,
                subject: sight.subject,
            };
            note_at(tables, found, place, outcome(cpu, code), first);
        }
    }

    fn refused(&self, found: &mut Vec<Found>, tables: &Tables, sight: Sight) {}

    fn called(
        &self,
        found: &mut Vec<Found>,
        tables: &Tables,
        control: &mut Control,
        done: u32,
        half: u16,
    ) {}

    ghost later = { λ visits tables found done shown ready. ready };

    ghost next = { λ visits tables found done ready. ready };

    ghost none = { λ visits tables found. notes_none tables.places visits.task found.items };

    ghost no_call = { λ visits found control. (refl, refl) };

    ghost both = { λ visits tables old mid new vs ws. notes_more tables.places visits.task vs ws old.items mid.items new.items };
}
