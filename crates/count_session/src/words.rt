//! How a cell lies in its word, and where the counts lie.
ghost use Rattle.std.specs.Prelude.{◌≡◌, ◌*◌, ◌/◌, ◌^◌, ◌<◌, ◌≤◌, length};
ghost use Rattle.module_area.specs.Rule.{IsPlan};
ghost use Rattle.count_session.specs.Words.{planted_word, count_index, count_word, word_count};

use cov_base::{BREAKPOINT, Fact, PlaceNo};
use module_area::Plan;

/// The word of a session's breakpoint.
pub(crate) fn planted_word(session: u32) -> u64
    requires { 0 < session }
    ensures { result ≡ planted_word session }
{
    (2 * session as u64 - 1) * 65536 + BREAKPOINT as u64
}

fn count_index(fact: Fact) -> usize
    ensures value { result ≡ count_index fact }
    ensures few { result < 2 }
{
    match fact {
        Fact::Ran | Fact::Went => 0,
        Fact::Stayed => 1,
    }
}

/// The number of the word that counts the fact at a place.
pub(crate) fn count_word(plan: &Plan, place: PlaceNo, fact: Fact) -> usize
    requires { place.0 < length plan.now.places }
    ensures { result ≡ count_word (length plan.now.places) place.0 fact }
{
    plan.places_len() as usize + (2 * place.0 as usize + count_index(fact))
}

/// How many words the plan takes.
pub(crate) fn word_count(plan: &Plan) -> usize
    ensures value { result ≡ word_count plan.now }
    ensures cells { length plan.now.places ≤ result }
    ensures plan { IsPlan plan.now }
{
    let places = plan.places_len() as usize;
    if places == 0 { 1 } else { 3 * places }
}
