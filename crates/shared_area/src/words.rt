//! Cells, sets of facts and tasks' numbers in words.
ghost use Rattle.std.specs.Prelude.{◌≡◌, ◌+◌, ◌*◌, ◌/◌, ◌%◌, ◌^◌, ◌<◌, ◌≤◌, true, nat_eq, length};
ghost use Rattle.cov_base.specs.FactKind.{is_of_kind};
ghost use Rattle.cov_base.specs.declared.facts.Kind.{Kind as Kinds};
ghost use Rattle.cov_base.specs.declared.limits.TheConstants.{SESSION_LIMIT};
ghost use Rattle.module_area.specs.Rule.{IsPlan, has_task};
ghost use Rattle.shared_area.specs.Rule.{is_only};
ghost use Rattle.shared_area.specs.Words.{AreFirsts, has_bit, facts_of, bit_of, word_of, closed_word_of, session_words, set_word, base_of, word_count, position, task_word};

use cov_base::{Bits, Fact, Kind, PlaceNo, SESSION_LIMIT, SessNo, TaskNo};
use module_area::Plan;

/// The word of a cell under the tag of a session's window.
pub(crate) fn window_word(session: u32, half: u16) -> u64
    requires { 0 < session }
    ensures { result ≡ word_of session half }
{
    (2 * session as u64 - 1) * 65536 + half as u64
}

/// The word of a cell under the tag of a session that is over.
pub(crate) fn closed_word(session: u32, half: u16) -> u64
    ensures { result ≡ closed_word_of session half }
{
    2 * session as u64 * 65536 + half as u64
}

/// The number of a fact's bit at a place, in the word of its session and its 32 places.
fn bit_number(place: PlaceNo, fact: Fact) -> u32
    ensures value { result ≡ bit_of place.0 fact }
    ensures few { result < 64 }
{
    let first = 2 * (place.0 % 32);
    match fact {
        Fact::Ran | Fact::Went => first,
        Fact::Stayed => first + 1,
    }
}

/// The word of that bit alone.
pub(crate) fn bit(place: PlaceNo, fact: Fact) -> u64
    ensures { result ≡ 2 ^ bit_of place.0 fact }
{
    1 << bit_number(place, fact)
}

/// The word from the place's first bit on.
fn own_bits(place: PlaceNo, word: u64) -> u64
    ensures first { nat_eq (result % 2) 1 ≡ has_bit word (2 * (place.0 % 32)) }
    ensures second { nat_eq (result / 2 % 2) 1 ≡ has_bit word (2 * (place.0 % 32) + 1) }
{
    word >> (2 * (place.0 % 32))
}

/// Whether the set at the place has the fact and no other, in the word of its session and its 32 places.
pub(crate) fn is_only(place: PlaceNo, fact: Fact, word: u64) -> bool
    ensures { (k : Kinds) → is_of_kind k fact ≡ true → result ≡ is_only fact (facts_of k place.0 word) }
{
    let own = own_bits(place, word) % 4;
    match fact {
        Fact::Ran | Fact::Went => own == 1,
        Fact::Stayed => own == 2,
    }
}

/// The set of facts at a place of the kind, in the word of its session and its 32 places.
pub(crate) fn facts(kind: Kind, place: PlaceNo, word: u64) -> Bits
    ensures { result ≡ facts_of kind place.0 word }
{
    let own = own_bits(place, word);
    let mut set = Bits::empty();
    if own % 2 == 1 {
        set = set.with(kind.fact(true));
    }
    if own / 2 % 2 == 1 {
        set = set.with(Fact::Stayed);
    }
    set
}

/// The kind of the places that have the fact.
pub(crate) fn kind_of(fact: Fact) -> Kind
    ensures { (k : Kinds) → is_of_kind k fact ≡ true → result ≡ k }
{
    match fact {
        Fact::Ran => Kind::Straight,
        _ => Kind::Conditional,
    }
}

/// How many words the sets of one session take.
fn session_words(plan: &Plan) -> usize
    ensures value { result ≡ session_words (length plan.now.places) }
    ensures few { result ≤ 2048 }
{
    (plan.places_len() as usize + 31) / 32
}

/// Of each session the number of the first word that has its sets.
pub(crate) fn firsts(plan: &Plan) -> [usize; SESSION_LIMIT]
    ensures value { AreFirsts (length plan.now.places) result }
    ensures sessions { plan.now.sessions ≤ SESSION_LIMIT }
{
    let words = session_words(plan);
    let mut firsts = [0; SESSION_LIMIT];
    let mut first = plan.places_len() as usize;
    for i in 0..SESSION_LIMIT {
        firsts[i] = first;
        first += words;
    }
    firsts
}

/// The number of the word that has the set of a session at a place.
pub(crate) fn word_at(plan: &Plan, s: SessNo, place: PlaceNo) -> usize
    requires place { place.0 < length plan.now.places }
    requires session { 0 < s.0 }
    requires in_plan { s.0 ≤ plan.now.sessions }
    ensures { result ≡ set_word (length plan.now.places) s.0 place.0 }
{
    plan.places_len() as usize + ((s.0 as usize - 1) * session_words(plan) + place.0 as usize / 32)
}

/// How many words the cells and sets take.
fn base(plan: &Plan) -> usize
    ensures value { result ≡ base_of plan.now }
    ensures few { result ≤ 98304 }
    ensures cells { length plan.now.places ≤ result }
    ensures plan { IsPlan plan.now }
{
    plan.places_len() as usize + plan.sessions as usize * session_words(plan)
}

/// How many words the plan takes.
pub(crate) fn count(plan: &Plan) -> usize
    ensures value { result ≡ word_count plan.now }
    ensures cells { length plan.now.places ≤ result }
    ensures plan { IsPlan plan.now }
{
    let count = base(plan) + plan.tasks.len();
    if count == 0 { 1 } else { count }
}

/// The index of the task among these.
fn index_of(tasks: &[TaskNo], task: TaskNo) -> usize
    requires { has_task tasks.now task.0 ≡ true }
    ensures value { result ≡ position tasks.now task.0 }
    ensures within { result < length tasks.now }
{
    let mut i = 0;
    while tasks[i].0 != task.0 {
        i += 1;
    }
    i
}

/// The number of the word of a task of the plan.
pub(crate) fn task_word(plan: &Plan, task: TaskNo) -> usize
    requires { has_task plan.now.tasks task.0 ≡ true }
    ensures { result ≡ task_word plan.now task.0 }
{
    base(plan) + index_of(&plan.tasks, task)
}
