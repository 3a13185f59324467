//! The rule of the words, and what a call picks of a step.
ghost use Rattle.std.specs.Prelude.{◌≡◌, ℕ, Bool};
ghost use Rattle.cov_base.specs.Meaning.{FactSet};
ghost use Rattle.cov_base.specs.declared.facts.Fact.{Fact};
ghost use Rattle.module_area.specs.Meaning.{PlanView, kind_at};

use atomic_table::{Join, Play, Split, TableRule};
use module_area::{Plan, View};
use std::marker::{Brand, PhantomData};
use std::snapshot::Snapshot;

/// What the slots would hold: there are none.
#[derive(Drop)]
pub struct NoSlot;

/// The rule that the words of an area and the notes of its passes keep.
pub struct AreaRule;

impl TableRule<NoSlot, View, Snapshot<Plan>> for AreaRule {
    ghost use Rattle.shared_area.specs.Rule.{IsArea};
    ghost use Rattle.module_area.specs.Rule.{blank};
    ghost use Rattle.module_area.specs.declared.parties.Role.TheVariants.{Root};

    ghost holds = { λ k. IsArea k.value };

    ghost first = { λ _. blank Root };
}

/// The set that a step is on: under which plan, of which session, at which place; the fact that it marks, and by which sets a
/// look does so.
pub(crate) trait Marking {
    ghost plan: { PlanView };

    ghost session: { ℕ };

    ghost place: { ℕ };

    ghost fact: { Fact };

    ghost is: { FactSet → Bool };
}

impl Marking for Brand {
    ghost use Rattle.std.specs.Prelude.{[], false};
    ghost use Rattle.cov_base.specs.declared.facts.Fact.TheVariants.{Ran};

    ghost plan = { record { places = []; windows = []; controlled = []; tasks = []; sessions = 0 } };

    ghost session = { 0 };

    ghost place = { 0 };

    ghost fact = { Ran };

    ghost is = { λ _. false };
}

/// The place whose cell a step fetches, and under which plan.
pub(crate) trait Fetching {
    ghost plan: { PlanView };

    ghost place: { ℕ };
}

impl Fetching for Brand {
    ghost use Rattle.std.specs.Prelude.{[]};

    ghost plan = { record { places = []; windows = []; controlled = []; tasks = []; sessions = 0 } };

    ghost place = { 0 };
}

/// A load of the word of a place, for its cell.
pub(crate) struct Fetch<K: Fetching>(PhantomData<K>);

impl<K: Fetching> Play<NoSlot, View> for Fetch<K> {
    ghost use Rattle.module_area.specs.Words.{cell_of};
    ghost use Rattle.shared_area.specs.Rule.{Fetched};

    ghost then = { λ _ me w me'. Fetched K.plan K.place me.0 (cell_of w) me'.0 × (me'.1 ≡ me.1) };
}

/// A load of the word that has the set, for the set itself.
pub(crate) struct Read<K: Marking>(PhantomData<K>);

impl<K: Marking> Play<NoSlot, View> for Read<K> {
    ghost use Rattle.shared_area.specs.Words.{facts_of};
    ghost use Rattle.shared_area.specs.Rule.{SetRead};

    ghost then = { λ _ me w me'. SetRead K.plan K.session K.place me.0 (facts_of (kind_at K.plan K.place) K.place w) me'.0 × (me'.1 ≡ me.1) };
}

/// A load of the word that has the set, for a mark.
pub(crate) struct Look<K: Marking>(PhantomData<K>);

impl<K: Marking> Play<NoSlot, View> for Look<K> {
    ghost use Rattle.shared_area.specs.Words.{facts_of};
    ghost use Rattle.shared_area.specs.Rule.{Looked};

    ghost then = { λ _ me w me'. Looked K.is K.plan K.session K.place K.fact me.0 (facts_of (kind_at K.plan K.place) K.place w) me'.0 × (me'.1 ≡ me.1) };
}

/// A fetch_or of the fact's bit.
pub(crate) struct Addition<K: Marking>(PhantomData<K>);

impl<K: Marking> Play<NoSlot, View> for Addition<K> {
    ghost use Rattle.shared_area.specs.Words.{facts_of};
    ghost use Rattle.shared_area.specs.Rule.{Marked};

    ghost then = { λ _ me w me'. Marked K.plan K.session K.place K.fact me.0 (facts_of (kind_at K.plan K.place) K.place w) me'.0 × (me'.1 ≡ me.1) };
}

// Each call picks what its step tells.
impl Play<NoSlot, View> for Brand {
    ghost then = { λ _ _ _ _. Unit {0} };
}

/// Under which plan passes are split and joined, and for which task.
pub(crate) trait Forking {
    ghost plan: { PlanView };

    ghost task: { ℕ };
}

impl Forking for Brand {
    ghost use Rattle.std.specs.Prelude.{[]};

    ghost plan = { record { places = []; windows = []; controlled = []; tasks = []; sessions = 0 } };

    ghost task = { 0 };
}

pub(crate) struct Fork<K: Forking>(PhantomData<K>);

impl<K: Forking> Split<View> for Fork<K> {
    ghost use Rattle.module_area.specs.Parties.{giving, newcomer};

    ghost left = { giving K.task };

    ghost right = { newcomer K.plan K.task };
}

impl<K: Forking> Join<View> for Fork<K> {
    ghost use Rattle.module_area.specs.Rule.{blank};
    ghost use Rattle.module_area.specs.Parties.{joining};
    ghost use Rattle.module_area.specs.declared.parties.Role.TheVariants.{Spent};

    ghost both = { joining K.plan };

    ghost spent = { blank Spent };
}
