//! The sets that the words of an area show in the end.
ghost use Rattle.std.specs.Prelude.{◌≡◌, ◌+◌, ◌*◌, ◌<◌, ◌≤◌, length, IfOk, OnOk};
ghost use Rattle.std.specs.Slots.{slots_items, slots_len, IsFull};
ghost use Rattle.shared_area.specs.Words.{word_count};
ghost use Rattle.shared_area.specs.Sets.{AreSets};

use crate::rule::NoSlot;
use crate::words::{facts, word_at};
use atomic_table::Closed;
use cov_base::{Bits, PlaceNo, SessNo};
use module_area::Plan;
use std::alloc::{AllocError, Global};

/// Adds the sets of a session, place by place.
fn push_sets(
    sets: &mut Vec<Bits>,
    closed: &Closed<NoSlot, Global>,
    plan: &Plan,
    s: SessNo,
) -> Result<(), AllocError>
    requires full { IsFull closed.now.words }
    requires wide { word_count plan.now ≤ slots_len closed.now.words }
    requires session { 0 < s.0 }
    requires in_plan { s.0 ≤ plan.now.sessions }
    requires before { length sets.old.items + length plan.now.places ≡ s.0 * length plan.now.places }
    requires sets { AreSets plan.now (slots_items closed.now.words) sets.old.items }
    ensures size { OnOk result (length sets.new.items ≡ s.0 * length plan.now.places) }
    ensures sets { OnOk result (AreSets plan.now (slots_items closed.now.words) sets.new.items) }
{
    for p in 0..plan.places_len() {
        let place = PlaceNo(p);
        let word = closed.word(word_at(plan, s, place));
        sets.push(facts(plan.kind(place), place, word))?;
    }
    Ok(())
}

/// The sets that the words show in the end.
pub(crate) fn last_sets(
    alloc: Global,
    closed: &Closed<NoSlot, Global>,
    plan: &Plan,
) -> Result<Vec<Bits>, AllocError>
    requires full { IsFull closed.now.words }
    requires wide { word_count plan.now ≤ slots_len closed.now.words }
    ensures size { IfOk result (λ v. length v.items ≡ plan.now.sessions * length plan.now.places) }
    ensures sets { IfOk result (λ v. AreSets plan.now (slots_items closed.now.words) v.items) }
{
    let size = plan.sessions as usize * plan.places_len() as usize;
    let mut sets = Vec::with_capacity(alloc, size)?;
    for s in 0..plan.sessions {
        push_sets(&mut sets, closed, plan, SessNo(s + 1))?;
    }
    Ok(sets)
}
