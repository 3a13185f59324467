//! The claims of a marks file and evidence, against the first visits that were found.
ghost use Rattle.std.specs.Prelude.{◌≡◌, ◌+◌, ◌<◌, ◌≤◌, ◌^◌, length, take, drop, None, Some, IfOk, IfErr, OnOk};
ghost use Rattle.std.specs.Str.{bytes_eq};
ghost use Rattle.marks_file.specs.Meaning.{place_total};
ghost use Rattle.session_marks.specs.Filled.{AreThere};
ghost use Rattle.evidence_check.specs.Meaning.{agrees, past, past_place, past_places, place_claims, first_refuted, entry_bytes};
ghost use Rattle.evidence_check.specs.Found.{found_of, refuted_place, refuted_module};

use crate::firsts::{First, Found};
use crate::writing::entry_bytes;
use brk_table::Tables;
use cov_base::{Bits, Fact};
use marks_file::{MarkedModule, MarkedPlace};

/// Whether the entry at the offset is this visit's.
fn is_entry(bytes: &[u8], at: usize, first: First) -> bool
    requires { at ≤ length bytes.now }
    ensures { result ≡ bytes_eq (take 7 (drop at bytes.now)) (entry_bytes first) }
{
    if bytes.len() - at < 7 {
        return false;
    }
    &bytes[at..at + 7] == entry_bytes(first).as_slice()
}

fn agrees(bytes: &[u8], at: usize, has: bool, first: Option<First>) -> bool
    requires { at ≤ length bytes.now }
    ensures { result ≡ agrees has first (drop at bytes.now) }
{
    match first {
        Some(first) => if has {
            is_entry(bytes, at, first)
        } else {
            false
        },
        None => !has,
    }
}

/// Past the entry of a fact, where the set has it.
fn past(bytes: &[u8], at: usize, has: bool) -> usize
    requires { at ≤ length bytes.now }
    ensures inside { result ≤ length bytes.now }
    ensures rest { drop result bytes.now ≡ past has (drop at bytes.now) }
{
    if !has {
        return at;
    }
    if bytes.len() - at < 7 {
        return bytes.len();
    }
    at + 7
}

/// Past the entries of a place.
fn past_place(bytes: &[u8], at: usize, set: Bits) -> usize
    requires { at ≤ length bytes.now }
    ensures inside { result ≤ length bytes.now }
    ensures rest { drop result bytes.now ≡ past_place set (drop at bytes.now) }
{
    let went = past(bytes, at, set.has(Fact::Ran));
    let stayed = past(bytes, went, set.has(Fact::Went));
    past(bytes, stayed, set.has(Fact::Stayed))
}

/// The first claim of a place that is refuted.
fn check_place(bytes: &[u8], at: usize, row: u32, set: Bits, found: &Found) -> Option<(u32, Fact)>
    requires { at ≤ length bytes.now }
    ensures { result ≡ first_refuted (place_claims row set (found_of found.now) (drop at bytes.now)) }
{
    if !agrees(bytes, at, set.has(Fact::Ran), found.get(Fact::Ran)) {
        return Some((row, Fact::Ran));
    }
    let went = past(bytes, at, set.has(Fact::Ran));
    if !agrees(bytes, went, set.has(Fact::Went), found.get(Fact::Went)) {
        return Some((row, Fact::Went));
    }
    let stayed = past(bytes, went, set.has(Fact::Went));
    if !agrees(
        bytes,
        stayed,
        set.has(Fact::Stayed),
        found.get(Fact::Stayed),
    ) {
        return Some((row, Fact::Stayed));
    }
    None
}

/// Past the entries of these places, of which the first has this row and this number, or the first claim that is
/// refuted.
fn check_places(
    bytes: &[u8],
    from: usize,
    row: u32,
    places: &[MarkedPlace],
    found: &[Found],
    first: u32,
) -> Result<usize, (u32, Fact)>
    requires inside { from ≤ length bytes.now }
    requires exist { first + length places.now ≤ length found.now }
    requires fits { row + length places.now < 2 ^ 32 }
    ensures inside { IfOk result (λ at. at ≤ length bytes.now) }
    ensures rest { IfOk result (λ at. drop at bytes.now ≡ past_places places.now (drop from bytes.now)) }
    ensures none { OnOk result (refuted_place found.now row first places.now (drop from bytes.now) ≡ None) }
    ensures some { IfErr result (λ e. refuted_place found.now row first places.now (drop from bytes.now) ≡ Some e) }
{
    let mut at = from;
    for i in 0..places.len() {
        let set = places[i].set;
        let here = &found[first as usize + i];
        match check_place(bytes, at, row + i as u32, set, here) {
            Some(refuted) => return Err(refuted),
            None => at = past_place(bytes, at, set),
        }
    }
    Ok(at)
}

/// The first claim of these modules' places that is refuted.
pub(crate) fn check_modules(
    bytes: &[u8],
    tables: &Tables,
    modules: &[MarkedModule],
    numbers: &[u32],
    found: &[Found],
) -> Option<(u32, Fact)>
    requires begun { 8 ≤ length bytes.now }
    requires there { AreThere tables.now modules.now numbers.now }
    requires size { length found.now ≡ length tables.now.places }
    requires rows { length modules.now + place_total modules.now < 2 ^ 31 }
    ensures { result ≡ refuted_module tables.now found.now modules.now numbers.now (drop 8 bytes.now) }
{
    let mut at = 8;
    let mut row = 0;
    for i in 0..modules.len().min(numbers.len()) {
        let (first, _) = tables.range(numbers[i]);
        let marked = &modules[i];
        match check_places(bytes, at, row + 1, &marked.places, found, first) {
            Ok(past) => at = past,
            Err(refuted) => return Some(refuted),
        }
        row += 1 + marked.places.len() as u32;
    }
    None
}
