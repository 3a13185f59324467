//! How many facts a marks file has.
ghost use Rattle.std.specs.Prelude.{◌≡◌, ◌≤◌, length, if◌then◌else◌};
ghost use Rattle.marks_file.specs.Meaning.{place_total};
ghost use Rattle.module_area.specs.Meaning.{fact_count};
ghost use Rattle.evidence_check.specs.Meaning.{facts_of_places, facts_of_modules};

use cov_base::{Bits, Fact};
use marks_file::{MarkedModule, MarkedPlace};

fn one(has: bool) -> u32
    ensures value { result ≡ (if has then 1 else 0) }
    ensures most { result ≤ 1 }
{
    if has { 1 } else { 0 }
}

fn fact_count(set: Bits) -> u32
    ensures value { result ≡ fact_count set }
    ensures most { result ≤ 3 }
{
    one(set.has(Fact::Ran)) + one(set.has(Fact::Went)) + one(set.has(Fact::Stayed))
}

fn facts_of_places(places: &[MarkedPlace]) -> u32
    requires { length places.now ≤ 65536 }
    ensures { result ≡ facts_of_places places.now }
{
    let mut count = 0;
    for i in 0..places.len() {
        count += fact_count(places[i].set);
    }
    count
}

/// The number of facts in the sets of these modules' places.
pub(crate) fn facts_of_modules(modules: &[MarkedModule]) -> u32
    requires { place_total modules.now ≤ 65536 }
    ensures { result ≡ facts_of_modules modules.now }
{
    let mut count = 0;
    for i in 0..modules.len() {
        let marked = &modules[i];
        count += facts_of_places(&marked.places);
    }
    count
}
