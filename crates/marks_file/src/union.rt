//! The union of two files.
ghost use Rattle.std.specs.Prelude.{◌≡◌, ◌+◌, IsOk, OnOk, OnErr, IfErr};
ghost use Rattle.marks_file.specs.Meaning.{rows, unite_place, unite_places, unite_module, unite, held};
ghost use Rattle.marks_file.specs.Combine.{IsDifference};

use crate::difference::{OtherTable, first_difference};
use crate::marks::{MarkedModule, MarkedPlace, Marks};

fn unite_place(a: &mut MarkedPlace, b: &MarkedPlace)
    ensures { a.new ≡ unite_place a.old b.now }
{
    a.set = a.set.union(b.set);
}

fn unite_places(a: &mut [MarkedPlace], b: &[MarkedPlace])
    ensures { a.new ≡ unite_places a.old b.now }
{
    for i in 0..a.len().min(b.len()) {
        unite_place(&mut a[i], &b[i]);
    }
}

fn unite_module(a: &mut MarkedModule, b: &MarkedModule)
    ensures { a.new ≡ unite_module a.old b.now }
{
    unite_places(&mut a.places, &b.places);
}

fn unite(a: &mut [MarkedModule], b: &[MarkedModule])
    ensures { a.new ≡ unite a.old b.now }
{
    for i in 0..a.len().min(b.len()) {
        unite_module(&mut a[i], &b[i]);
    }
}

/// Adds to each set the facts of the other file's at the same place, and to the runs the other file's, up to
/// 4,294,967,295. The name stays. Where the tables differ, which is told at the first row that does, nothing changes. To
/// the sets the order of the two doesn't matter, and a file once more changes none of them; a file with itself is
/// combined. Takes no memory.
#[tactic(auto, using(crate::proofs::LawLemmas::file_itself))]
pub fn combine(a: &mut Marks, b: &Marks) -> Result<(), OtherTable>
    ensures same { OnOk result (rows a.old.modules ≡ rows b.now.modules) }
    ensures union { OnOk result (a.new.modules ≡ unite a.old.modules b.now.modules) }
    ensures first_name { OnOk result (a.new.name ≡ a.old.name) }
    ensures all_runs { OnOk result (a.new.runs ≡ held (a.old.runs + b.now.runs)) }
    ensures turned { OnOk result (a.new.modules ≡ unite b.now.modules a.old.modules) }
    ensures again { OnOk result (unite a.new.modules b.now.modules ≡ a.new.modules) }
    ensures itself { unite a.old.modules a.old.modules ≡ a.old.modules }
    ensures same_file { b.now.modules ≡ a.old.modules → a.new.modules ≡ a.old.modules }
    ensures same_file_ok { b.now.modules ≡ a.old.modules → IsOk result }
    ensures other { IfErr result (IsDifference 0 (rows a.old.modules) (rows b.now.modules)) }
    ensures kept { OnErr result (a.new ≡ a.old) }
{
    match first_difference(&a.modules, &b.modules) {
        Some(other) => Err(other),
        None => {
            unite(&mut a.modules, &b.modules);
            a.runs = a.runs.saturating_add(b.runs);
            Ok(())
        }
    }
}
