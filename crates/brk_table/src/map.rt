//! The place at each address, found by two loads.
ghost use Rattle.std.specs.Prelude.{◌≡◌, ◌+◌, ◌*◌, ◌/◌, ◌%◌, ◌<◌, ◌≤◌, length, get_or, IfOk, OnOk};
ghost use Rattle.brk_table.specs.Places.{ArePlaces};
ghost use Rattle.brk_table.specs.Map.{slot_of, entry_at, ArePages, IsMap, AreKept, AreSame};

use cov_base::{Addr, NoMemory};
use module_area::Place;
use std::alloc::Global;

/// The entries of a page without places, one for each halfword.
const ENTRIES: [u32; 2048] = [0; 2048];

/// Where the address's halfword has its entry.
fn slot_of(pages: &[u32], entries: &[u32], a: Addr) -> usize
    requires { ArePages pages.now entries.now }
    ensures value { result ≡ slot_of pages.now a }
    ensures below { result < length entries.now }
{
    let a = a.get() as usize;
    pages[a / 4096] as usize * 2048 + a / 2 % 2048
}

/// The entry of the address's halfword.
#[tactic(auto, unfolding(crate::specs::Map::entry_at))]
pub fn entry_at(pages: &[u32], entries: &[u32], a: Addr) -> u32
    requires { ArePages pages.now entries.now }
    ensures { result ≡ entry_at pages.now entries.now a }
{
    entries[slot_of(pages, entries, a)]
}

/// Gives a page entries of its own, where it has none.
fn own_page(pages: &mut [u32], entries: &mut Vec<u32>, k: usize) -> Result<(), NoMemory>
    requires page { k < 4096 }
    requires pages { ArePages pages.old entries.old.items }
    requires room { length entries.old.items ≤ 268435456 }
    ensures pages { OnOk result (ArePages pages.new entries.new.items) }
    ensures room { OnOk result (length entries.new.items ≤ length entries.old.items + 2048) }
    ensures own { OnOk result (0 < get_or pages.new k 0) }
    ensures same { OnOk result (AreSame pages.old entries.old.items pages.new entries.new.items) }
{
    if pages[k] == 0 {
        let n = (entries.len() / 2048) as u32;
        entries.extend_from_slice(&ENTRIES)?;
        pages[k] = n;
    }
    Ok(())
}

/// Sets an entry of a page that has its own.
fn set_entry(pages: &[u32], entries: &mut [u32], a: Addr, value: u32)
    requires pages { ArePages pages.now entries.old }
    requires own { 0 < get_or pages.now (a / 4096) 0 }
    ensures pages { ArePages pages.now entries.new }
    ensures size { length entries.new ≡ length entries.old }
    ensures value { entry_at pages.now entries.new a ≡ value }
    ensures kept { AreKept pages.now entries.old pages.now entries.new a }
{
    let slot = slot_of(pages, entries, a);
    entries[slot] = value;
}

/// Enters a place.
fn enter(pages: &mut [u32], entries: &mut Vec<u32>, a: Addr, value: u32) -> Result<(), NoMemory>
    requires pages { ArePages pages.old entries.old.items }
    requires room { length entries.old.items ≤ 268435456 }
    ensures pages { OnOk result (ArePages pages.new entries.new.items) }
    ensures room { OnOk result (length entries.new.items ≤ length entries.old.items + 2048) }
    ensures value { OnOk result (entry_at pages.new entries.new.items a ≡ value) }
    ensures kept { OnOk result (AreKept pages.old entries.old.items pages.new entries.new.items a) }
{
    own_page(pages, entries, a.get() as usize / 4096)?;
    set_entry(pages, entries, a, value);
    Ok(())
}

/// Enters the places in a map without any.
fn enter_all(pages: &mut [u32], entries: &mut Vec<u32>, places: &[Place]) -> Result<(), NoMemory>
    requires fresh { IsMap pages.old entries.old.items places.now 0 }
    requires places { ArePlaces places.now }
    ensures { OnOk result (IsMap pages.new entries.new.items places.now (length places.now)) }
{
    for i in 0..places.len() {
        enter(pages, entries, places[i].at, i as u32 + 1)?;
    }
    Ok(())
}

/// The places' map: for each page of 4 KB the number of its 2,048 entries, and these.
pub fn map_of(alloc: Global, places: &[Place]) -> Result<(Vec<u32>, Vec<u32>), NoMemory>
    requires { ArePlaces places.now }
    ensures { IfOk result (λ m. IsMap m.0.items m.1.items places.now (length places.now)) }
{
    let mut pages = vec![in alloc; 0u32; 4096]?;
    let mut entries = vec![in alloc; 0u32; 2048]?;
    enter_all(&mut pages, &mut entries, places)?;
    Ok((pages, entries))
}
