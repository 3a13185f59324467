//! Makes the breakpoint table of a module's listing.
ghost use Rattle.std.specs.Prelude.{◌≡◌, ◌+◌, ◌%◌, ◌≤◌, None, [], length, count_by, IfOk, IfErr, IsOk};
ghost use Rattle.std.specs.List.{AllPass};
ghost use Rattle.listing_reader.specs.Listing.{is_sound, IsTold};
ghost use Rattle.brk_table.specs.Meaning.{first_fault, is_code, IsTable};
ghost use Rattle.brk_table.specs.Build.{HasOwnPlaces};

use crate::fault::first_fault;
use crate::faults::BuildFault;
use crate::places::place_lines;
use crate::tables::Table;
use cov_base::INPUT_LIMIT;
use listing_reader::Listing;
use module_area::Image;
use std::alloc::Global;

/// The table of the lines that `read_listing` gave, at most 16,777,216, over their module, whose base is even and
/// whose bytes lie below 2^24, with room for so many places: a place for each instruction line, in order of address.
/// Each fault comes exactly at the first line that has one; at one line the first of: an odd location; an instruction
/// past the module; bytes shared with an earlier line; no room; the breakpoint as first halfword; bytes other than the
/// module's, of which the whole instruction is compared. Time and memory are linear in lines and bytes.
pub fn build(
    alloc: Global,
    module: u32,
    lines: &Listing,
    image: &Image,
    room: u32,
) -> Result<Table, BuildFault>
    requires count { length lines.now ≤ INPUT_LIMIT }
    requires sound { AllPass is_sound lines.now }
    requires even { image.now.base % 2 ≡ 0 }
    requires below { image.now.base + length image.now.bytes ≤ 16777216 }
    ensures table { IfOk result (λ t. IsTable «module» image.now.base lines.now t) }
    ensures matches { IsOk result → first_fault image.now.bytes room [] lines.now ≡ None }
    ensures places { IfOk result (λ t. length t.places ≡ count_by is_code lines.now) }
    ensures room { IfOk result (λ t. length t.places ≤ room) }
    ensures own { IfOk result (λ t. HasOwnPlaces «module» image.now t) }
    ensures fault { IfErr result (IsTold BuildFault.NoMemory (first_fault image.now.bytes room [] lines.now)) }
{
    let bytes: &[u8] = &image.bytes;
    let mut cover: Vec<Option<u32>> = vec![in alloc; None; bytes.len()]?;
    if let Some(fault) = first_fault(bytes, lines, room, &mut cover) {
        return Err(fault);
    }
    place_lines(alloc, module, image.base, lines, &cover)
}
