//! The places of a listing's instructions, in order of address.
ghost use Rattle.std.specs.Prelude.{◌≡◌, ◌+◌, ◌<◌, ◌≤◌, length, count_by, IfOk, IfErr, OnOk, IfSome, IsNone};
ghost use Rattle.std.specs.List.{AllPass};
ghost use Rattle.s370_decode.specs.declared.code.Code.{Code as Instruction};
ghost use Rattle.listing_reader.specs.Listing.{is_sound};
ghost use Rattle.listing_reader.specs.declared.lines.Line.TheVariants as says;
ghost use Rattle.brk_table.specs.Meaning.{place_from, is_code, IsTable};
ghost use Rattle.brk_table.specs.Cover.{is_inside, IsCover, IsTabled, OnlyAt};

use crate::faults::BuildFault;
use crate::line_places::LinePlaces;
use crate::tables::Table;
use cov_base::{Addr, INPUT_LIMIT};
use listing_reader::{Line, Listing};
use module_area::Place;
use s370_decode::{Code, kind};
use std::alloc::Global;

fn place_from(module: u32, base: Addr, loc: u32, code: &Code) -> Place
    requires { base + loc < 16777216 }
    ensures { result ≡ place_from «module» base loc code.now }
{
    let original = code.first_half();
    Place {
        module,
        at: base.plus(loc),
        len: code.len,
        original,
        kind: kind(original),
    }
}

/// The line's instruction, where it begins there.
fn begins(line: Line, at: u32) -> Option<Code>
    ensures code { IfSome result (λ c. line ≡ says.Code at c) }
    ensures none { IsNone result → (c : Instruction) → line ≡ says.Code at c → ⊥ }
{
    match line {
        Line::Code { loc, bytes } => { if loc == at { Some(bytes) } else { None } }
        Line::Text => None,
    }
}

/// The table of lines without a fault: one pass over the bytes finds the places in order.
pub fn place_lines(
    alloc: Global,
    module: u32,
    base: Addr,
    lines: &Listing,
    cover: &[Option<u32>],
) -> Result<Table, BuildFault>
    requires cover { IsCover lines.now cover.now }
    requires inside { AllPass (is_inside (length cover.now)) lines.now }
    requires sound { AllPass is_sound lines.now }
    requires count { length lines.now ≤ INPUT_LIMIT }
    requires size { base + length cover.now ≤ 16777216 }
    ensures table { IfOk result (λ t. IsTable «module» base lines.now t) }
    ensures places { IfOk result (λ t. length t.places ≡ count_by is_code lines.now) }
    ensures fault { IfErr result (λ e. e ≡ BuildFault.NoMemory) }
{
    let mut places = Vec::new(alloc);
    let mut entries = LinePlaces::none(alloc, lines.len())?;
    for at in 0..cover.len() {
        if let Some(i) = cover[at] {
            place_line(
                module,
                base,
                lines,
                i as usize,
                at as u32,
                &mut places,
                &mut entries,
            )?;
        }
    }
    Ok(Table {
        module,
        places,
        lines: entries,
    })
}

/// Adds the place of line i where its instruction begins at the location.
fn place_line(
    module: u32,
    base: Addr,
    lines: &Listing,
    i: usize,
    at: u32,
    places: &mut Vec<Place>,
    entries: &mut LinePlaces,
) -> Result<(), BuildFault>
    requires line { i < length lines.now }
    requires only { OnlyAt lines.now at i }
    requires place { base + at < 16777216 }
    requires tabled { IsTabled «module» base lines.now at places.old.items entries.old }
    ensures tabled { OnOk result (IsTabled «module» base lines.now (at + 1) places.new.items entries.new) }
    ensures fault { IfErr result (λ e. e ≡ BuildFault.NoMemory) }
{
    if let Some(code) = begins(lines.line(i), at) {
        entries.set(i, places.len() as u32);
        places.push(place_from(module, base, at, &code))?;
    }
    Ok(())
}
