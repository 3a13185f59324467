//! The places of a module, and of all monitored modules.
ghost use Rattle.std.specs.Prelude.{◌≡◌, ◌↔◌, ℕ, ◌<◌, ◌≤◌, true, false, length, get_or, IfSome, IfOk, IsTrue, IsNone, IsSome, All, AllPairs};
ghost use Rattle.module_area.specs.Meaning.{place_of, is_place};
ghost use Rattle.std.specs.Prelude.{◌+◌, nat_eq, option_map};
ghost use Rattle.brk_table.specs.Kept.{AreCodes};
ghost use Rattle.s370_decode.specs.declared.code.Code.{Code as Instruction};
ghost use Rattle.brk_table.specs.Meaning.{all_places, first_place, place_count, entry_of_line, place_at_line};
ghost use Rattle.brk_table.specs.Places.{ArePlaces, IsIn, HasItsPlaces, HasRisingPlaces};
ghost use Rattle.cov_base.specs.declared.numbers.PlaceNo.{PlaceNo as Number};

use crate::codes::codes_of;
use crate::decoding::decode_all;
use crate::kept::Kept;
use crate::line_places::LinePlaces;
use crate::map::{entry_at, map_of};
use cov_base::{Addr, NoMemory, PLACE_LIMIT, PlaceNo};
use module_area::{Images, Place};
use s370_decode::Code;
use std::alloc::Global;
use std::marker::Model;

/// A module, by its index among the job's, its places in order of address, and for each line of its listing the index of its
/// place among these, none for a text line.
#[derive(Drop)]
pub struct Table {
    pub module: u32,
    pub places: Vec<Place>,
    pub lines: LinePlaces,
}

impl Model for Table {
    ghost use Rattle.brk_table.specs.Meaning.{TableView};

    ghost Value = { TableView };

    ghost view = { λ t. record { «module» = t.«module»; places = t.places.items; lines = t.lines } };
}

/// The tables of the monitored modules, whose places are numbered module by module.
#[derive(Drop)]
pub struct Tables {
    tables: Vec<Table>,
    places: Vec<Place>,
    // of each place its whole instruction, where the modules were given
    codes: Vec<Code>,
    // the same, decoded, each with its key, and behind them two that are found at no address
    kept: Vec<Kept>,
    // for each page of 4 KB the number of its 2,048 entries, one for each halfword: its place's number and 1, or 0
    pages: Vec<u32>,
    entries: Vec<u32>,
}

impl Model for Tables {
    ghost use Rattle.std.specs.Prelude.{◌≡◌};
    ghost use Rattle.std.specs.Prelude.{All};
    ghost use Rattle.brk_table.specs.Meaning.{TablesView, all_places};
    ghost use Rattle.brk_table.specs.Places.{ArePlaces, HasItsPlaces, HasRisingPlaces};
    ghost use Rattle.std.specs.Prelude.{length};
    ghost use Rattle.brk_table.specs.Map.{IsMap};
    ghost use Rattle.brk_table.specs.Decoded.{AreDecoded};

    ghost Value = { TablesView };

    ghost view = { λ t. record { tables = t.tables.items; places = t.places.items; codes = t.codes.items } };

    ghost invariant = { λ t. (t.places.items ≡ all_places t.tables.items) × ArePlaces t.places.items × All HasItsPlaces t.tables.items × All HasRisingPlaces t.tables.items × IsMap t.pages.items t.entries.items t.places.items (length t.places.items) × AreDecoded t.codes.items t.kept.items };
}

impl Table {
    /// Its places, in order of address.
    fn places(&self) -> &[Place]
        ensures { result.now ≡ self.now.places }
    {
        &self.places
    }

    /// The number of its places.
    fn size(&self) -> usize
        ensures { result ≡ length self.now.places }
    {
        self.places.len()
    }

    /// Whether it is the module's.
    fn is_of(&self, module: u32) -> bool
        ensures { result ≡ nat_eq self.now.«module» «module» }
    {
        self.module == module
    }

    /// The place of a listing line, counted from 1, where the table's first place has that number.
    fn place_after(&self, first: usize, line: u32) -> Option<PlaceNo>
        requires places { HasItsPlaces self.now }
        requires fits { first + length self.now.places ≤ PLACE_LIMIT }
        ensures { option_map (λ (p : Number). p.0) result ≡ option_map (λ i. first + i) (entry_of_line self.now.lines line) }
    {
        if line == 0 || line as usize > self.lines.len() {
            return None;
        }
        match self.lines.get(line as usize - 1) {
            Some(i) => Some(PlaceNo(first as u32 + i)),
            None => None,
        }
    }
}

/// The places of tables, table by table.
fn places_of(alloc: Global, tables: &[Table]) -> Result<Vec<Place>, NoMemory>
    ensures { IfOk result (λ v. v.items ≡ all_places tables.now) }
{
    let mut places = Vec::new(alloc);
    for table in tables {
        places.extend_from_slice(table.places())?;
    }
    Ok(places)
}

/// The tables with their places and the instructions of these.
fn with_codes(
    alloc: Global,
    tables: Vec<Table>,
    places: Vec<Place>,
    codes: Vec<Code>,
) -> Result<Tables, NoMemory>
    requires all { places.items ≡ all_places tables.items }
    requires places { ArePlaces places.items }
    requires lines { All HasItsPlaces tables.items }
    requires rising { All HasRisingPlaces tables.items }
    ensures tables { IfOk result (λ t. t.tables ≡ tables.items) }
    ensures places { IfOk result (λ t. t.places ≡ places.items) }
    ensures codes { IfOk result (λ t. t.codes ≡ codes.items) }
{
    let (pages, entries) = map_of(alloc, &places)?;
    let kept = decode_all(alloc, &codes)?;
    Ok(Tables {
        tables,
        places,
        codes,
        kept,
        pages,
        entries,
    })
}

impl Tables {
    ghost use Rattle.brk_table.specs.Decoded.{AreAtPlaces, AreFrom, IsThere};

    /// Numbers the places of tables of these modules as `build` gives them, table by table, with the instruction of each place
    /// beside it: at most 65,536 together, which share no byte.
    pub fn over(alloc: Global, tables: Vec<Table>, images: &Images) -> Result<Tables, NoMemory>
        requires places { ArePlaces (all_places tables.items) }
        requires inside { All (IsIn images.now) (all_places tables.items) }
        requires lines { All HasItsPlaces tables.items }
        requires rising { All HasRisingPlaces tables.items }
        ensures tables { IfOk result (λ t. t.tables ≡ tables.items) }
        ensures places { IfOk result (λ t. t.places ≡ all_places tables.items) }
        ensures codes { IfOk result (AreCodes images.now) }
    {
        let places = places_of(alloc, &tables)?;
        let codes = codes_of(alloc, images, &places)?;
        with_codes(alloc, tables, places, codes)
    }

    /// The place that begins at the address; none exactly where no place begins there.
    pub fn at(&self, a: Addr) -> Option<PlaceNo>
        ensures exists { IfSome result (λ n. n.0 < length self.now.places) }
        ensures begins { IfSome result (λ n. (place_of self.now.places n.0).at ≡ a) }
        ensures none { IsNone result ↔ (is_place self.now.places a ≡ false) }
    {
        let entry = entry_at(&self.pages, &self.entries, a);
        if entry == 0 {
            return None;
        }
        if a.get() % 2 == 1 {
            return None;
        }
        Some(PlaceNo(entry - 1))
    }

    /// Whether the place behind that of number `last` begins at the address, and a task doesn't return there, by the instructions
    /// from `last` on. Found by one load: it is mostly the next one that a task comes to.
    #[inline(always)]
    pub fn comes_next(&self, last: u32, kept: &[Kept], a: Addr) -> bool
        requires codes { AreAtPlaces self.now }
        requires last { last ≤ length self.now.places }
        requires kept { AreFrom self.now last kept.now }
        ensures there { IsTrue result → IsThere self.now (last + 1) a }
        ensures found { IsThere self.now (last + 1) a → IsTrue result }
        ensures places { ArePlaces self.now.places }
    {
        let _ = &self.kept;
        kept[1].key == a.get()
    }

    /// The instructions from place n on, where that is a place which begins at the address, and a task doesn't return there.
    #[inline(always)]
    pub fn kept_at(&self, n: u32, a: Addr) -> Option<&[Kept]>
        requires codes { AreAtPlaces self.now }
        requires n { n ≤ length self.now.places }
        ensures there { IsSome result → IsThere self.now n a }
        ensures found { IsThere self.now n a → IsSome result }
        ensures from { IfSome result (λ kept. AreFrom self.now n kept.now) }
        ensures places { ArePlaces self.now.places }
    {
        let _ = &self.kept;
        let kept = self.kept_from(n);
        if kept[0].key == a.get() {
            Some(kept)
        } else {
            None
        }
    }

    /// The instructions from place n on, which may be behind the last place, and behind them two that are found at no address.
    #[inline(always)]
    pub fn kept_from(&self, n: u32) -> &[Kept]
        requires { n ≤ length self.now.codes }
        ensures { AreFrom self.now n result.now }
    {
        &self.kept[n as usize..]
    }

    /// The place of an existing number.
    pub fn place(&self, n: PlaceNo) -> &Place
        requires { n.0 < length self.now.places }
        ensures value { result.now ≡ place_of self.now.places n.0 }
        ensures places { ArePlaces self.now.places }
    {
        &self.places[n.0 as usize]
    }

    /// The whole instruction of a place, as the tables keep it; those that `over` has made keep one for each place.
    pub fn code(&self, n: PlaceNo) -> &Code
        requires { n.0 < length self.now.codes }
        ensures value { (d : Instruction) → result.now ≡ get_or self.now.codes n.0 d }
        ensures places { ArePlaces self.now.places }
    {
        &self.codes[n.0 as usize]
    }

    /// The number of places.
    pub fn len(&self) -> u32
        ensures value { result ≡ length self.now.places }
        ensures places { ArePlaces self.now.places }
    {
        self.places.len() as u32
    }

    /// The number of the module's first place, and the number past its last one; both are equal where it has none.
    pub fn range(&self, module: u32) -> (u32, u32)
        ensures first { result.0 ≡ first_place self.now.tables «module» }
        ensures past { result.1 ≡ first_place self.now.tables «module» + place_count self.now.tables «module» }
        ensures exist { result.1 ≤ length self.now.places }
        ensures all { self.now.places ≡ all_places self.now.tables }
    {
        let mut first = 0;
        for i in 0..self.tables.len() {
            let table = &self.tables[i];
            let count = table.size();
            if table.is_of(module) {
                return (first as u32, (first + count) as u32);
            }
            first += count;
        }
        (first as u32, first as u32)
    }

    /// The place of a line of the module's listing, counted from 1; none exactly where the line is a text line, where
    /// there is no line of that number, as 0, or where the module has no table.
    pub fn line(&self, module: u32, line: u32) -> Option<PlaceNo>
        ensures value { option_map (λ (p : Number). p.0) result ≡ place_at_line self.now.tables «module» line }
        ensures from { IfSome result (λ p. first_place self.now.tables «module» ≤ p.0) }
        ensures to { IfSome result (λ p. p.0 < first_place self.now.tables «module» + place_count self.now.tables «module») }
    {
        let mut first = 0;
        for i in 0..self.tables.len() {
            let table = &self.tables[i];
            if table.is_of(module) {
                return table.place_after(first, line);
            }
            first += table.size();
        }
        None
    }
}
