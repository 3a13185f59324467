//! The places of the monitored modules as a text.
ghost use Rattle.std.specs.Prelude.{◌≡◌, ◌+◌, ◌<◌, ◌≤◌, ◌++◌, ◌∷◌, [], length};
ghost use Rattle.arrayvec.specs.ArrayVec.{array_vec_len};
ghost use Rattle.report_text.specs.Conditions.{AreTablesOf};
ghost use Rattle.report_text.specs.Meaning.{kind_letter, place_line, module_line, place_lines, is_monitored, table_part, table_parts, table_text};
ghost use Rattle.report_text.specs.Writes.{Prints, PrintsText};

use crate::sessions::{location, module_name};
use crate::whole::words_line;
use crate::words::add_name;
use crate::writing::put;
use annotator::text::{add_hex, add_number, add_text};
use arrayvec::ArrayVec;
use brk_table::Tables;
use cov_base::{Kind, Name, PlaceNo};
use cov_outside::{Failed, Sink};
use module_area::Place;
use session_book::Job;

/// Adds a kind's letter.
fn add_kind(line: &mut ArrayVec<u8, 160>, kind: Kind)
    requires { array_vec_len line.old ≤ 120 }
    ensures items { line.new.items ≡ line.old.items ++ kind_letter kind }
    ensures len { array_vec_len line.new ≡ array_vec_len line.old + 1 }
{
    match kind {
        Kind::Straight => add_text(line, b"S"),
        Kind::Conditional => add_text(line, b"C"),
    }
}

/// A place by its location.
#[tactic(auto, unfolding(crate::specs::Meaning::place_line))]
fn place_line(location: u32, place: &Place) -> ArrayVec<u8, 160>
    requires { location < 16777216 }
    ensures { result.items ≡ place_line location place.now ++ 10 ∷ [] }
{
    let mut line = ArrayVec::new();
    add_text(&mut line, b"PLACE ");
    add_hex(&mut line, location, 6);
    add_text(&mut line, b" ");
    add_number(&mut line, u64::from(place.len));
    add_text(&mut line, b" ");
    add_kind(&mut line, place.kind);
    add_text(&mut line, b" ");
    add_hex(&mut line, u32::from(place.original), 4);
    line.push(b'\n');
    line
}

/// A module's name and the number of its places.
#[tactic(auto, unfolding(crate::specs::Meaning::module_line))]
pub(crate) fn module_line(name: &Name, count: u32) -> ArrayVec<u8, 160>
    ensures { result.items ≡ module_line name.now count ++ 10 ∷ [] }
{
    let mut line = ArrayVec::new();
    add_text(&mut line, b"MODULE ");
    add_name(&mut line, name);
    add_text(&mut line, b" PLACES ");
    add_number(&mut line, u64::from(count));
    line.push(b'\n');
    line
}

/// Whether the module of that number has a listing.
pub fn is_monitored(job: &Job, m: u32) -> bool
    requires { m < length job.now.images }
    ensures { result ≡ is_monitored job.now m }
{
    job.listings[m as usize].is_some()
}

/// A monitored module's name and places.
fn places_text<K: Sink>(sink: &mut K, job: &Job, tables: &Tables, m: u32) -> Result<(), Failed>
    requires module { m < length job.now.images }
    requires tables { AreTablesOf job.now tables.now }
    ensures { Prints K.Sink sink.old sink.new result (place_lines job.now tables.now m) }
{
    let (first, past) = tables.range(m);
    put(sink, module_line(module_name(job, m), past - first))?;
    for n in first..past {
        let place = tables.place(PlaceNo(n));
        put(sink, place_line(location(job, place), place))?;
    }
    Ok(())
}

/// A module's part, where it is monitored.
fn module_text<K: Sink>(sink: &mut K, job: &Job, tables: &Tables, m: u32) -> Result<(), Failed>
    requires module { m < length job.now.images }
    requires tables { AreTablesOf job.now tables.now }
    ensures { Prints K.Sink sink.old sink.new result (table_part job.now tables.now m) }
{
    if is_monitored(job, m) {
        places_text(sink, job, tables, m)
    } else {
        Ok(())
    }
}

/// The modules' parts.
fn modules_text<K: Sink>(sink: &mut K, job: &Job, tables: &Tables) -> Result<(), Failed>
    requires { AreTablesOf job.now tables.now }
    ensures { Prints K.Sink sink.old sink.new result (table_parts job.now tables.now) }
{
    for m in 0..job.module_count() {
        module_text(sink, job, tables, m)?;
    }
    Ok(())
}

/// The places of each module that has a listing, line by line. Failed only where the sink's count of faults rose; the
/// sink has then taken a first part of the text. Takes no memory.
pub fn table<K: Sink>(sink: &mut K, job: &Job, tables: &Tables) -> Result<(), Failed>
    requires tables { AreTablesOf job.now tables.now }
    ensures { PrintsText K.Sink sink.old sink.new result (table_text job.now tables.now) }
{
    put(sink, words_line(b"COVERAGE TABLE"))?;
    modules_text(sink, job, tables)?;
    put(sink, words_line(b"END"))
}
