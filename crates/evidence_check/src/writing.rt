//! Writes evidence.
ghost use Rattle.std.specs.Prelude.{◌≡◌, ◌≤◌, length};
ghost use Rattle.cov_outside.specs.Writes.{Writes};
ghost use Rattle.evidence_check.specs.Meaning.{evidence_magic, entry_bytes, fact_bytes, place_entries};
ghost use Rattle.evidence_check.specs.Found.{found_of};
ghost use Rattle.evidence_check.specs.Written.{PutsTo, entries_from, entries_of, evidence_of};

use crate::firsts::{First, Found};
use brk_table::Tables;
use byteorder::{BigEndian, ByteOrder};
use cov_base::Fact;
use cov_outside::{Failed, Sink, WriteBuffer};

/// What evidence begins with.
pub(crate) fn magic() -> [u8; 8]
    ensures { result ≡ evidence_magic }
{
    *b"S370EVD1"
}

/// The entry of a first visit.
pub(crate) fn entry_bytes(first: First) -> [u8; 7]
    ensures { result ≡ entry_bytes first }
{
    let mut bytes = [0u8; 7];
    BigEndian::write_u16(&mut bytes, first.task);
    BigEndian::write_u32(&mut bytes[2..], first.before);
    bytes[6] = if first.subject { 1 } else { 0 };
    bytes
}

fn put_fact<K: Sink>(
    buffer: &mut WriteBuffer,
    sink: &mut K,
    first: Option<First>,
) -> Result<(), Failed>
    ensures { PutsTo K.Sink sink.old sink.new buffer.old buffer.new result (fact_bytes first) }
{
    match first {
        Some(first) => buffer.put(sink, &entry_bytes(first)),
        None => buffer.put(sink, &[]),
    }
}

fn put_place<K: Sink>(buffer: &mut WriteBuffer, sink: &mut K, found: &Found) -> Result<(), Failed>
    ensures { PutsTo K.Sink sink.old sink.new buffer.old buffer.new result (place_entries (found_of found.now)) }
{
    put_fact(buffer, sink, found.get(Fact::Ran))?;
    put_fact(buffer, sink, found.get(Fact::Went))?;
    put_fact(buffer, sink, found.get(Fact::Stayed))
}

/// The entries of the places from `first` on, below `past`.
fn put_places<K: Sink>(
    buffer: &mut WriteBuffer,
    sink: &mut K,
    found: &[Found],
    first: u32,
    past: u32,
) -> Result<(), Failed>
    requires range { first ≤ past }
    requires exist { past ≤ length found.now }
    ensures { PutsTo K.Sink sink.old sink.new buffer.old buffer.new result (entries_from found.now first past) }
{
    for n in first..past {
        put_place(buffer, sink, &found[n as usize])?;
    }
    Ok(())
}

/// The entries of these modules' places.
fn put_modules<K: Sink>(
    buffer: &mut WriteBuffer,
    sink: &mut K,
    tables: &Tables,
    found: &[Found],
    modules: &[u32],
) -> Result<(), Failed>
    requires size { length found.now ≡ length tables.now.places }
    ensures { PutsTo K.Sink sink.old sink.new buffer.old buffer.new result
        (entries_of tables.now found.now modules.now) }
{
    for i in 0..modules.len() {
        let (first, past) = tables.range(modules[i]);
        put_places(buffer, sink, found, first, past)?;
    }
    Ok(())
}

fn put_evidence<K: Sink>(
    buffer: &mut WriteBuffer,
    sink: &mut K,
    tables: &Tables,
    found: &[Found],
    modules: &[u32],
) -> Result<(), Failed>
    requires size { length found.now ≡ length tables.now.places }
    ensures { PutsTo K.Sink sink.old sink.new buffer.old buffer.new result
        (evidence_of tables.now found.now modules.now) }
{
    buffer.put(sink, &magic())?;
    put_modules(buffer, sink, tables, found, modules)
}

/// Writes the evidence of these modules' places, by way of a buffer. Takes no memory.
pub(crate) fn write_evidence<K: Sink>(
    sink: &mut K,
    tables: &Tables,
    found: &[Found],
    modules: &[u32],
) -> Result<(), Failed>
    requires size { length found.now ≡ length tables.now.places }
    ensures { Writes K.written K.faults sink.old sink.new result (evidence_of tables.now found.now modules.now) }
{
    let mut buffer = WriteBuffer::new();
    put_evidence(&mut buffer, sink, tables, found, modules)?;
    buffer.flush(sink)
}
