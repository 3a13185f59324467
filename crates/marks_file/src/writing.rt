//! Writes marks files.
ghost use Rattle.std.specs.Prelude.{◌≡◌, ◌<◌, ◌^◌, ◌++◌, length, All};
ghost use Rattle.std.specs.List.{flat_map};
ghost use Rattle.byteorder.specs.Endian.{big_bytes};
ghost use Rattle.cov_outside.specs.Puts.{Puts};
ghost use Rattle.cov_outside.specs.Writes.{Writes};
ghost use Rattle.marks_file.specs.Marks.{HasRow, written_file};
ghost use Rattle.marks_file.specs.Meaning.{place_bytes, module_bytes, magic, name_field, file_bytes};
ghost use Rattle.marks_file.specs.declared.version.Version.{Version};

use crate::marks::{MarkedModule, MarkedPlace, Marks};
use crate::rows::{module_row, place_bytes};
use byteorder::{BigEndian, ByteOrder};
use cov_base::Name;
use cov_outside::{Failed, Sink, WriteBuffer};

/// The places of a module.
fn put_places<K: Sink>(
    buffer: &mut WriteBuffer,
    sink: &mut K,
    places: &[MarkedPlace],
) -> Result<(), Failed>
    ensures { Puts K.written K.faults sink.old sink.new buffer.old buffer.new result
        (flat_map place_bytes places.now) }
{
    for i in 0..places.len() {
        buffer.put(sink, &place_bytes(&places[i]))?;
    }
    Ok(())
}

/// A module and its places.
fn put_module<K: Sink>(
    buffer: &mut WriteBuffer,
    sink: &mut K,
    marked: &MarkedModule,
) -> Result<(), Failed>
    requires { HasRow marked.now }
    ensures { Puts K.written K.faults sink.old sink.new buffer.old buffer.new result (module_bytes marked.now) }
{
    buffer.put(sink, &module_row(marked))?;
    put_places(buffer, sink, &marked.places)
}

/// The modules.
fn put_modules<K: Sink>(
    buffer: &mut WriteBuffer,
    sink: &mut K,
    modules: &[MarkedModule],
) -> Result<(), Failed>
    requires { All HasRow modules.now }
    ensures { Puts K.written K.faults sink.old sink.new buffer.old buffer.new result
        (flat_map module_bytes modules.now) }
{
    for i in 0..modules.len() {
        put_module(buffer, sink, &modules[i])?;
    }
    Ok(())
}

/// The name filled with blanks; eight blanks for none.
fn name_field(name: Option<Name>) -> [u8; 8]
    ensures { result ≡ name_field name }
{
    match name {
        Some(name) => name.filled(),
        None => *b"        ",
    }
}

/// What stands before the modules: the magic, the name, the runs, and the number of modules.
fn head(name: Option<Name>, runs: u32, count: u16) -> [u8; 22]
    ensures { result ≡ (magic Version.Second ++ (name_field name ++ big_bytes 4 runs)) ++ big_bytes 2 count }
{
    let mut bytes = *b"S370COV2        \0\0\0\0\0\0";
    BigEndian::write_u32(&mut bytes[16..], runs);
    BigEndian::write_u16(&mut bytes[20..], count);
    bytes[8..16].copy_from_slice(&name_field(name));
    bytes
}

/// The whole file.
fn put_file<K: Sink>(
    buffer: &mut WriteBuffer,
    sink: &mut K,
    name: Option<Name>,
    runs: u32,
    modules: &[MarkedModule],
) -> Result<(), Failed>
    requires rows { All HasRow modules.now }
    requires count { length modules.now < 2 ^ 16 }
    ensures { Puts K.written K.faults sink.old sink.new buffer.old buffer.new result
        (written_file name runs modules.now) }
{
    buffer.put(sink, &head(name, runs, modules.len() as u16))?;
    put_modules(buffer, sink, modules)
}

/// Writes the marks file of these marks, which is of version 2, by way of a buffer of 4,096 bytes. Failed only where
/// the sink's count of faults rose; the sink has then taken a first part of the file. Takes no memory.
pub fn write<K: Sink>(sink: &mut K, m: &Marks) -> Result<(), Failed>
    ensures { Writes K.written K.faults sink.old sink.new result (file_bytes Version.Second m.now) }
{
    let mut buffer = WriteBuffer::new();
    put_file(&mut buffer, sink, m.name, m.runs, &m.modules)?;
    buffer.flush(sink)
}
