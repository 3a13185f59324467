//! The rows of a marks file's table, and its records.
ghost use Rattle.std.specs.Prelude.{◌≡◌, ◌^◌, length};
ghost use Rattle.marks_file.specs.Marks.{HasRow};
ghost use Rattle.marks_file.specs.Meaning.{module_row, place_row, place_bytes};

use crate::marks::{MarkedModule, MarkedPlace};
use crate::numbers::{kind_number, number_of_set};
use byteorder::{BigEndian, ByteOrder};

/// The place's location, length, kind and original.
pub fn place_row(place: &MarkedPlace) -> [u8; 8]
    ensures { result ≡ place_row place.now }
{
    let mut row = [0u8; 8];
    BigEndian::write_u32(&mut row, place.location);
    row[4] = place.len;
    row[5] = kind_number(place.kind);
    BigEndian::write_u16(&mut row[6..], place.original);
    row
}

/// The place's row and its set.
pub(crate) fn place_bytes(place: &MarkedPlace) -> [u8; 9]
    ensures { result ≡ place_bytes place.now }
{
    let mut bytes = [0u8; 9];
    bytes[..8].copy_from_slice(&place_row(place));
    bytes[8] = number_of_set(place.set);
    bytes
}

/// The module's name, base, size and number of places, which is below 2^32.
pub fn module_row(marked: &MarkedModule) -> [u8; 20]
    requires { HasRow marked.now }
    ensures { result ≡ module_row marked.now }
{
    let mut row = [0u8; 20];
    BigEndian::write_u32(&mut row[8..], marked.base);
    BigEndian::write_u32(&mut row[12..], marked.size);
    BigEndian::write_u32(&mut row[16..], marked.places.len() as u32);
    row[..8].copy_from_slice(&marked.name.filled());
    row
}
