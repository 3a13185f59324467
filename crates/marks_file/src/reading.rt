//! Reads marks files.
ghost use Rattle.std.specs.Prelude.{◌≡◌, ◌+◌, ◌≤◌, ◌<◌, ◌^◌, ◌&&◌, [], length, take, drop, nat_le, None, Some, IfOk, OnOk, IfErr, slice_index};
ghost use Rattle.std.specs.Io.{StartsWith};
ghost use Rattle.std.specs.List.{flat_map};
ghost use Rattle.byteorder.specs.Endian.{big_number};
ghost use Rattle.marks_file.specs.Meaning.{MarksView, is_location, is_length, is_original, is_set, kind_of_number, is_base, is_size, is_count, is_module_count, place_total, module_bytes, modules_bytes, file_bytes, HasFile, first_bad, marked_place_at, place_fields, places_at, places_fields, header_fields, module_at, module_fields, modules_fields, table_fields, place_count_at, file_fields};
ghost use Rattle.marks_file.specs.Reading.{modules_at, table_at, IsFault, IfHasFile, IfBeginsWith, marks_at};
ghost use Rattle.marks_file.specs.declared.version.Version.{Version};

use crate::fault::{BadField, MarksFault};
use crate::heading::read_heading;
use crate::marks::{MarkedModule, MarkedPlace, Marks};
use crate::modules::{NamedModules, new_name};
use crate::numbers::{kind_of_number, set_of_number};
use crate::rules::{
    is_base, is_count, is_length, is_location, is_module_count, is_original, is_set, is_size,
};
use byteorder::{BigEndian, ByteOrder};
use cov_base::{Kind, Name};
use std::alloc::Global;

/// The number in the 4 bytes from k on.
fn word_at(bytes: &[u8], k: usize) -> u32
    requires { k + 4 ≤ length bytes.now }
    ensures { result ≡ big_number 4 (drop k bytes.now) }
{
    BigEndian::read_u32(&bytes[k..])
}

/// The number in the 2 bytes from k on.
fn half_at(bytes: &[u8], k: usize) -> u16
    requires { k + 2 ≤ length bytes.now }
    ensures { result ≡ big_number 2 (drop k bytes.now) }
{
    BigEndian::read_u16(&bytes[k..])
}

/// The bytes from there on.
fn rest_of(input: &[u8], at: usize) -> &[u8]
    requires { at ≤ length input.now }
    ensures { result.now ≡ drop at input.now }
{
    &input[at..]
}

fn has_location(bytes: &[u8], size: u32, end: u32) -> bool
    ensures { result ≡ (nat_le 4 (length bytes.now) && is_location size end (big_number 4 bytes.now)) }
{
    bytes.len() >= 4 && is_location(size, end, BigEndian::read_u32(bytes))
}

fn has_length(bytes: &[u8], size: u32, at: u32) -> bool
    ensures { result ≡ (nat_le 5 (length bytes.now) && is_length size at (slice_index bytes.now 4)) }
{
    bytes.len() >= 5 && is_length(size, at, bytes[4])
}

fn has_kind(bytes: &[u8]) -> bool
    ensures { result ≡ (nat_le 6 (length bytes.now) && nat_le (slice_index bytes.now 5) 1) }
{
    bytes.len() >= 6 && bytes[5] <= 1
}

fn has_original(bytes: &[u8], len: u8, kind: Kind) -> bool
    ensures { result ≡ (nat_le 8 (length bytes.now) && is_original len kind (big_number 2 (drop 6 bytes.now))) }
{
    bytes.len() >= 8 && is_original(len, kind, half_at(bytes, 6))
}

fn has_set(bytes: &[u8], kind: Kind) -> bool
    ensures { result ≡ (nat_le 9 (length bytes.now) && is_set kind (slice_index bytes.now 8)) }
{
    bytes.len() >= 9 && is_set(kind, bytes[8])
}

/// The place that begins there, of a module of this size, behind one that ends at `end`.
#[tactic(auto, unfolding(crate::specs::Meaning::place_fields, crate::specs::Meaning::marked_place_at))]
fn read_place(bytes: &[u8], at: usize, size: u32, end: u32) -> Result<MarkedPlace, BadField>
    requires { at < 2 ^ 63 }
    ensures place { IfOk result (λ p. p ≡ marked_place_at bytes.now) }
    ensures good { OnOk result (first_bad (place_fields at size end bytes.now) ≡ None) }
    ensures bad { IfErr result (λ e. first_bad (place_fields at size end bytes.now) ≡ Some e.0) }
{
    if !has_location(bytes, size, end) {
        return Err(BadField(at));
    }
    let location = BigEndian::read_u32(bytes);
    if !has_length(bytes, size, location) {
        return Err(BadField(at + 4));
    }
    if !has_kind(bytes) {
        return Err(BadField(at + 5));
    }
    let kind = kind_of_number(bytes[5]);
    if !has_original(bytes, bytes[4], kind) {
        return Err(BadField(at + 6));
    }
    if !has_set(bytes, kind) {
        return Err(BadField(at + 8));
    }
    Ok(MarkedPlace {
        location,
        len: bytes[4],
        kind,
        original: half_at(bytes, 6),
        set: set_of_number(bytes[8]),
    })
}

/// So many places of a module of this size, from there on.
fn read_places(
    alloc: Global,
    input: &[u8],
    from: usize,
    size: u32,
    count: u32,
) -> Result<Vec<MarkedPlace>, MarksFault>
    requires { from ≤ length input.now }
    ensures places { IfOk result (λ v. v.items ≡ places_at count (drop from input.now)) }
    ensures good { OnOk result (first_bad (places_fields from size 0 count (drop from input.now)) ≡ None) }
    ensures bad { IfErr result (IsFault (places_fields from size 0 count (drop from input.now))) }
{
    let mut places = Vec::new(alloc);
    let mut at = from;
    let mut end = 0;
    for _i in 0..count {
        let place = read_place(rest_of(input, at), at, size, end)?;
        end = place.location + u32::from(place.len);
        at += 9;
        places.push(place)?;
    }
    Ok(places)
}

/// What a module says before its places.
#[derive(Clone, Copy)]
struct Header {
    name: Name,
    base: u32,
    size: u32,
    count: u32,
}

fn has_base(bytes: &[u8]) -> bool
    ensures { result ≡ (nat_le 12 (length bytes.now) && is_base (big_number 4 (drop 8 bytes.now))) }
{
    bytes.len() >= 12 && is_base(word_at(bytes, 8))
}

fn has_size(bytes: &[u8], earlier: &NamedModules, base: u32) -> bool
    ensures { result ≡ (nat_le 16 (length bytes.now) && is_size earlier.now base (big_number 4 (drop 12 bytes.now))) }
{
    bytes.len() >= 16 && is_size(&earlier.modules, base, word_at(bytes, 12))
}

fn has_count(bytes: &[u8], before: u32) -> bool
    requires { before ≤ 65536 }
    ensures { result ≡ (nat_le 20 (length bytes.now) && nat_le (before + place_count_at bytes.now) 65536) }
{
    bytes.len() >= 20 && is_count(before, word_at(bytes, 16))
}

/// What stands before the places of the module that begins there, behind these modules, which have so many places.
#[tactic(auto, unfolding(crate::specs::Meaning::header_fields, crate::specs::Meaning::is_count))]
fn read_header(
    bytes: &[u8],
    at: usize,
    earlier: &NamedModules,
    before: u32,
) -> Result<Header, BadField>
    requires offset { at < 2 ^ 63 }
    requires before { before ≡ place_total earlier.now }
    requires few { before ≤ 65536 }
    ensures name { IfOk result (λ h. h.name ≡ take 8 bytes.now) }
    ensures base { IfOk result (λ h. h.base ≡ big_number 4 (drop 8 bytes.now)) }
    ensures size { IfOk result (λ h. h.size ≡ big_number 4 (drop 12 bytes.now)) }
    ensures count { IfOk result (λ h. h.count ≡ place_count_at bytes.now) }
    ensures good { OnOk result (first_bad (header_fields at earlier.now bytes.now) ≡ None) }
    ensures bad { IfErr result (λ e. first_bad (header_fields at earlier.now bytes.now) ≡ Some e.0) }
{
    let Some(name) = new_name(earlier, bytes) else {
        return Err(BadField(at));
    };
    if !has_base(bytes) {
        return Err(BadField(at + 8));
    }
    let base = word_at(bytes, 8);
    if !has_size(bytes, earlier, base) {
        return Err(BadField(at + 12));
    }
    if !has_count(bytes, before) {
        return Err(BadField(at + 16));
    }
    Ok(Header {
        name,
        base,
        size: word_at(bytes, 12),
        count: word_at(bytes, 16),
    })
}

/// The module that begins there, behind these modules, which have so many places.
fn read_module(
    alloc: Global,
    input: &[u8],
    at: usize,
    earlier: &NamedModules,
    before: u32,
) -> Result<MarkedModule, MarksFault>
    requires inside { at ≤ length input.now }
    requires before { before ≡ place_total earlier.now }
    requires few { before ≤ 65536 }
    ensures value { IfOk result (λ m. m ≡ module_at (drop at input.now)) }
    ensures good { OnOk result (first_bad (module_fields at earlier.now (drop at input.now)) ≡ None) }
    ensures bad { IfErr result (IsFault (module_fields at earlier.now (drop at input.now))) }
{
    let header = read_header(rest_of(input, at), at, earlier, before)?;
    let places = read_places(alloc, input, at + 20, header.size, header.count)?;
    Ok(MarkedModule {
        name: header.name,
        base: header.base,
        size: header.size,
        places,
    })
}

/// So many modules from there on, and the offset past them.
fn read_modules(
    alloc: Global,
    input: &[u8],
    from: usize,
    count: u16,
) -> Result<(Vec<MarkedModule>, usize), MarksFault>
    requires { from ≤ length input.now }
    ensures modules { IfOk result (λ r. r.0.items ≡ modules_at count (drop from input.now)) }
    ensures end { IfOk result (λ r. r.1 ≡ from + length (flat_map module_bytes r.0.items)) }
    ensures good { OnOk result (first_bad (modules_fields from [] count (drop from input.now)) ≡ None) }
    ensures bad { IfErr result (IsFault (modules_fields from [] count (drop from input.now))) }
{
    let mut modules = NamedModules::new(alloc);
    let mut at = from;
    let mut before: u32 = 0;
    for _i in 0..count {
        let marked = read_module(alloc, input, at, &modules, before)?;
        let places = marked.places.len();
        at += 20 + 9 * places;
        before += places as u32;
        modules = modules.with(marked)?;
    }
    Ok((modules.modules, at))
}

fn has_module_count(bytes: &[u8]) -> bool
    ensures { result ≡ (nat_le 2 (length bytes.now) && is_module_count (big_number 2 bytes.now)) }
{
    bytes.len() >= 2 && is_module_count(BigEndian::read_u16(bytes))
}

/// The modules behind their number, which stands there, and the offset past them.
fn read_table(
    alloc: Global,
    input: &[u8],
    from: usize,
) -> Result<(Vec<MarkedModule>, usize), MarksFault>
    requires { from ≤ length input.now }
    ensures modules { IfOk result (λ r. r.0.items ≡ table_at (drop from input.now)) }
    ensures end { IfOk result (λ r. r.1 ≡ from + length (modules_bytes r.0.items)) }
    ensures good { OnOk result (first_bad (table_fields from (drop from input.now)) ≡ None) }
    ensures bad { IfErr result (IsFault (table_fields from (drop from input.now))) }
{
    let bytes = rest_of(input, from);
    if !has_module_count(bytes) {
        return Err(MarksFault::BadMarks { offset: from });
    }
    read_modules(alloc, input, from + 2, BigEndian::read_u16(bytes))
}

/// The file that begins there, and the offset past it.
fn read_file(alloc: Global, input: &[u8], from: usize) -> Result<(Marks, usize), MarksFault>
    requires { from ≤ length input.now }
    ensures value { IfOk result (λ r. r.0 ≡ marks_at (drop from input.now)) }
    ensures file { IfOk result (λ r. HasFile from (drop from input.now) r.0 r.1) }
    ensures good { OnOk result (first_bad (file_fields from (drop from input.now)) ≡ None) }
    ensures bad { IfErr result (IsFault (file_fields from (drop from input.now))) }
{
    let heading = read_heading(rest_of(input, from), from)?;
    let (modules, end) = read_table(alloc, input, from + heading.size)?;
    let marks = Marks {
        name: heading.name,
        runs: heading.runs,
        modules,
    };
    Ok((marks, end))
}

/// Reads the marks file with which the input goes on from there, whatever follows it, and gives the offset past it. A
/// file of version 1 has no name, and stands for one run. A field is bad where the input ends before the field does,
/// and where it breaks its rule:
/// - the magic is `S370COV1` or `S370COV2`, and of the latter the session's name is filled with blanks or blank, and
///   the runs are 1 at least;
/// - the number of modules is 1 to 16;
/// - a module's name is filled with blanks and new, its base a doubleword from X'100000' to X'FFEFF8', its size even, 2
///   to 262,144 and up to X'FFF000', with no byte of an earlier module, and the counts so far sum to at most 65,536;
/// - a place's location is even, below the size, at or past the end of the place before, its length 2, 4 or 6 and
///   inside the module, its kind 0 or 1, its original of this length and kind and not X'0AFF', its set of the kind.
pub fn read(alloc: Global, input: &[u8], from: usize) -> Result<(Marks, usize), MarksFault>
    requires { from ≤ length input.now }
    ensures file { IfOk result (λ r. HasFile from (drop from input.now) r.0 r.1) }
    ensures only { IfHasFile from (drop from input.now) (λ m end. IfOk result (λ r. r.0 ≡ m)) }
    ensures only_end { IfHasFile from (drop from input.now) (λ m end. IfOk result (λ r. r.1 ≡ end)) }
    ensures sure { IfHasFile from (drop from input.now) (λ m end. IfErr result (λ e. e ≡ MarksFault.NoMemory)) }
    ensures good { OnOk result (first_bad (file_fields from (drop from input.now)) ≡ None) }
    ensures bad { IfErr result (IsFault (file_fields from (drop from input.now))) }
    ensures one { IfBeginsWith Version.Second Version.Second (λ m n. m ≡ n) }
    ensures one_first { IfBeginsWith Version.First Version.First (λ m n. m.modules ≡ n.modules) }
    ensures one_version { (v w : Version) (m n : MarksView) → StartsWith (file_bytes v m) (file_bytes w n) → v ≡ w }
    ensures no_prefix { (v w : Version) → IfBeginsWith v w (λ m n. file_bytes v m ≡ file_bytes w n) }
{
    read_file(alloc, input, from)
}
