//! What stands before a file's modules: its magic, and in version 2 the session's name and the runs.
ghost use Rattle.std.specs.Prelude.{◌≡◌, ◌+◌, ◌<◌, ◌≤◌, ◌^◌, ◌&&◌, length, true, false, take, drop, nat_le, None, Some, IfOk, OnOk, IfErr, IfSome, IsNone};
ghost use Rattle.byteorder.specs.Endian.{big_number};
ghost use Rattle.marks_file.specs.Meaning.{first_bad, is_magic, version_of, table_from, heading_fields};
ghost use Rattle.marks_file.specs.Reading.{named, name_at, runs_at, has_name, has_runs};

use crate::fault::BadField;
use crate::version::Version;
use byteorder::{BigEndian, ByteOrder};
use cov_base::Name;

/// The version of which the bytes have the magic; none where they have neither's.
fn version_at(bytes: &[u8]) -> Option<Version>
    ensures version { IfSome result (λ v. v ≡ version_of bytes.now) }
    ensures good { IfSome result (λ _. (nat_le 8 (length bytes.now) && is_magic (take 8 bytes.now)) ≡ true) }
    ensures bad { IsNone result → (nat_le 8 (length bytes.now) && is_magic (take 8 bytes.now)) ≡ false }
{
    if bytes.len() < 8 {
        return None;
    }
    let magic = &bytes[..8];
    if magic == b"S370COV1".as_slice() {
        Some(Version::First)
    } else if magic == b"S370COV2".as_slice() {
        Some(Version::Second)
    } else {
        None
    }
}

/// The name that the field is; none where it is none.
fn named(field: &[u8]) -> Option<Name>
    requires { length field.now ≡ 8 }
    ensures { result ≡ named field.now }
{
    Name::read_filled(field)
}

/// What stands before the number of modules, which begins at `size`.
#[derive(Clone, Copy)]
pub(crate) struct Heading {
    pub(crate) name: Option<Name>,
    pub(crate) runs: u32,
    pub(crate) size: usize,
}

/// The name in the 8 bytes that stand behind the magic of version 2; none where they are cut short or no field for it.
fn session_name(bytes: &[u8]) -> Option<Option<Name>>
    ensures name { IfSome result (λ n. n ≡ named (take 8 (drop 8 bytes.now))) }
    ensures good { IfSome result (λ _. has_name bytes.now ≡ true) }
    ensures bad { IsNone result → has_name bytes.now ≡ false }
{
    if bytes.len() < 16 {
        return None;
    }
    let field = &bytes[8..16];
    let name = named(field);
    if name.is_none() && field != b"        ".as_slice() {
        return None;
    }
    Some(name)
}

/// The runs in the 4 bytes behind the name; none where they are cut short or 0.
fn session_runs(bytes: &[u8]) -> Option<u32>
    ensures runs { IfSome result (λ n. n ≡ big_number 4 (drop 16 bytes.now)) }
    ensures good { IfSome result (λ _. has_runs bytes.now ≡ true) }
    ensures bad { IsNone result → has_runs bytes.now ≡ false }
{
    if bytes.len() < 20 {
        return None;
    }
    let runs = BigEndian::read_u32(&bytes[16..]);
    if runs >= 1 { Some(runs) } else { None }
}

/// The heading of the file that begins there.
#[tactic(auto, unfolding(crate::specs::Meaning::heading_fields))]
pub(crate) fn read_heading(bytes: &[u8], at: usize) -> Result<Heading, BadField>
    requires { at < 2 ^ 63 }
    ensures name { IfOk result (λ h. h.name ≡ name_at (version_of bytes.now) bytes.now) }
    ensures runs { IfOk result (λ h. h.runs ≡ runs_at (version_of bytes.now) bytes.now) }
    ensures size { IfOk result (λ h. h.size ≡ table_from (version_of bytes.now)) }
    ensures inside { IfOk result (λ h. h.size ≤ length bytes.now) }
    ensures good { OnOk result (first_bad (heading_fields at bytes.now) ≡ None) }
    ensures bad { IfErr result (λ e. first_bad (heading_fields at bytes.now) ≡ Some e.0) }
{
    let Some(version) = version_at(bytes) else {
        return Err(BadField(at));
    };
    match version {
        Version::First => Ok(Heading {
            name: None,
            runs: 1,
            size: 8,
        }),
        Version::Second => {
            let Some(name) = session_name(bytes) else {
                return Err(BadField(at + 8));
            };
            let Some(runs) = session_runs(bytes) else {
                return Err(BadField(at + 16));
            };
            Ok(Heading {
                name,
                runs,
                size: 20,
            })
        }
    }
}
