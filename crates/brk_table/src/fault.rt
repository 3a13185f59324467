//! The first fault of a listing's lines.
ghost use Rattle.std.specs.Prelude.{◌≡◌, ℕ, ◌+◌, ◌<◌, ◌≤◌, None, IsNone, [], length, get_or, count_by};
ghost use Rattle.std.specs.List.{AllPass};
ghost use Rattle.listing_reader.specs.Listing.{is_sound};
ghost use Rattle.brk_table.specs.Meaning.{module_byte, module_code, fault_by, is_code, first_fault};
ghost use Rattle.brk_table.specs.Cover.{is_covered, is_inside, IsCover};

use crate::cover::{is_covered, mark};
use crate::faults::BuildFault;
use cov_base::{Addr, BREAKPOINT, INPUT_LIMIT};
use listing_reader::{Line, Listing};
use s370_decode::Code;

fn module_byte(bytes: &[u8], loc: usize, len: u8, i: u8) -> u8
    requires { loc + len ≤ length bytes.now }
    ensures { result ≡ module_byte bytes.now loc len i }
{
    if i < len { bytes[loc + i as usize] } else { 0 }
}

/// So many bytes of the module.
pub fn module_code(bytes: &[u8], loc: usize, len: u8) -> Code
    requires { loc + len ≤ length bytes.now }
    ensures { result ≡ module_code bytes.now loc len }
{
    Code {
        at: Addr::of(0),
        bytes: [
            module_byte(bytes, loc, len, 0),
            module_byte(bytes, loc, len, 1),
            module_byte(bytes, loc, len, 2),
            module_byte(bytes, loc, len, 3),
            module_byte(bytes, loc, len, 4),
            module_byte(bytes, loc, len, 5),
        ],
        len,
    }
}

/// The fault of line n, where so many instructions stand before it.
#[tactic(auto, unfolding(crate::specs::Meaning::fault_by))]
pub fn fault_by(
    bytes: &[u8],
    room: u32,
    cover: &[Option<u32>],
    before: u32,
    n: u32,
    loc: u32,
    code: &Code,
) -> Option<BuildFault>
    requires { length cover.now ≡ length bytes.now }
    ensures { result ≡ fault_by bytes.now room (is_covered cover.now loc code.now.len) before n loc code.now }
{
    let from = loc as usize;
    let len = code.len as usize;
    if loc % 2 == 1 {
        return Some(BuildFault::Odd { line: n });
    }
    if bytes.len() < from + len {
        return Some(BuildFault::Outside { line: n });
    }
    if is_covered(cover, from, len) {
        return Some(BuildFault::Overlap { line: n });
    }
    if room <= before {
        return Some(BuildFault::TooMany { line: n });
    }
    if code.first_half() == BREAKPOINT {
        return Some(BuildFault::OwnSvc { line: n });
    }
    let own = module_code(bytes, from, code.len);
    if code.bytes == own.bytes {
        return None;
    }
    Some(BuildFault::Mismatch {
        line: n,
        listing: *code,
        module: own,
    })
}

/// The first fault of the lines; where they have none, each byte of the module is given the line whose instruction
/// has it.
pub fn first_fault(
    bytes: &[u8],
    lines: &Listing,
    room: u32,
    cover: &mut [Option<u32>],
) -> Option<BuildFault>
    requires size { length cover.old ≡ length bytes.now }
    requires fresh { (k : ℕ) → k < length cover.old → get_or cover.old k None ≡ None }
    requires count { length lines.now ≤ INPUT_LIMIT }
    requires sound { AllPass is_sound lines.now }
    ensures fault { result ≡ first_fault bytes.now room [] lines.now }
    ensures cover { IsNone result → IsCover lines.now cover.new }
    ensures inside { IsNone result → AllPass (is_inside (length bytes.now)) lines.now }
    ensures room { IsNone result → count_by is_code lines.now ≤ room }
{
    let mut before: u32 = 0;
    for i in 0..lines.len() {
        if let Line::Code { loc, bytes: code } = lines.line(i) {
            if let Some(fault) = fault_by(bytes, room, cover, before, i as u32 + 1, loc, &code) {
                return Some(fault);
            }
            mark(cover, loc as usize, code.len as usize, i as u32);
            before += 1;
        }
    }
    None
}
