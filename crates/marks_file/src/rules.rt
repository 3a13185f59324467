//! The rules of the fields.
ghost use Rattle.std.specs.Prelude.{◌≡◌, ◌≤◌, ◌<◌, ◌+◌, length, nat_le};
ghost use Rattle.std.specs.List.{list_all};
ghost use Rattle.marks_file.specs.Meaning.{is_location, is_length, is_original, is_set, is_base, is_clear, is_size, is_count, is_module_count};

use crate::marks::MarkedModule;
use crate::numbers::{kind_number, set_of_number};
use cov_base::{BREAKPOINT, Fact, Kind};
use s370_decode::{kind, length};

/// Whether the location is even, below the size, and at or past the end of the place before.
#[tactic(auto, unfolding(crate::specs::Meaning::is_location))]
pub fn is_location(size: u32, end: u32, at: u32) -> bool
    ensures { result ≡ is_location size end at }
{
    at % 2 == 0 && at < size && end <= at
}

/// Whether the length is 2, 4 or 6, and the place lies inside the module.
#[tactic(auto, unfolding(crate::specs::Meaning::is_length))]
pub fn is_length(size: u32, at: u32, len: u8) -> bool
    ensures { result ≡ is_length size at len }
{
    (len == 2 || len == 4 || len == 6) && u64::from(at) + u64::from(len) <= u64::from(size)
}

/// Whether the halfword gives this length and this kind, and isn't the breakpoint.
#[tactic(auto, unfolding(crate::specs::Meaning::is_original))]
pub fn is_original(len: u8, of_kind: Kind, half: u16) -> bool
    ensures { result ≡ is_original len of_kind half }
{
    length(half) == len && kind_number(kind(half)) == kind_number(of_kind) && half != BREAKPOINT
}

/// Whether the number is a set of facts of the kind.
#[tactic(auto, unfolding(crate::specs::Meaning::is_set))]
pub fn is_set(of_kind: Kind, number: u8) -> bool
    ensures { result ≡ is_set of_kind number }
{
    if number >= 8 {
        return false;
    }
    let set = set_of_number(number);
    match of_kind {
        Kind::Straight => !set.has(Fact::Went) && !set.has(Fact::Stayed),
        Kind::Conditional => !set.has(Fact::Ran),
    }
}

/// Whether a module may stand there: on a doubleword from X'100000' to X'FFEFF8'.
#[tactic(auto, unfolding(crate::specs::Meaning::is_base))]
pub fn is_base(base: u32) -> bool
    ensures { result ≡ is_base base }
{
    base % 8 == 0 && base >= 0x10_0000 && base <= 0xFF_EFF8
}

fn is_clear(base: u32, size: u32, marked: &MarkedModule) -> bool
    ensures { result ≡ is_clear base size marked.now }
{
    u64::from(marked.base) + u64::from(marked.size) <= u64::from(base)
        || u64::from(base) + u64::from(size) <= u64::from(marked.base)
}

fn are_clear(earlier: &[MarkedModule], base: u32, size: u32) -> bool
    ensures { result ≡ list_all (is_clear base size) earlier.now }
{
    earlier.iter().all(|marked| is_clear(base, size, marked))
}

/// Whether a module of this base may have the size: even, 2 to 262,144, up to X'FFF000', clear of the earlier modules.
#[tactic(auto, unfolding(crate::specs::Meaning::is_size))]
pub fn is_size(earlier: &[MarkedModule], base: u32, size: u32) -> bool
    ensures { result ≡ is_size earlier.now base size }
{
    size % 2 == 0
        && size >= 2
        && size <= 262_144
        && u64::from(base) + u64::from(size) <= 0xFF_F000
        && are_clear(earlier, base, size)
}

/// Whether so many places may follow those of the earlier modules, which are `before`: 65,536 together at most.
#[tactic(auto, unfolding(crate::specs::Meaning::is_count))]
pub fn is_count(before: u32, count: u32) -> bool
    requires { before ≤ 65536 }
    ensures { result ≡ nat_le (before + count) 65536 }
{
    count <= 65_536 - before
}

/// Whether a file may have so many modules: 1 to 16.
#[tactic(auto, unfolding(crate::specs::Meaning::is_module_count))]
pub fn is_module_count(count: u16) -> bool
    ensures { result ≡ is_module_count count }
{
    count >= 1 && count <= 16
}
