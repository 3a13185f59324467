//! The values of a marks file.

use cov_base::{Bits, Kind, Name};
use std::marker::Model;

/// A place: its location in its module, its length in bytes (2, 4 or 6), its kind, the original first halfword, and
/// the facts that executions have shown there.
#[derive(Clone, Copy)]
pub struct MarkedPlace {
    pub location: u32,
    pub len: u8,
    pub kind: Kind,
    pub original: u16,
    pub set: Bits,
}

/// A module: its name, the address of its first byte, its size in bytes, and its places in order of location.
#[derive(Drop)]
pub struct MarkedModule {
    pub name: Name,
    pub base: u32,
    pub size: u32,
    pub places: Vec<MarkedPlace>,
}

impl Model for MarkedModule {
    ghost use Rattle.marks_file.specs.Meaning.{MarkedView};

    ghost Value = { MarkedView };

    ghost view = { λ m. record { name = m.name; base = m.base; size = m.size; places = m.places.items } };
}

/// What executions have shown of a session.
///
/// - `name`: the session's, where it is known.
/// - `runs`: how many runs have shown it, 1 at least; 4,294,967,295 stands for as many or more.
/// - `modules`: 1 to 16, of different names. They stand on doublewords from X'100000' on, below X'FFF000', have an even
///   size of 2 to 262,144 bytes and share no byte; together they have at most 65,536 places. A module's places are
///   even, lie inside it and don't overlap; length and kind are those of the original, which is never X'0AFF', and a
///   set has facts of its place's kind alone.
#[derive(Drop)]
pub struct Marks {
    pub name: Option<Name>,
    pub runs: u32,
    pub modules: Vec<MarkedModule>,
}

impl Model for Marks {
    ghost use Rattle.std.specs.Prelude.{◌≡◌, true};
    ghost use Rattle.marks_file.specs.Meaning.{MarksView, keeps_rules};

    ghost Value = { MarksView };

    ghost view = { λ m. record { name = m.name; runs = m.runs; modules = m.modules.items } };

    ghost invariant = { λ m. keeps_rules (record { name = m.name; runs = m.runs; modules = m.modules.items }) ≡ true };
}
