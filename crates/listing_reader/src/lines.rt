//! What a listing line says, and why a listing is refused.

use cov_base::NoMemory;
use s370_decode::Code;

/// A line of a listing.
#[derive(Clone, Copy)]
pub enum Line {
    /// Any line that is no instruction's.
    Text,
    /// An instruction at this location of its module; the code's address is 0.
    Code { loc: u32, bytes: Code },
}

/// Why a listing is refused.
#[derive(Clone, Copy)]
pub enum ListFault {
    /// No line is a heading.
    NoHeading,
    /// This line, counted from 1, is an instruction's, and its object code is no code of an instruction.
    BadObject { line: u32 },
    /// A growth was refused by the allocator.
    NoMemory,
}

impl From<NoMemory> for ListFault {
    ghost use Rattle.std.specs.Prelude.{◌≡◌};
    ghost use Rattle.listing_reader.specs.declared.lines.ListFault.TheVariants.{NoMemory as Wanting};

    ghost from_gives = { λ _ e. e ≡ Wanting };

    fn from(_: NoMemory) -> Self {
        ListFault::NoMemory
    }
}
