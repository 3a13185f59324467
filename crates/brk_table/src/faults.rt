//! Why a listing makes no table over its module.

use cov_base::NoMemory as Shortage;
use s370_decode::Code;
use std::alloc::{AllocError, AllocFailed};

/// The first fault of a listing's lines, counted from 1; at one line the earlier of these.
#[derive(Clone, Copy)]
pub enum BuildFault {
    /// The location is odd.
    Odd {
        line: u32,
    },
    /// A byte of the instruction lies past the module.
    Outside {
        line: u32,
    },
    /// It shares a byte with the instruction of an earlier line.
    Overlap {
        line: u32,
    },
    /// It is one more than there is room for.
    TooMany {
        line: u32,
    },
    /// Its first halfword is the breakpoint's, X'0AFF'.
    OwnSvc {
        line: u32,
    },
    /// Its bytes are not the module's; both codes have the address 0 and the listing code's length.
    Mismatch {
        line: u32,
        listing: Code,
        module: Code,
    },
    /// A growth was refused by the allocator.
    NoMemory,
}

impl From<AllocError> for BuildFault {
    ghost use Rattle.std.specs.Prelude.{◌≡◌};
    ghost use Rattle.brk_table.specs.declared.faults.BuildFault.TheVariants.{NoMemory};

    ghost from_gives = { λ _ e. e ≡ NoMemory };

    fn from(_: AllocError) -> Self {
        BuildFault::NoMemory
    }
}

impl<T: Drop> From<AllocFailed<T>> for BuildFault {
    ghost use Rattle.std.specs.Prelude.{◌≡◌};
    ghost use Rattle.brk_table.specs.declared.faults.BuildFault.TheVariants.{NoMemory};

    ghost from_gives = { λ _ e. e ≡ NoMemory };

    fn from(_: AllocFailed<T>) -> Self {
        BuildFault::NoMemory
    }
}

impl From<Shortage> for BuildFault {
    ghost use Rattle.std.specs.Prelude.{◌≡◌};
    ghost use Rattle.brk_table.specs.declared.faults.BuildFault.TheVariants.{NoMemory};

    ghost from_gives = { λ _ e. e ≡ NoMemory };

    fn from(_: Shortage) -> Self {
        BuildFault::NoMemory
    }
}
