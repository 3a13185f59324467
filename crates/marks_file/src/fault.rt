//! Why bytes are no marks file.

use cov_base::NoMemory;
use std::alloc::{AllocError, AllocFailed};

/// Why no marks file was read.
#[derive(Clone, Copy)]
pub enum MarksFault {
    /// The offset, from the input's first byte, of the first field that breaks its rule or is cut short by the end.
    BadMarks { offset: usize },
    NoMemory,
}

/// The offset of the first bad field.
#[derive(Clone, Copy)]
pub(crate) struct BadField(pub(crate) usize);

impl From<BadField> for MarksFault {
    ghost use Rattle.std.specs.Prelude.{◌≡◌};
    ghost use Rattle.marks_file.specs.declared.fault.MarksFault.TheVariants.{BadMarks};

    ghost from_gives = { λ b e. e ≡ BadMarks b.0 };

    fn from(bad: BadField) -> Self {
        MarksFault::BadMarks { offset: bad.0 }
    }
}

impl From<AllocError> for MarksFault {
    ghost use Rattle.std.specs.Prelude.{◌≡◌};
    ghost use Rattle.marks_file.specs.declared.fault.MarksFault.TheVariants.{NoMemory};

    ghost from_gives = { λ _ e. e ≡ NoMemory };

    fn from(_: AllocError) -> Self {
        MarksFault::NoMemory
    }
}

impl<T: Drop> From<AllocFailed<T>> for MarksFault {
    ghost use Rattle.std.specs.Prelude.{◌≡◌};
    ghost use Rattle.marks_file.specs.declared.fault.MarksFault.TheVariants.{NoMemory};

    ghost from_gives = { λ _ e. e ≡ NoMemory };

    fn from(_: AllocFailed<T>) -> Self {
        MarksFault::NoMemory
    }
}

impl From<NoMemory> for MarksFault {
    ghost use Rattle.std.specs.Prelude.{◌≡◌};
    ghost use Rattle.marks_file.specs.declared.fault.MarksFault.TheVariants.{NoMemory as Wanting};

    ghost from_gives = { λ _ e. e ≡ Wanting };

    fn from(_: NoMemory) -> Self {
        MarksFault::NoMemory
    }
}
