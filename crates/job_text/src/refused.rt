//! Why a line of a job isn't taken.

use crate::limit::Limit;
use cov_base::NoMemory;
use std::alloc::{AllocError, AllocFailed};

#[derive(Drop)]
pub(crate) enum LineRefused {
    Bad,
    TooLarge(Limit),
    NoMemory,
}

impl From<AllocError> for LineRefused {
    ghost use Rattle.std.specs.Prelude.{◌≡◌};
    ghost use Rattle.job_text.specs.declared.refused.LineRefused.TheVariants.{NoMemory};

    ghost from_gives = { λ _ e. e ≡ NoMemory };

    fn from(_: AllocError) -> Self {
        LineRefused::NoMemory
    }
}

impl<T: Drop> From<AllocFailed<T>> for LineRefused {
    ghost use Rattle.std.specs.Prelude.{◌≡◌};
    ghost use Rattle.job_text.specs.declared.refused.LineRefused.TheVariants.{NoMemory};

    ghost from_gives = { λ _ e. e ≡ NoMemory };

    fn from(_: AllocFailed<T>) -> Self {
        LineRefused::NoMemory
    }
}

impl From<NoMemory> for LineRefused {
    ghost use Rattle.std.specs.Prelude.{◌≡◌};
    ghost use Rattle.job_text.specs.declared.refused.LineRefused.TheVariants.{NoMemory};

    ghost from_gives = { λ _ e. e ≡ NoMemory };

    fn from(_: NoMemory) -> Self {
        LineRefused::NoMemory
    }
}
