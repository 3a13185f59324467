//! Why a job has no tables.

use brk_table::BuildFault;
use cov_base::{Name, NoMemory};
use listing_reader::ListFault;
use std::alloc::AllocFailed;

/// The first fault of a job's listings, with the name of the module whose listing has it, or want of memory.
#[derive(Clone, Copy)]
pub enum TablesFault {
    /// The listing isn't read.
    List {
        module: Name,
        fault: ListFault,
    },
    /// Its lines make no table over the module. `location` is where the instruction of a mismatch stands in the module;
    /// of other faults it is 0.
    Build {
        module: Name,
        location: u32,
        fault: BuildFault,
    },
    /// A growth was refused by the allocator.
    NoMemory,
}

impl<T: Drop> From<AllocFailed<T>> for TablesFault {
    ghost use Rattle.std.specs.Prelude.{◌≡◌};
    ghost use Rattle.job_input.specs.declared.table_faults.TablesFault.TheVariants.{NoMemory as Wanting};

    ghost from_gives = { λ _ e. e ≡ Wanting };

    fn from(_: AllocFailed<T>) -> Self {
        TablesFault::NoMemory
    }
}

impl From<NoMemory> for TablesFault {
    ghost use Rattle.std.specs.Prelude.{◌≡◌};
    ghost use Rattle.job_input.specs.declared.table_faults.TablesFault.TheVariants.{NoMemory as Wanting};

    ghost from_gives = { λ _ e. e ≡ Wanting };

    fn from(_: NoMemory) -> Self {
        TablesFault::NoMemory
    }
}
