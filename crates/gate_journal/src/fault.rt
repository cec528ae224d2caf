//! Why a journal was not opened.
ghost use Rattle.std.specs.Prelude.{◌≡◌};
ghost use Rattle.gate_journal.specs.declared.fault.OpenFault.TheVariants.{DiskFault, NoMemory as NoMemoryFault};

use crate::{Failed, FileNo};
use owned_values::NoMemory;
use std::alloc::AllocError;

/// Why a journal was not opened or made anew.
#[derive(Clone, Copy, Debug, PartialEq, Eq)]
pub enum OpenFault {
    /// The disk failed, and its count of faults rose.
    DiskFault,
    /// The files are no journal: this one has a fault at this place.
    Foreign { file: FileNo, place: u64 },
    /// There was no memory.
    NoMemory,
}

impl From<Failed> for OpenFault {
    ghost from_gives = { λ _ e. e ≡ DiskFault };

    fn from(_: Failed) -> OpenFault {
        OpenFault::DiskFault
    }
}

impl From<NoMemory> for OpenFault {
    ghost from_gives = { λ _ e. e ≡ NoMemoryFault };

    fn from(_: NoMemory) -> OpenFault {
        OpenFault::NoMemory
    }
}

impl From<AllocError> for OpenFault {
    ghost from_gives = { λ _ e. e ≡ NoMemoryFault };

    fn from(_: AllocError) -> OpenFault {
        OpenFault::NoMemory
    }
}
