// Why a provider is not set up.

ghost use Rattle.sp_setup.specs.Faults.{IsBad};

use saml_outside::{NoMemory, ReadStop, Text};
use std::alloc::Global;

/// Why a provider is not set up.
#[derive(Debug, Drop)]
pub enum SetupFault {
    /// This line of a file, or with 0 the whole file, can't be used.
    BadFile { file: Text, line: u64 },
    /// Reading a file failed, and the count of faults rose.
    ReadFault,
    /// There was no memory.
    NoMemory,
}

impl From<ReadStop> for SetupFault {
    ghost use Rattle.std.specs.Prelude.{◌≡◌};
    ghost use Rattle.sp_setup.specs.Faults.{of_stop};

    ghost from_gives = { λ stop e. e ≡ of_stop stop };

    fn from(stop: ReadStop) -> SetupFault {
        match stop {
            ReadStop::ReadFault => SetupFault::ReadFault,
            ReadStop::NoMemory => SetupFault::NoMemory,
        }
    }
}

impl From<NoMemory> for SetupFault {
    ghost use Rattle.std.specs.Prelude.{◌≡◌};
    ghost use Rattle.sp_setup.specs.declared.fault.SetupFault.TheVariants as faults;

    ghost from_gives = { λ _ e. e ≡ faults.NoMemory };

    fn from(_: NoMemory) -> SetupFault {
        SetupFault::NoMemory
    }
}

impl SetupFault {
    /// That this line of a file, or with 0 the whole file, can't be used.
    pub fn bad_file(alloc: Global, file: &str, line: u64) -> SetupFault
        ensures { IsBad file.now line result }
    {
        match Text::of(alloc, file) {
            Ok(file) => SetupFault::BadFile { file, line },
            Err(NoMemory) => SetupFault::NoMemory,
        }
    }
}
