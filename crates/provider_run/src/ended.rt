// How a run ends.

ghost use Rattle.std.specs.Prelude.{◌≡◌};
ghost use Rattle.provider_run.specs.Runs.{result_of};

use crash_disk::{Failed, FileNo};
use owned_values::Text;
use serve_loop::{ServeFault, Served};

/// What a run came to.
#[derive(Debug, Drop)]
pub enum Ended {
    /// This line of a file, or with 0 the whole file, can't be used.
    BadFile { file: Text, line: u64 },
    /// What the disk holds is no ledger: the file, and the place in it of what is wrong, in bytes.
    Foreign { file: FileNo, place: u64 },
    /// Events were served, until Stop or until as many were taken as the budget has.
    Served(Served),
}

/// Why a run ended early.
#[derive(Clone, Copy, Debug, PartialEq, Eq)]
pub enum RunFault {
    /// A file could not be read, and the files' count of faults rose.
    ReadFault,
    /// The disk failed while the ledger was opened, and its count of faults rose.
    DiskFault,
    /// The link failed, and its count of faults rose.
    LinkFault,
    /// There was no memory.
    NoMemory,
}

impl From<Failed> for RunFault {
    ghost use Rattle.std.specs.Prelude.{◌≡◌};
    ghost use Rattle.provider_run.specs.declared.ended.RunFault.TheVariants as faults;

    ghost from_gives = { λ _ e. e ≡ faults.LinkFault };

    fn from(_: Failed) -> RunFault {
        RunFault::LinkFault
    }
}

/// What a run comes to where serving ended so.
pub fn ended_of(served: Result<Served, ServeFault>) -> Result<Ended, RunFault>
    ensures { result ≡ result_of served }
{
    match served {
        Ok(served) => Ok(Ended::Served(served)),
        Err(ServeFault::LinkFault) => Err(RunFault::LinkFault),
        Err(ServeFault::NoMemory) => Err(RunFault::NoMemory),
    }
}
