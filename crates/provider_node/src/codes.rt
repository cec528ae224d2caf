//! The codes that a provider answers where it can't go on.
ghost use Rattle.std.specs.Prelude.{◌≡◌};
ghost use Rattle.provider_node.specs.Serving.{code_of};

use gate_journal::OpenFault;

/// The disk failed.
pub const DISK_FAULT: u16 = 50;

/// There is no room for the record.
pub const FULL: u16 = 51;

/// There was no memory.
pub const NO_MEMORY: u16 = 52;

/// What the disk holds is no ledger of this provider.
pub const FOREIGN: u16 = 53;

/// The code of a fault of an opening or a compaction.
pub fn code_of(fault: OpenFault) -> u16
    ensures { result ≡ code_of fault }
{
    match fault {
        OpenFault::DiskFault => DISK_FAULT,
        OpenFault::Foreign { .. } => FOREIGN,
        OpenFault::NoMemory => NO_MEMORY,
    }
}
