//! What a ledger's records are printed as.
ghost use Rattle.std.specs.Prelude.{◌≡◌, ℕ, List, IfOk};

use owned_values::{Blob, NoMemory};
use record_ledger::Standing;
use std::alloc::Global;

/// A ledger whose records are printed.
pub trait Lines: Standing {
    /// The line of a record.
    ghost line: { Self.Record → List ℕ };

    /// The line of a record, with its line end.
    fn line_of(entry: &Self::Record, alloc: Global) -> Result<Blob, NoMemory>
        ensures { IfOk result (λ text. text ≡ line entry.now) };
}
