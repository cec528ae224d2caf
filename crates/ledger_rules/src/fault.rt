//! Why no record was drafted.
ghost use Rattle.std.specs.Prelude.{◌≡◌};
ghost use Rattle.ledger_rules.specs.declared.fault.DraftFault.TheVariants.{NoMemory as NoMemoryFault};

use owned_values::NoMemory;

/// Why no record was drafted.
#[derive(Clone, Copy, Debug, PartialEq, Eq)]
pub enum DraftFault {
    /// As many rows of the record's kind are kept as there may be, or more.
    LedgerFull { kept: u32 },
    /// The record does not fit: the length of its payload in bytes, `u64::MAX` where it has more; how many bytes are left
    /// for bodies; and the next number to be drawn.
    JournalFull { length: u64, room: u64, next: u64 },
    /// There was no memory.
    NoMemory,
}

impl From<NoMemory> for DraftFault {
    ghost from_gives = { λ _ e. e ≡ NoMemoryFault };

    fn from(_: NoMemory) -> DraftFault {
        DraftFault::NoMemory
    }
}
