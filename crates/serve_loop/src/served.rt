//! How serving ended.
ghost use Rattle.std.specs.Prelude.{◌≡◌};
ghost use Rattle.serve_loop.specs.declared.served.ServeFault.TheVariants.{LinkFault, NoMemory as NoMemoryFault};

use crash_disk::Failed;
use owned_values::NoMemory;
use std::alloc::AllocError;

/// Serving came to its end.
#[derive(Clone, Copy, Debug, PartialEq, Eq)]
pub struct Served {
    /// How many events were taken. Stop is none.
    pub events: u64,
    /// Whether the link gave Stop, before as many events were taken as the budget has.
    pub stopped: bool,
}

/// Why serving ended early.
#[derive(Clone, Copy, Debug, PartialEq, Eq)]
pub enum ServeFault {
    /// The link failed, and its count of faults rose.
    LinkFault,
    /// There was no memory to begin.
    NoMemory,
}

impl From<Failed> for ServeFault {
    ghost from_gives = { λ _ e. e ≡ LinkFault };

    fn from(_: Failed) -> ServeFault {
        ServeFault::LinkFault
    }
}

impl From<NoMemory> for ServeFault {
    ghost from_gives = { λ _ e. e ≡ NoMemoryFault };

    fn from(_: NoMemory) -> ServeFault {
        ServeFault::NoMemory
    }
}

impl From<AllocError> for ServeFault {
    ghost from_gives = { λ _ e. e ≡ NoMemoryFault };

    fn from(_: AllocError) -> ServeFault {
        ServeFault::NoMemory
    }
}
