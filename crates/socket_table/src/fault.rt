//! Why a sending failed.
use std::alloc::AllocError;

/// Why a sending failed.
#[derive(Clone, Copy, Debug, PartialEq, Eq)]
pub enum SendFault {
    /// No connection of this number is open.
    NotOpen,
    /// There is no memory for what the stream does not take now. Nothing was sent.
    NoMemory,
    /// The stream takes nothing more, and has failed.
    StreamFailed,
}

impl From<AllocError> for SendFault {
    ghost use Rattle.std.specs.Prelude.{◌≡◌};
    ghost use Rattle.socket_table.specs.declared.fault.SendFault.TheVariants.{NoMemory};

    ghost from_gives = { λ _ e. e ≡ NoMemory };

    fn from(_: AllocError) -> SendFault {
        SendFault::NoMemory
    }
}
