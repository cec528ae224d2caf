// Why a schedule was not replayed.

ghost use Rattle.std.specs.Prelude.{◌≡◌};
ghost use Rattle.schedule_replay.specs.declared.fault.ReplayFault.TheVariants as faults;

use owned_values::NoMemory;
use saml_outside::SinkFailed;

/// Why a schedule was not replayed to its end.
#[derive(Clone, Copy, Debug, PartialEq, Eq)]
pub enum ReplayFault {
    /// A line could not be written, and the sink's count of faults rose.
    WriteFault,
    /// Memory ran out, a disk's among it.
    NoMemory,
}

impl From<SinkFailed> for ReplayFault {
    ghost from_gives = { λ _ e. e ≡ faults.WriteFault };

    fn from(_: SinkFailed) -> ReplayFault {
        ReplayFault::WriteFault
    }
}

impl From<NoMemory> for ReplayFault {
    ghost from_gives = { λ _ e. e ≡ faults.NoMemory };

    fn from(_: NoMemory) -> ReplayFault {
        ReplayFault::NoMemory
    }
}
