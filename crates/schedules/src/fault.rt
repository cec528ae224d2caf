// Why a schedule is not read.

use owned_values::NoMemory;

/// Why a schedule is not read.
#[derive(Clone, Copy, Debug, PartialEq, Eq)]
pub enum ScheduleFault {
    /// The number of the first line, from 1, that is no text, is no step, names an agent too many, or is one step too
    /// many.
    Line(u32),
    /// Memory ran out.
    NoMemory,
}

impl From<NoMemory> for ScheduleFault {
    ghost use Rattle.std.specs.Prelude.{◌≡◌};
    ghost use Rattle.schedules.specs.declared.fault.ScheduleFault.TheVariants.{NoMemory};

    ghost from_gives = { λ _ e. e ≡ NoMemory };

    fn from(_: NoMemory) -> ScheduleFault {
        ScheduleFault::NoMemory
    }
}
