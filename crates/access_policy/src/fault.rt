//! Why a policy is not read.

use owned_values::NoMemory;

/// Why a policy is not read.
#[derive(Clone, Copy, Debug, PartialEq, Eq)]
pub enum PolicyFault {
    /// The number of the first line, from 1, that is no text, is no rule, has the name of a rule before it, or is one
    /// rule too many.
    Line(u32),
    /// Memory ran out.
    NoMemory,
}

impl From<NoMemory> for PolicyFault {
    ghost use Rattle.std.specs.Prelude.{◌≡◌};
    ghost use Rattle.access_policy.specs.declared.fault.PolicyFault.TheVariants.{NoMemory};

    ghost from_gives = { λ _ e. e ≡ NoMemory };

    fn from(_: NoMemory) -> PolicyFault {
        PolicyFault::NoMemory
    }
}
