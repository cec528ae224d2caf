//! Why a config is not read.

use owned_values::NoMemory;

/// Why a config is not read.
#[derive(Clone, Copy, Debug, PartialEq, Eq)]
pub enum ConfigFault {
    /// The number of the first line, from 1, that is no text, is none of a config, or has a key that stands in a line
    /// before it; 0 where no line is bad and a key is missing.
    Line(u32),
    /// Memory ran out.
    NoMemory,
}

impl From<NoMemory> for ConfigFault {
    ghost use Rattle.std.specs.Prelude.{◌≡◌};
    ghost use Rattle.provider_config.specs.declared.fault.ConfigFault.TheVariants.{NoMemory};

    ghost from_gives = { λ _ e. e ≡ NoMemory };

    fn from(_: NoMemory) -> ConfigFault {
        ConfigFault::NoMemory
    }
}
