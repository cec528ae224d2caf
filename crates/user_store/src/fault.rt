//! Why users are not read.

use owned_values::NoMemory;

/// Why users are not read.
#[derive(Clone, Copy, Debug, PartialEq, Eq)]
pub enum UserFault {
    /// The number of the first line, from 1, that is no text, is neither a user nor an attribute of one, has the name of
    /// a user before it, or is one user too many.
    Line(u32),
    /// Memory ran out.
    NoMemory,
}

impl From<NoMemory> for UserFault {
    ghost use Rattle.std.specs.Prelude.{◌≡◌};
    ghost use Rattle.user_store.specs.declared.fault.UserFault.TheVariants.{NoMemory};

    ghost from_gives = { λ _ e. e ≡ NoMemory };

    fn from(_: NoMemory) -> UserFault {
        UserFault::NoMemory
    }
}
