//! Why a form is not read.

use owned_values::NoMemory;

/// The first fault of a form (SAML Bindings 3.5).
#[derive(Clone, Copy, Debug, PartialEq, Eq)]
pub enum FormFault {
    /// The fields named SAMLRequest or SAMLResponse are not one in all, or RelayState stands twice or has more than
    /// [`RELAY_LIMIT`](crate::RELAY_LIMIT) bytes, or one of these values holds U+FFFD.
    BadForm,
    /// The message without white space is no base64 with its padding (RFC 4648, 4).
    BadBase64,
    /// The message has more than [`MESSAGE_LIMIT`](crate::MESSAGE_LIMIT) bytes: this many.
    TooLarge(u64),
    /// Memory ran out.
    NoMemory,
}

impl From<NoMemory> for FormFault {
    ghost use Rattle.std.specs.Prelude.{◌≡◌};
    ghost use Rattle.post_binding.specs.declared.fault.FormFault.TheVariants.{NoMemory};

    ghost from_gives = { λ _ e. e ≡ NoMemory };

    fn from(_: NoMemory) -> FormFault {
        FormFault::NoMemory
    }
}
