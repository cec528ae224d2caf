// Why an element is not vouched for.

use owned_values::NoMemory;
use tree_read::ShapeFault;

/// The first condition that does not hold.
#[derive(Clone, Copy, Debug, PartialEq, Eq)]
pub enum SigFault {
    /// The element has no signature of the form that SAML and this profile ask for.
    BadSignatureForm,
    /// The element has no ID, or the Reference is to something else.
    BadReference,
    /// The SignatureValue is not the HMAC of SignedInfo under the key, or the canonical form of SignedInfo is longer
    /// than `MAX_CHECKED_FORM_LENGTH`.
    TagDiffers,
    /// The DigestValue is not the hash of the element without its Signature, or the canonical form of that is longer
    /// than `MAX_CHECKED_FORM_LENGTH`.
    DigestDiffers,
    /// Memory ran out.
    NoMemory,
}

impl From<NoMemory> for SigFault {
    ghost use Rattle.std.specs.Prelude.{◌≡◌};
    ghost use Rattle.sig_reference.specs.declared.fault.SigFault.TheVariants.{NoMemory};

    ghost from_gives = { λ _ e. e ≡ NoMemory };

    fn from(_: NoMemory) -> SigFault {
        SigFault::NoMemory
    }
}

impl From<ShapeFault> for SigFault {
    ghost use Rattle.std.specs.Prelude.{◌≡◌};
    ghost use Rattle.sig_reference.specs.Faults.{of_signature};

    ghost from_gives = { λ fault e. e ≡ of_signature fault };

    fn from(fault: ShapeFault) -> SigFault {
        match fault {
            ShapeFault::WrongShape => SigFault::BadSignatureForm,
            ShapeFault::NoMemory => SigFault::NoMemory,
        }
    }
}
