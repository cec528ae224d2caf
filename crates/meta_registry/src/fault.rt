// Why an aggregate is not read, and why it gives no provider.

use metadata::MetaFault;
use owned_values::NoMemory;
use saml_tree::TreeFault;
use sig_reference::SigFault;

/// Why an aggregate is not read: the first of these that holds. Neither of the faults inside is want of memory.
#[derive(Clone, Copy, Debug, PartialEq, Eq)]
pub enum RegistryFault {
    /// The text is no document that is read.
    Tree(TreeFault),
    /// Its root is no EntitiesDescriptor with an ID and a moment until which it is valid.
    WrongShape,
    /// No signature vouches for the root under the key.
    Signature(SigFault),
    /// Memory ran out.
    NoMemory,
}

impl From<NoMemory> for RegistryFault {
    ghost use Rattle.std.specs.Prelude.{◌≡◌};
    ghost use Rattle.meta_registry.specs.declared.fault.RegistryFault.TheVariants.{NoMemory};

    ghost from_gives = { λ _ e. e ≡ NoMemory };

    fn from(_: NoMemory) -> RegistryFault {
        RegistryFault::NoMemory
    }
}

impl From<TreeFault> for RegistryFault {
    ghost use Rattle.std.specs.Prelude.{◌≡◌};
    ghost use Rattle.meta_registry.specs.Faults.{of_tree};

    ghost from_gives = { λ fault e. e ≡ of_tree fault };

    fn from(fault: TreeFault) -> RegistryFault {
        match fault {
            TreeFault::NoMemory => RegistryFault::NoMemory,
            TreeFault::BadXml
            | TreeFault::XmlLimit
            | TreeFault::BadNames
            | TreeFault::DuplicateId => RegistryFault::Tree(fault),
        }
    }
}

impl From<SigFault> for RegistryFault {
    ghost use Rattle.std.specs.Prelude.{◌≡◌};
    ghost use Rattle.meta_registry.specs.Faults.{of_signature};

    ghost from_gives = { λ fault e. e ≡ of_signature fault };

    fn from(fault: SigFault) -> RegistryFault {
        match fault {
            SigFault::NoMemory => RegistryFault::NoMemory,
            SigFault::BadSignatureForm
            | SigFault::BadReference
            | SigFault::TagDiffers
            | SigFault::DigestDiffers => RegistryFault::Signature(fault),
        }
    }
}

/// Why an aggregate gives no provider.
#[derive(Clone, Copy, Debug, PartialEq, Eq)]
pub enum PeerFault {
    /// It lists so many descriptors of that name, and not one.
    NotListed(u32),
    /// The descriptor of that name describes no such provider; never for want of memory.
    Meta(MetaFault),
    /// Memory ran out.
    NoMemory,
}

impl From<NoMemory> for PeerFault {
    ghost use Rattle.std.specs.Prelude.{◌≡◌};
    ghost use Rattle.meta_registry.specs.declared.fault.PeerFault.TheVariants.{NoMemory};

    ghost from_gives = { λ _ e. e ≡ NoMemory };

    fn from(_: NoMemory) -> PeerFault {
        PeerFault::NoMemory
    }
}
