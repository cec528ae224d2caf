// Providers and their roles.

ghost use Rattle.std.specs.Prelude.{◌≡◌};
ghost use Rattle.metadata.specs.Metadata.{descriptor, sign_on};

use owned_values::Text;

/// In which role a provider is described.
#[derive(Clone, Copy, Debug, PartialEq, Eq)]
pub enum Role {
    /// An identity provider (SAML Metadata, 2.4.3).
    Idp,
    /// A service provider (SAML Metadata, 2.4.4).
    Sp,
}

impl Role {
    /// The local name of the element that describes a provider in this role.
    pub(crate) fn descriptor(self) -> &'static str
        ensures { result.now ≡ descriptor self }
    {
        match self {
            Role::Idp => "IDPSSODescriptor",
            Role::Sp => "SPSSODescriptor",
        }
    }

    /// The local name of its endpoints for sign-on.
    pub(crate) fn sign_on(self) -> &'static str
        ensures { result.now ≡ sign_on self }
    {
        match self {
            Role::Idp => "SingleSignOnService",
            Role::Sp => "AssertionConsumerService",
        }
    }
}

/// A provider, as its metadata describes it.
#[derive(Debug, Drop)]
pub struct Peer {
    /// Its name, which is not empty.
    pub entity: Text,
    /// The address for sign-on, which is not empty.
    pub service: Text,
    /// The address for logout.
    pub logout: Option<Text>,
}
