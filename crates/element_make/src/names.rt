// The namespaces of the messages.
ghost use Rattle.std.specs.Prelude.{◌≡◌};
ghost use Rattle.element_make.specs.Prefixes.{prefix, namespace};

use saml_names::{DS, MD, SAML, SAMLP};

/// A namespace that messages use. Each has one prefix: `saml`, `samlp`, `ds`, `md`.
#[derive(Clone, Copy, Debug, PartialEq, Eq)]
pub enum Ns {
    /// Assertions (SAML Core 2).
    Saml,
    /// Protocol messages (SAML Core 3).
    Samlp,
    /// XML Signature.
    Ds,
    /// SAML Metadata.
    Md,
}

impl Ns {
    /// The prefix of its names.
    pub(crate) fn prefix(self) -> &'static str
        ensures { result.now ≡ prefix self }
    {
        match self {
            Ns::Saml => "saml",
            Ns::Samlp => "samlp",
            Ns::Ds => "ds",
            Ns::Md => "md",
        }
    }

    /// The name of the namespace.
    pub(crate) fn name(self) -> &'static str
        ensures { result.now ≡ namespace self }
    {
        match self {
            Ns::Saml => SAML,
            Ns::Samlp => SAMLP,
            Ns::Ds => DS,
            Ns::Md => MD,
        }
    }
}
