// Expanded names.

ghost use Rattle.std.specs.Prelude.{◌≡◌};
ghost use Rattle.saml_names.specs.Names.{saml, samlp, ds, md};
ghost use Rattle.saml_names.specs.Views.{name_of};

use crate::namespaces::{DS, MD, SAML, SAMLP};

/// A namespace name and a local name (Namespaces in XML 1.0, 2.1).
#[derive(Clone, Copy, Debug)]
pub struct ExpandedName<'a> {
    /// The namespace name, empty where the name is in none.
    pub namespace: &'a str,
    /// The local part.
    pub local: &'a str,
}

/// A name of SAML assertions.
pub fn saml(local: &str) -> ExpandedName<'_>
    ensures { name_of result ≡ saml local.now }
{
    ExpandedName {
        namespace: SAML,
        local,
    }
}

/// A name of SAML protocol messages.
pub fn samlp(local: &str) -> ExpandedName<'_>
    ensures { name_of result ≡ samlp local.now }
{
    ExpandedName {
        namespace: SAMLP,
        local,
    }
}

/// A name of XML Signature.
pub fn ds(local: &str) -> ExpandedName<'_>
    ensures { name_of result ≡ ds local.now }
{
    ExpandedName {
        namespace: DS,
        local,
    }
}

/// A name of SAML metadata.
pub fn md(local: &str) -> ExpandedName<'_>
    ensures { name_of result ≡ md local.now }
{
    ExpandedName {
        namespace: MD,
        local,
    }
}
