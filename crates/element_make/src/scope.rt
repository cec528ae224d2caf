// Which namespaces are declared at a place.
ghost use Rattle.std.specs.Prelude.{◌≡◌};
ghost use Rattle.element_make.specs.Writing.{declares, nothing_declared, also_declared};

use crate::names::Ns;

/// Whether each of the namespaces is declared.
#[derive(Clone, Copy, Debug)]
pub(crate) struct Declared {
    saml: bool,
    samlp: bool,
    ds: bool,
    md: bool,
}

impl Declared {
    /// None is.
    pub(crate) fn none() -> Declared
        ensures { result ≡ nothing_declared }
    {
        Declared {
            saml: false,
            samlp: false,
            ds: false,
            md: false,
        }
    }

    /// Whether this one is.
    pub(crate) fn has(self, ns: Ns) -> bool
        ensures { result ≡ declares self ns }
    {
        match ns {
            Ns::Saml => self.saml,
            Ns::Samlp => self.samlp,
            Ns::Ds => self.ds,
            Ns::Md => self.md,
        }
    }

    /// This one is too.
    pub(crate) fn with(mut self, ns: Ns) -> Declared
        ensures { result ≡ also_declared self ns }
    {
        match ns {
            Ns::Saml => self.saml = true,
            Ns::Samlp => self.samlp = true,
            Ns::Ds => self.ds = true,
            Ns::Md => self.md = true,
        }
        self
    }
}
