// Why metadata is not read.

use owned_values::NoMemory;
use saml_tree::TreeFault;

/// Why metadata is not read.
#[derive(Clone, Copy, Debug, PartialEq, Eq)]
pub enum MetaFault {
    /// The text is no document that is read; never for want of memory.
    Tree(TreeFault),
    /// It does not describe one provider of a name, once in the role that is asked for.
    WrongShape,
    /// The provider has no address for sign-on by HTTP POST.
    NoPostService,
    /// Memory ran out.
    NoMemory,
}

impl From<NoMemory> for MetaFault {
    ghost use Rattle.std.specs.Prelude.{◌≡◌};
    ghost use Rattle.metadata.specs.declared.fault.MetaFault.TheVariants.{NoMemory};

    ghost from_gives = { λ _ e. e ≡ NoMemory };

    fn from(_: NoMemory) -> MetaFault {
        MetaFault::NoMemory
    }
}
