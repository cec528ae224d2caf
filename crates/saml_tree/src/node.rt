// Nodes by number, and what is said of one.

use owned_values::NoMemory;
use std::alloc::{AllocError, AllocFailed};

/// The number of a node: its place in document order, from 0.
#[derive(Clone, Copy, Debug, PartialEq, Eq)]
pub struct NodeNo(pub u32);

/// What a node is (XML 1.0, 2.4 to 2.6 and 3). Neighbouring characters make one text.
#[derive(Clone, Copy, Debug, PartialEq, Eq)]
pub enum NodeKind {
    /// An element, with its attributes and its kids.
    Element,
    /// A run of characters in an element.
    Text,
    /// A comment.
    Comment,
    /// A processing instruction.
    Instruction,
}

/// Where a document speaks of a namespace.
#[derive(Clone, Copy, Debug, PartialEq, Eq)]
pub enum NameAt {
    /// The name of this element.
    Element(NodeNo),
    /// The name of attribute i of this element, counted from 0, declarations of namespaces with them.
    Attribute(NodeNo, usize),
    /// What attribute i of this element, which is a declaration, binds its prefix to.
    Declaration(NodeNo, usize),
}

/// A name as it is written, in two parts, and the namespace that it is in (Namespaces in XML 1.0, 4).
#[derive(Clone, Copy, Debug, PartialEq, Eq)]
pub struct Name<'d> {
    /// What stands before the colon; empty where there is none.
    pub prefix: &'d str,
    /// What stands behind the colon, or the whole name.
    pub local: &'d str,
    /// The name of the namespace; empty where the name is in none.
    pub namespace: &'d str,
}

/// Why a document is refused: the first of these that holds of the whole text.
#[derive(Clone, Copy, Debug, PartialEq, Eq)]
pub enum TreeFault {
    /// The bytes spell no tree (XML 1.0).
    BadXml,
    /// An element stands deeper than `MAX_DEPTH`, or has more than `MAX_ATTRIBUTES` attributes.
    XmlLimit,
    /// A name breaks a rule of Namespaces in XML 1.0.
    BadNames,
    /// Two elements have one ID.
    DuplicateId,
    /// Memory ran out.
    NoMemory,
}

impl From<AllocError> for TreeFault {
    ghost use Rattle.std.specs.Prelude.{◌≡◌};
    ghost use Rattle.saml_tree.specs.declared.node.TreeFault.TheVariants.{NoMemory};

    ghost from_gives = { λ _ e. e ≡ NoMemory };

    fn from(_: AllocError) -> TreeFault {
        TreeFault::NoMemory
    }
}

impl<T: Drop> From<AllocFailed<T>> for TreeFault {
    ghost use Rattle.std.specs.Prelude.{◌≡◌};
    ghost use Rattle.saml_tree.specs.declared.node.TreeFault.TheVariants.{NoMemory};

    ghost from_gives = { λ _ e. e ≡ NoMemory };

    fn from(_: AllocFailed<T>) -> TreeFault {
        TreeFault::NoMemory
    }
}

impl From<NoMemory> for TreeFault {
    ghost use Rattle.std.specs.Prelude.{◌≡◌};
    ghost use Rattle.saml_tree.specs.declared.node.TreeFault.TheVariants.{NoMemory};

    ghost from_gives = { λ _ e. e ≡ NoMemory };

    fn from(_: NoMemory) -> TreeFault {
        TreeFault::NoMemory
    }
}
