// What is read of a document.

use crate::name::WrittenName;
use crate::value::AttributeValue;
use std::alloc::{AllocError, AllocFailed};

/// An attribute: its name as written, and its value.
#[derive(Debug, Drop)]
pub struct Attribute<'a> {
    /// The name as it is written.
    pub name: WrittenName<'a>,
    /// The value.
    pub value: AttributeValue<'a>,
}

/// One token of a document (XML 1.0, 2.4 to 3.1).
#[derive(Debug, Drop)]
pub enum Markup<'a> {
    /// A run of characters, as it is written: line ends are not translated.
    Characters(&'a str),
    /// A reference, and the character that it stands for.
    Reference(char),
    /// What a CDATA section holds, as it is written.
    Section(&'a str),
    /// What a comment holds, as it is written.
    Comment(&'a str),
    /// A processing instruction, its data as it is written.
    Instruction {
        /// The name of the application that it is meant for.
        target: &'a str,
        /// What stands behind the name and the white space.
        value: &'a str,
    },
    /// A start tag. Its attributes are put into the list that is lent.
    Start {
        /// The name of the element.
        name: WrittenName<'a>,
    },
    /// The tag of an element without content, and likewise.
    Empty {
        /// The name of the element.
        name: WrittenName<'a>,
    },
    /// An end tag.
    End {
        /// The name of the element.
        name: &'a str,
    },
}

/// Why no token is read.
#[derive(Clone, Copy, Debug, PartialEq, Eq)]
pub enum TokenFault {
    /// No valid tokens are written so.
    Invalid,
    /// Memory ran out.
    NoMemory,
}

impl From<AllocError> for TokenFault {
    ghost use Rattle.std.specs.Prelude.{◌≡◌};
    ghost use Rattle.xml_tokens.specs.declared.token.TokenFault.TheVariants.{NoMemory};

    ghost from_gives = { λ _ e. e ≡ NoMemory };

    fn from(_: AllocError) -> TokenFault {
        TokenFault::NoMemory
    }
}

impl<T: Drop> From<AllocFailed<T>> for TokenFault {
    ghost use Rattle.std.specs.Prelude.{◌≡◌};
    ghost use Rattle.xml_tokens.specs.declared.token.TokenFault.TheVariants.{NoMemory};

    ghost from_gives = { λ _ e. e ≡ NoMemory };

    fn from(_: AllocFailed<T>) -> TokenFault {
        TokenFault::NoMemory
    }
}
