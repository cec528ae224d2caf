// Nodes, and where they stand.

use xml_chars::Span;
use xml_tokens::{Attribute, ElementText, WrittenName};

/// Where a node stands among the others: the number of the element that it stands in, and the number behind the nodes
/// that stand in it.
#[derive(Clone, Copy, Debug)]
pub struct Link {
    /// The number of the element that it stands in.
    pub parent: usize,
    /// The number behind the nodes that stand in it.
    pub end: usize,
}

/// How many elements a node stands in, where it stands among the others, and the bytes that an element is written as, from
/// its first '<' to behind its last '>'.
#[derive(Clone, Copy, Debug)]
pub struct Place {
    /// How many elements the node stands in.
    pub depth: u32,
    /// Where it stands among the others.
    pub link: Link,
    /// The bytes that an element is written as.
    pub span: Span,
}

/// A node that nothing stands in. What it holds is kept as it is written.
#[derive(Debug, Drop)]
pub enum Leaf<'a> {
    /// A text.
    Text(ElementText<'a>),
    /// A comment, its line ends not translated.
    Comment(&'a str),
    /// A processing instruction, the line ends of its data not translated.
    Instruction {
        /// The name of the application that it is meant for.
        target: &'a str,
        /// What stands behind the name and the white space.
        value: &'a str,
    },
}

/// A node without its kids.
#[derive(Clone, Copy, Debug)]
pub enum Shape<'d, 'a> {
    /// An element, with its attributes in written order.
    Element {
        /// Its name.
        name: &'d WrittenName<'a>,
        /// Its attributes.
        attributes: &'d [Attribute<'a>],
    },
    /// Another node.
    Leaf(&'d Leaf<'a>),
}
