// A place in a document.

ghost use Rattle.std.proofs.Props.{props};
ghost use Rattle.saml_tree.specs.Elements.{IsElement};

use saml_tree::{Doc, NodeNo};

/// An element of a document.
#[derive(Clone, Copy, Debug)]
pub struct At<'d, 'a> {
    /// The document.
    pub doc: &'d Doc<'a>,
    /// The number of the element.
    pub node: NodeNo,
    // The node is an element of the document.
    pub ghost element: { IsElement doc.now.tree node.0 } by { Prim.hlevel props },
}
