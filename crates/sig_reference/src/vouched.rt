// Elements that are vouched for.

ghost use Rattle.std.specs.Prelude.{◌≡◌};
ghost use Rattle.saml_tree.specs.Elements.{IsElement};
ghost use Rattle.sig_reference.specs.Vouching.{IsVouched, IsIn};

use saml_tree::{Doc, NodeNo};
use std::marker::Model;
use tree_read::At;

/// An element of a document that a signature in it vouches for. `verify`, `verify_first` and `within` alone make one.
#[derive(Drop)]
pub struct Vouched<'d, 'a> {
    doc: &'d Doc<'a>,
    node: NodeNo,
    signature: NodeNo,
}

impl<'d, 'a> Model for Vouched<'d, 'a> {
    ghost use Rattle.sig_reference.specs.Vouching.{VouchedView, coded_vouched};

    ghost Value = { VouchedView };

    ghost coded = { coded_vouched };

    ghost use Rattle.saml_tree.specs.Elements.{IsElement};
    ghost use Rattle.sig_reference.specs.Vouching.{IsVouched};

    ghost view = { λ v. record { document = v.doc.now; node = v.node.0; signature = v.signature.0 } };

    ghost invariant = { λ v. IsElement v.doc.now.tree v.node.0 × IsVouched (record { document = v.doc.now; node = v.node.0; signature = v.signature.0 }) };
}

impl<'d, 'a> Vouched<'d, 'a> {
    /// The element, made by the calls of this crate alone.
    pub(crate) fn of(doc: &'d Doc<'a>, node: NodeNo, signature: NodeNo) -> Vouched<'d, 'a>
        requires element { IsElement doc.now.tree node.0 }
        requires vouched { IsVouched (record { document = doc.now; node = node.0; signature = signature.0 }) }
        ensures { result ≡ record { document = doc.now; node = node.0; signature = signature.0 } }
    {
        Vouched {
            doc,
            node,
            signature,
        }
    }

    /// Where the element stands.
    pub fn at(&self) -> At<'d, 'a>
        ensures document { result.doc.now ≡ self.now.document }
        ensures node { result.node.0 ≡ self.now.node }
        ensures element { IsElement self.now.document.tree self.now.node }
        // A signature vouches for it under some key.
        ensures vouched { IsVouched self.now }
    {
        At {
            doc: self.doc,
            node: self.node,
        }
    }

    /// The number of the Signature.
    pub fn signature(&self) -> NodeNo
        ensures number { result.0 ≡ self.now.signature }
        ensures element { IsElement self.now.document.tree self.now.signature }
    {
        self.signature
    }
}

/// An element in one that is vouched for, and not in its Signature: the same signature vouches for it. It takes no
/// memory.
pub fn within<'d, 'a>(v: &Vouched<'d, 'a>, node: NodeNo) -> Vouched<'d, 'a>
    requires element { IsElement v.now.document.tree node.0 }
    requires inside { IsIn v.now.document.tree v.now.node node.0 }
    requires outside { ¬ (IsIn v.now.document.tree v.now.signature node.0) }
    ensures { result ≡ record { document = v.now.document; node = node.0; signature = v.now.signature } }
{
    Vouched {
        doc: v.doc,
        node,
        signature: v.signature,
    }
}
