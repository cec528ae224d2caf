//! The names of elements and attributes.
ghost use Rattle.std.specs.Prelude.{◌≡◌, IsSome, IfSome};
ghost use Rattle.std.specs.Option.{option_map};
ghost use Rattle.xml_spec.specs.Characters.{prefix_of, local_of};
ghost use Rattle.xml_spec.specs.Numbering.{from_node};
ghost use Rattle.xml_spec.specs.Names.{HasNames, declared_prefix};
ghost use Rattle.saml_tree.specs.NodeNames.{attribute_at};
ghost use Rattle.saml_tree.specs.Elements.{IsElement, name_in};
ghost use Rattle.canon_octets.specs.Names.{joined_name};
ghost use Rattle.excl_c14n.specs.Shown.{prefix_declared_by};

use canon_octets::QualifiedName;
use saml_tree::{Doc, NodeNo};

/// The name of an element as it is written.
pub(crate) fn node_name<'d>(doc: &'d Doc<'_>, n: NodeNo) -> QualifiedName<'d>
    requires element { IsElement doc.now.tree n.0 }
    ensures { joined_name result.prefix.now result.local.now ≡ name_in (from_node doc.now.tree n.0) }
{
    QualifiedName::written(doc.written_name(n).as_str())
}

/// The name of attribute i of node n as it is written.
pub(crate) fn attribute_name<'d>(doc: &'d Doc<'_>, n: NodeNo, i: usize) -> QualifiedName<'d>
    requires there { IsSome (attribute_at doc.now.tree n.0 i) }
    ensures { IfSome (attribute_at doc.now.tree n.0 i) (λ a. joined_name result.prefix.now result.local.now ≡ a.name) }
{
    QualifiedName::written(doc.written_attr_name(n, i).as_str())
}

/// The prefix of an element's name.
pub(crate) fn element_prefix<'d>(doc: &'d Doc<'_>, n: NodeNo) -> &'d str
    requires element { IsElement doc.now.tree n.0 }
    ensures { result.now ≡ prefix_of (name_in (from_node doc.now.tree n.0)) }
{
    doc.written_name(n).prefix()
}

/// The prefix and the local part of the name of attribute i of node n.
pub(crate) fn attribute_parts<'d>(doc: &'d Doc<'_>, n: NodeNo, i: usize) -> (&'d str, &'d str)
    requires there { IsSome (attribute_at doc.now.tree n.0 i) }
    ensures { IfSome (attribute_at doc.now.tree n.0 i) (λ a.
        (result.0.now ≡ prefix_of a.name) × (result.1.now ≡ local_of a.name)) }
{
    let name = doc.written_attr_name(n, i);
    (name.prefix(), name.local())
}

/// The prefix that an attribute of these parts declares: a name is a declaration's where it is xmlns or begins with
/// xmlns: (Namespaces in XML 1.0, 3).
fn declared_by<'d>(prefix: &'d str, local: &'d str) -> Option<&'d str>
    ensures { option_map (λ p. p.now) result ≡ prefix_declared_by prefix.now local.now }
{
    if prefix == "xmlns" {
        Some(local)
    } else if prefix.is_empty() && local == "xmlns" {
        Some("")
    } else {
        None
    }
}

/// The prefix that attribute i of node n declares; none where it is a proper attribute.
pub(crate) fn declared<'d>(doc: &'d Doc<'_>, n: NodeNo, i: usize) -> Option<&'d str>
    requires there { IsSome (attribute_at doc.now.tree n.0 i) }
    requires names { HasNames doc.now.tree }
    ensures { IfSome (attribute_at doc.now.tree n.0 i) (λ a. option_map (λ p. p.now) result ≡ declared_prefix a.name) }
{
    let (prefix, local) = attribute_parts(doc, n, i);
    declared_by(prefix, local)
}
