// The values of the attributes of an element.

ghost use Rattle.std.specs.Prelude.{◌≡◌, ◌↔◌, Some, IfOk, IfSome, IsSome, IsTrue};
ghost use Rattle.saml_tree.specs.NodeNames.{attribute_at};
ghost use Rattle.saml_tree.specs.Views.{name_view};
ghost use Rattle.tree_read.specs.Texts.{attribute_text};
ghost use Rattle.tree_read.specs.Places.{is_plain, value_at};
ghost use Rattle.tree_read.specs.Views.{tree_of};

use crate::at::At;
use owned_values::{NoMemory, Text};
use saml_tree::Name;
use std::alloc::Global;

/// Whether a name has no prefix, is in no namespace (that of a declaration is in one), and has this local part.
fn is_unprefixed(name: Name<'_>, local: &str) -> bool
    ensures { result ≡ is_plain (name_view name.entry) local.now }
{
    name.prefix.is_empty() && name.namespace.is_empty() && name.local == local
}

/// The number of the attribute that has this local name and no prefix, and declares no namespace.
fn attribute_number(at: At<'_, '_>, local: &str) -> Option<usize>
    ensures there { IfSome result (λ i. IsSome (attribute_at (tree_of at.entry) at.entry.node.0 i)) }
    ensures value { attribute_text (tree_of at.entry) at.entry.node.0 local.now
        ≡ value_at (tree_of at.entry) at.entry.node.0 result }
{
    for i in 0..at.doc.attr_count(at.node) {
        if is_unprefixed(at.doc.attr_name(at.node, i), local) {
            return Some(i);
        }
    }
    None
}

/// The value of the attribute that has this local name and no prefix; none where the element has no such attribute. A
/// declaration of a namespace is no such attribute.
pub fn attr_text(alloc: Global, at: At<'_, '_>, local: &str) -> Result<Option<Text>, NoMemory>
    ensures { IfOk result (λ found. found ≡ attribute_text (tree_of at.entry) at.entry.node.0 local.now) }
{
    let Some(i) = attribute_number(at, local) else {
        return Ok(None);
    };
    let mut chars = String::new(alloc);
    at.doc.put_attr(at.node, i, &mut chars)?;
    let value = Text::of(alloc, chars.as_str())?;
    Ok(Some(value))
}

/// Whether the element has an attribute that has this local name and no prefix.
pub fn has_attr(at: At<'_, '_>, local: &str) -> bool
    ensures { IsTrue result ↔ IsSome (attribute_text (tree_of at.entry) at.entry.node.0 local.now) }
{
    attribute_number(at, local).is_some()
}

/// Whether the element has an attribute that has this local name and no prefix, and this value.
pub fn attr_equals(at: At<'_, '_>, local: &str, value: &str) -> bool
    ensures { IsTrue result ↔ (attribute_text (tree_of at.entry) at.entry.node.0 local.now ≡ Some value.now) }
{
    match attribute_number(at, local) {
        Some(i) => at.doc.attr_is(at.node, i, value),
        None => false,
    }
}
