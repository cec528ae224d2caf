//! The prefixes that are declared in a start tag.
ghost use Rattle.std.specs.Prelude.{◌≡◌, ℕ, List, ◌||◌, ◌&&◌, OnOk, IfOk};
ghost use Rattle.std.specs.Str.{bytes_eq};
ghost use Rattle.xml_spec.specs.Laws.{IsAscending};
ghost use Rattle.xml_spec.specs.Names.{Scope, HasNames, namespace_of};
ghost use Rattle.xml_spec.specs.Numbering.{from_node};
ghost use Rattle.xml_spec.specs.Canonical.{byte_order, used_prefixes, is_rendered_anew};
ghost use Rattle.saml_tree.specs.NodeNames.{IsNameAt};
ghost use Rattle.saml_tree.specs.Elements.{IsElement, name_in, attributes_in};
ghost use Rattle.excl_c14n.specs.Levels.{in_force, is_among};
ghost use Rattle.excl_c14n.specs.Pairs.{prefixes_in, space_at, ArePlaced};
ghost use Rattle.excl_c14n.specs.NodeByNode.{scope_inside, IsWanted};

use crate::names::{attribute_parts, declared, element_prefix};
use crate::placed::Placed;
use crate::rendered::Rendered;
use owned_values::NoMemory;
use saml_tree::{Doc, NameAt, NodeNo};
use std::alloc::Global;

/// Puts a prefix among those that are wanted, where it is to be declared. The place speaks of its namespace.
pub(crate) fn want<'d>(
    rendered: &Rendered<'_, '_>,
    prefix: &'d str,
    place: NameAt,
    wanted: &mut Placed<'d>,
) -> Result<(), NoMemory>
    requires place { IsNameAt rendered.now.tree place }
    requires ascending { IsAscending byte_order (prefixes_in wanted.old) }
    ensures ascending { OnOk result (IsAscending byte_order (prefixes_in wanted.new)) }
    ensures among { OnOk result ((scope : Scope) → space_at rendered.now.tree place ≡ namespace_of scope prefix.now →
        (q : List ℕ) → is_among q (prefixes_in wanted.new) ≡ (is_among q (prefixes_in wanted.old)
        || (bytes_eq q prefix.now && is_rendered_anew scope (in_force rendered.now.levels) q))) }
    ensures placed { OnOk result ((scope : Scope) → space_at rendered.now.tree place ≡ namespace_of scope prefix.now →
        ArePlaced rendered.now.tree scope wanted.old → ArePlaced rendered.now.tree scope wanted.new) }
{
    if rendered.is_anew(prefix, place) {
        wanted.add(prefix, place)?;
    }
    Ok(())
}

/// Those of the prefixes that element n uses that are to be declared (Exclusive C14N 1.0, 2).
pub(crate) fn want_used<'d>(
    alloc: Global,
    doc: &'d Doc<'_>,
    rendered: &Rendered<'_, '_>,
    n: NodeNo,
) -> Result<Placed<'d>, NoMemory>
    requires element { IsElement doc.now.tree n.0 }
    requires names { HasNames doc.now.tree }
    requires tree { rendered.now.tree ≡ doc.now.tree }
    ensures wanted { IfOk result (λ wanted. IsWanted (scope_inside doc.now.tree n.0) (in_force rendered.now.levels)
        (used_prefixes (name_in (from_node doc.now.tree n.0)) (attributes_in (from_node doc.now.tree n.0))) (prefixes_in wanted)) }
    ensures placed { IfOk result (λ wanted. ArePlaced doc.now.tree (scope_inside doc.now.tree n.0) wanted) }
{
    let mut wanted = Placed::new(alloc);
    want(
        rendered,
        element_prefix(doc, n),
        NameAt::Element(n),
        &mut wanted,
    )?;
    for i in 0..doc.attr_count(n) {
        let (prefix, _) = attribute_parts(doc, n, i);
        if declared(doc, n, i).is_none() && !prefix.is_empty() {
            want(rendered, prefix, NameAt::Attribute(n, i), &mut wanted)?;
        }
    }
    Ok(wanted)
}
