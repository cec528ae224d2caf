//! The order in which attributes are written.
ghost use Rattle.std.specs.Prelude.{◌≡◌, ℕ, ◌<◌, ◌≤◌, map, length, slice_index_or, true, false, Some, None, IsSome, IfSome, OnOk};
ghost use Rattle.std.specs.List.{All};
ghost use Rattle.std.specs.Ordering.{is_le};
ghost use Rattle.xml_spec.specs.Names.{HasNames, declared_prefix, attribute_name};
ghost use Rattle.xml_spec.specs.Numbering.{from_node};
ghost use Rattle.xml_spec.specs.Canonical.{expanded_order, written_attributes};
ghost use Rattle.xml_spec.specs.Laws.{IsNonDescending};
ghost use Rattle.saml_tree.specs.NodeNames.{attribute_at, IsNameAt};
ghost use Rattle.saml_tree.specs.Elements.{IsElement, attributes_in};
ghost use Rattle.excl_c14n.specs.NodeByNode.{attribute_name_of, scope_inside};
ghost use Rattle.excl_c14n.specs.Shown.{expanded_of};
ghost use Rattle.excl_c14n.specs.declared.order.Expanded.{Expanded};

use crate::names::{attribute_parts, declared};
use owned_values::NoMemory;
use saml_tree::{Doc, NameAt, NodeNo};
use std::alloc::Global;
use std::cmp::Ordering;

/// An expanded name (Namespaces in XML 1.0, 2.1), with a place that speaks of its namespace.
#[derive(Clone, Copy)]
struct Expanded<'d> {
    namespace: NameAt,
    local: &'d str,
}

/// The order of two expanded names: by the namespace, then by the local part (Canonical XML 1.0, 2.2). The time does not
/// grow with the namespaces' names, which many elements may share.
fn compare(doc: &Doc<'_>, a: Expanded<'_>, b: Expanded<'_>) -> Ordering
    requires one { IsNameAt doc.now.tree a.namespace }
    requires other { IsNameAt doc.now.tree b.namespace }
    ensures { result ≡ expanded_order (expanded_of doc.now.tree a.entry) (expanded_of doc.now.tree b.entry) }
{
    doc.namespace_order(a.namespace, b.namespace)
        .then(a.local.cmp(b.local))
}

/// The expanded name of attribute i of node n, which declares nothing.
fn name_of_attribute<'d>(doc: &'d Doc<'_>, n: NodeNo, i: usize) -> Expanded<'d>
    requires there { IsSome (attribute_at doc.now.tree n.0 i) }
    requires proper { IfSome (attribute_at doc.now.tree n.0 i) (λ a. declared_prefix a.name ≡ None) }
    ensures name { expanded_of doc.now.tree result
        ≡ attribute_name (scope_inside doc.now.tree n.0) (attribute_name_of doc.now.tree n.0 i) }
    ensures place { IsNameAt doc.now.tree result.namespace }
{
    let (_, local) = attribute_parts(doc, n, i);
    Expanded {
        namespace: NameAt::Attribute(n, i),
        local,
    }
}

/// Where a name goes among these ones, which are in order: in front of the first that is not below it.
fn place_of(doc: &Doc<'_>, name: Expanded<'_>, names: &[Expanded<'_>]) -> usize
    requires there { IsNameAt doc.now.tree name.namespace }
    requires places { All (λ kept. IsNameAt doc.now.tree kept.namespace) names.now }
    requires order { IsNonDescending expanded_order (map (expanded_of doc.now.tree) names.now) }
    ensures within { result ≤ length names.now }
    ensures above { (k : ℕ) → (d : Expanded) → k < result →
        is_le (expanded_order (expanded_of doc.now.tree name.entry) (expanded_of doc.now.tree (slice_index_or names.now k d))) ≡ false }
    ensures place { (d : Expanded) → result < length names.now →
        is_le (expanded_order (expanded_of doc.now.tree name.entry) (expanded_of doc.now.tree (slice_index_or names.now result d))) ≡ true }
{
    let mut low = 0;
    let mut high = names.len();
    while low < high {
        let middle = low + (high - low) / 2;
        if compare(doc, name, names[middle]).is_le() {
            high = middle;
        } else {
            low = middle + 1;
        }
    }
    low
}

/// Room for the order of one element's attributes after the other's. What was put into it for one says nothing of the next.
#[derive(Drop)]
pub(crate) struct Order<'d> {
    /// The numbers of the attributes, in order.
    pub(crate) numbers: Vec<usize>,
    names: Vec<Expanded<'d>>,
}

impl<'d> Order<'d> {
    /// Room without an attribute. It takes no memory.
    pub(crate) fn new(alloc: Global) -> Order<'d> {
        Order {
            numbers: Vec::new(alloc),
            names: Vec::new(alloc),
        }
    }
}

/// Puts the numbers of an element's attributes that declare nothing in the order of their expanded names. Each name is
/// taken once, and kept while the others are put in order.
pub(crate) fn put_in_order<'d>(
    doc: &'d Doc<'_>,
    n: NodeNo,
    order: &mut Order<'d>,
) -> Result<(), NoMemory>
    requires element { IsElement doc.now.tree n.0 }
    requires names { HasNames doc.now.tree }
    ensures { OnOk result (map (attribute_at doc.now.tree n.0) order.new.numbers.items
        ≡ map Some (written_attributes (scope_inside doc.now.tree n.0) (attributes_in (from_node doc.now.tree n.0)))) }
{
    order.numbers.clear();
    order.names.clear();
    for i in (0..doc.attr_count(n)).rev() {
        if declared(doc, n, i).is_some() {
            continue;
        }
        let name = name_of_attribute(doc, n, i);
        let place = place_of(doc, name, order.names.as_slice());
        order.names.insert(place, name)?;
        order.numbers.insert(place, i)?;
    }
    Ok(())
}
