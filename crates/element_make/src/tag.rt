// Tags as they are written: Canonical XML 1.0, 2.3.
ghost use Rattle.std.specs.Prelude.{◌≡◌, ◌≤◌, ◌<◌, ℕ, [], ◌∷◌, length, true, false, slice_index_or, if◌then◌else◌, IfOk, OnOk, OnErr};
ghost use Rattle.std.specs.List.{flat_map};
ghost use Rattle.std.specs.Ordering.{is_le};
ghost use Rattle.xml_spec.specs.Canonical.{byte_order, print_attribute, print_binding};
ghost use Rattle.canon_octets.specs.Places.{AppendsPart};
ghost use Rattle.canon_octets.specs.Names.{joined_name};
ghost use Rattle.element_make.specs.Made.{qualified};
ghost use Rattle.element_make.specs.Views.{attribute_views, lent_views, open_view};
ghost use Rattle.element_make.specs.declared.tag.Lent.{Lent};
ghost use Rattle.element_make.specs.Writing.{binding, by_name, declares, start_tag, end_tag, opened};

use crate::names::Ns;
use crate::piece::{Attribute, Tag};
use crate::scope::Declared;
use canon_octets::{Octets, QualifiedName};
use owned_values::NoMemory;
use std::alloc::Global;

/// An element that is open: its name, and what is declared inside it.
#[derive(Clone, Copy, Debug)]
pub(crate) struct Open {
    ns: Ns,
    local: &'static str,
    pub(crate) inside: Declared,
}

impl Open {
    /// The element of this tag, inside others that declare these namespaces.
    pub(crate) fn of(tag: &Tag, outside: Declared) -> Open
        ensures { open_view result ≡ opened outside tag.now.ns tag.now.local.now }
    {
        Open {
            ns: tag.ns,
            local: tag.local,
            inside: outside.with(tag.ns),
        }
    }

    /// Appends its end tag.
    pub(crate) fn put_end<O: Octets>(&self, out: &mut O) -> Result<(), NoMemory>
        ensures ok { OnOk result (O.appends out.old out.new (end_tag (open_view self.now))) }
        ensures err { OnErr result (AppendsPart O.appends out.old out.new (end_tag (open_view self.now))) }
    {
        let name = name_of(self.ns, self.local);
        canon_octets::put_end(name, out)
    }
}

/// A qualified name.
fn name_of<'d>(ns: Ns, local: &'d str) -> QualifiedName<'d>
    ensures { joined_name result.prefix.now result.local.now ≡ qualified ns local.now }
{
    QualifiedName {
        prefix: ns.prefix(),
        local,
    }
}

/// Appends the declaration of a namespace, unless the elements outside declare it.
fn put_declaration<O: Octets>(ns: Ns, outside: Declared, out: &mut O) -> Result<(), NoMemory>
    ensures ok { OnOk result (O.appends out.old out.new (flat_map print_binding (if declares outside ns then [] else binding ns ∷ []))) }
    ensures err { OnErr result (AppendsPart O.appends out.old out.new
        (flat_map print_binding (if declares outside ns then [] else binding ns ∷ []))) }
{
    if outside.has(ns) {
        return Ok(());
    }
    canon_octets::put_declaration(ns.prefix(), ns.name(), out)
}

/// An attribute that is lent.
#[derive(Clone, Copy)]
struct Lent<'a> {
    name: &'a str,
    value: &'a str,
}

/// Appends an attribute.
fn put_attribute<O: Octets>(attribute: Lent<'_>, out: &mut O) -> Result<(), NoMemory>
    ensures ok { OnOk result (O.appends out.old out.new (print_attribute attribute.entry.name.now attribute.entry.value.now)) }
    ensures err { OnErr result (AppendsPart O.appends out.old out.new (print_attribute attribute.entry.name.now attribute.entry.value.now)) }
{
    let name = QualifiedName {
        prefix: "",
        local: attribute.name,
    };
    canon_octets::put_attribute(name, attribute.value, out)
}

/// Where an attribute goes among these ones: in front of the first whose name is not below its name.
fn place_of(attribute: Lent<'_>, others: &[Lent<'_>]) -> usize
    ensures within { result ≤ length others.now }
    ensures above { (k : ℕ) → (d : Lent) → k < result →
        is_le (byte_order attribute.entry.name.now (slice_index_or others.now k d).name.now) ≡ false }
    ensures place { (d : Lent) → result < length others.now →
        is_le (byte_order attribute.entry.name.now (slice_index_or others.now result d).name.now) ≡ true }
{
    for (place, other) in others.iter().enumerate() {
        if attribute.name.cmp(other.name).is_le() {
            return place;
        }
    }
    others.len()
}

/// The attributes in the order of their names (Canonical XML 1.0, 2.2). They are put in order by insertion: an element
/// of a message has six at most.
fn in_order(alloc: Global, attributes: &[Attribute]) -> Result<Vec<Lent<'_>>, NoMemory>
    ensures { IfOk result (λ order. lent_views order.items ≡ by_name (attribute_views attributes.now)) }
{
    let mut order = Vec::new(alloc);
    for i in (0..attributes.len()).rev() {
        let attribute = &attributes[i];
        let lent = Lent {
            name: attribute.name,
            value: attribute.value.as_str(),
        };
        let place = place_of(lent, order.as_slice());
        order.insert(place, lent)?;
    }
    Ok(order)
}

/// Appends the attributes of an element in order.
fn put_attributes<O: Octets>(
    alloc: Global,
    attributes: &[Attribute],
    out: &mut O,
) -> Result<(), NoMemory>
    ensures ok { OnOk result (O.appends out.old out.new
        (flat_map (λ a. print_attribute a.name a.value) (by_name (attribute_views attributes.now)))) }
    ensures err { OnErr result (AppendsPart O.appends out.old out.new
        (flat_map (λ a. print_attribute a.name a.value) (by_name (attribute_views attributes.now)))) }
{
    let order = in_order(alloc, attributes)?;
    for attribute in &order {
        put_attribute(*attribute, out)?;
    }
    Ok(())
}

/// Appends the start tag of an element inside others that declare these namespaces.
pub(crate) fn put_start<O: Octets>(
    tag: &Tag,
    outside: Declared,
    out: &mut O,
) -> Result<(), NoMemory>
    ensures ok { OnOk result (O.appends out.old out.new
        (start_tag outside tag.now.ns tag.now.local.now (attribute_views tag.now.attributes.items))) }
    ensures err { OnErr result (AppendsPart O.appends out.old out.new
        (start_tag outside tag.now.ns tag.now.local.now (attribute_views tag.now.attributes.items))) }
{
    let name = name_of(tag.ns, tag.local);
    let alloc = *tag.attributes.allocator();
    canon_octets::put_start(name, out)?;
    put_declaration(tag.ns, outside, out)?;
    put_attributes(alloc, tag.attributes.as_slice(), out)?;
    out.put(b">")
}
