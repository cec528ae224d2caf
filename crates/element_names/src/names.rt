// The names of an element: whether they keep the rules of Namespaces in XML 1.0, and which namespace each is in.

ghost use Rattle.std.specs.Prelude.{◌≡◌, ◌⊎◌, ◌↔◌, ◌++◌, length, map, Some, MatchOption, IsTrue, is_some, IfOk, IfErr, OnOk, slice_get};
ghost use Rattle.std.specs.List.{list_any, AllByRecursion};
ghost use Rattle.xml_spec.specs.Characters.{at_colon};
ghost use Rattle.xml_spec.specs.Names.{IsNamed, IsInScope, IsBinding, element_name, attribute_name, namespace_of};
ghost use Rattle.xml_tokens.specs.Views.{attribute_view};
ghost use Rattle.element_names.specs.Keys.{are_apart, key_view};
ghost use Rattle.element_names.specs.Spaces.{scope_of, IsReady, Grows};
ghost use Rattle.element_names.specs.Named.{name_key, proper_keys, IsWellElement, IsWellAttribute, IsExpanded, AreExpanded, AreInTable, listed, expanded_view, are_apart_expanded, IsResolvedElement};

use crate::distinct::{Key, are_distinct};
use crate::fault::NameFault;
use crate::qualified::{declared_prefix, is_binding, is_qualified};
use crate::spaces::{NONE, Spaces};
use std::alloc::{AllocError, Global};
use xml_tokens::{Attribute, AttributeValue, WrittenName};

/// The number of the namespace of an element's name, and where the numbers of its attributes begin in a list for the whole
/// document: one for each, in order. A declaration has that of the namespace which it binds its prefix to. Those of another
/// node say nothing.
#[derive(Clone, Copy, Debug)]
pub struct RowNames {
    /// That of the element's name.
    pub element: u32,
    /// Where those of its attributes begin.
    pub from: u32,
}

/// What is kept of an attribute's name, and whether it declares nothing.
#[derive(Debug, Drop)]
struct Expanded<'a> {
    is_proper: bool,
    namespace: u32,
    local: &'a str,
}

/// Room for the names of one element after the other. What was put into it for one says nothing of the next.
#[derive(Debug, Drop)]
pub struct Room<'a> {
    keys: Vec<Key<'a>>,
    names: Vec<Expanded<'a>>,
}

impl<'a> Room<'a> {
    /// Room without a name. It takes no memory.
    pub fn new(alloc: Global) -> Room<'a> {
        Room {
            keys: Vec::new(alloc),
            names: Vec::new(alloc),
        }
    }
}

/// The number of the namespace of an element's name, where nothing forbids the name.
fn element_number(spaces: &Spaces<'_>, name: &WrittenName<'_>) -> Option<u32>
    requires { IsReady spaces.now }
    ensures { MatchOption result (¬ (IsWellElement (scope_of spaces.now) name.now))
        (λ n. IsWellElement (scope_of spaces.now) name.now
        × (slice_get spaces.now.table n ≡ Some (element_name (scope_of spaces.now) name.now).namespace)) }
{
    let prefix = name.prefix();
    if !is_qualified(name) || prefix == "xmlns" {
        return None;
    }
    match spaces.number_of(prefix) {
        Some(number) => Some(number),
        None if prefix.is_empty() => Some(NONE),
        None => None,
    }
}

/// The number of the namespace of the name of an attribute that is no declaration.
fn proper_number(spaces: &Spaces<'_>, name: &WrittenName<'_>) -> Option<u32>
    requires { IsReady spaces.now }
    ensures { MatchOption result (¬ (IsInScope (scope_of spaces.now) name.now))
        (λ n. IsInScope (scope_of spaces.now) name.now
        × (slice_get spaces.now.table n ≡ Some (attribute_name (scope_of spaces.now) name.now).namespace)) }
{
    let prefix = name.prefix();
    if prefix.is_empty() {
        Some(NONE)
    } else {
        spaces.number_of(prefix)
    }
}

/// The number of the namespace of a prefix that is declared; that of none where it is not.
fn bound_number(spaces: &Spaces<'_>, prefix: &str) -> u32
    requires { IsReady spaces.now }
    ensures { slice_get spaces.now.table result ≡ Some (namespace_of (scope_of spaces.now) prefix.now) }
{
    spaces.number_of(prefix).unwrap_or(NONE)
}

/// Whether a declaration may bind the prefix to the namespace of this name.
fn may_bind(alloc: Global, prefix: &str, value: &AttributeValue<'_>) -> Result<bool, AllocError>
    ensures { IfOk result (λ holds. IsTrue holds ↔ IsBinding (record { prefix = prefix.now; namespace = value.now })) }
{
    let namespace = value.text(alloc)?;
    Ok(is_binding(prefix, namespace.as_str()))
}

/// What is kept of an attribute's name, where nothing forbids the attribute by itself.
fn expand<'a>(
    alloc: Global,
    spaces: &Spaces<'_>,
    attribute: &Attribute<'a>,
) -> Result<Option<Expanded<'a>>, AllocError>
    requires { IsReady spaces.now }
    ensures { IfOk result (λ answer. MatchOption answer (¬ (IsWellAttribute (scope_of spaces.now) (attribute_view attribute.now)))
        (λ e. IsWellAttribute (scope_of spaces.now) (attribute_view attribute.now)
        × IsExpanded spaces.now.table (listed (scope_of spaces.now) (attribute_view attribute.now)) e)) }
{
    if !is_qualified(&attribute.name) {
        return Ok(None);
    }
    let local = attribute.name.local();
    let Some(prefix) = declared_prefix(&attribute.name) else {
        let Some(namespace) = proper_number(spaces, &attribute.name) else {
            return Ok(None);
        };
        return Ok(Some(Expanded {
            is_proper: true,
            namespace,
            local,
        }));
    };
    if may_bind(alloc, prefix, &attribute.value)? {
        Ok(Some(Expanded {
            is_proper: false,
            namespace: bound_number(spaces, prefix),
            local,
        }))
    } else {
        Ok(None)
    }
}

/// Puts what is kept of the attributes' names into a list.
fn expand_all<'a>(
    alloc: Global,
    spaces: &Spaces<'_>,
    attributes: &[Attribute<'a>],
    list: &mut Vec<Expanded<'a>>,
) -> Result<(), NameFault>
    requires { IsReady spaces.now }
    ensures well { OnOk result (AllByRecursion (IsWellAttribute (scope_of spaces.now)) (map attribute_view attributes.now)) }
    ensures ok { OnOk result (AreExpanded spaces.now.table (map (listed (scope_of spaces.now)) (map attribute_view attributes.now)) list.new.items) }
    ensures err { IfErr result (λ e. (e ≡ NameFault.NoMemory)
        ⊎ ((e ≡ NameFault.BadNames) × ¬ (AllByRecursion (IsWellAttribute (scope_of spaces.now)) (map attribute_view attributes.now)))) }
{
    list.clear();
    for attribute in attributes {
        let expanded = expand(alloc, spaces, attribute)?;
        let Some(name) = expanded else {
            return Err(NameFault::BadNames);
        };
        list.push(name)?;
    }
    Ok(())
}

/// The expanded names of those that declare nothing, with the numbers of their namespaces.
fn put_expanded<'a>(names: &[Expanded<'a>], keys: &mut Vec<Key<'a>>) -> Result<(), AllocError>
    ensures { OnOk result (keys.new.items ≡ proper_keys names.now) }
{
    keys.clear();
    for name in names {
        if name.is_proper {
            keys.push((name.namespace, name.local))?;
        }
    }
    Ok(())
}

/// Whether no two names that declare nothing are the same.
fn are_apart_expanded<'a>(
    spaces: &Spaces<'_>,
    names: &[Expanded<'a>],
    keys: &mut Vec<Key<'a>>,
) -> Result<bool, AllocError>
    requires { AreInTable spaces.now.table names.now }
    ensures { IfOk result (λ apart. apart ≡ are_apart_expanded (map (expanded_view spaces.now.table) names.now)) }
{
    spaces.table.has_each_once();
    put_expanded(names, keys)?;
    Ok(are_distinct(keys))
}

/// Whether a name of these has a prefix.
fn has_prefix(attributes: &[Attribute<'_>]) -> bool
    ensures { result ≡ list_any (λ a. is_some (at_colon a.name)) attributes.now }
{
    attributes
        .iter()
        .any(|attribute| attribute.name.has_colon())
}

/// Whether no two of an element's attributes, whose names differ, have one expanded name. Without prefixes they do not,
/// and nothing is compared.
fn are_expanded_apart<'a>(
    spaces: &Spaces<'_>,
    attributes: &[Attribute<'_>],
    names: &[Expanded<'a>],
    keys: &mut Vec<Key<'a>>,
) -> Result<bool, AllocError>
    requires names { AreExpanded spaces.now.table (map (listed (scope_of spaces.now)) (map attribute_view attributes.now)) names.now }
    requires apart { IsTrue (are_apart (map (λ a. a.name) (map attribute_view attributes.now))) }
    ensures { IfOk result (λ apart. apart ≡ are_apart_expanded (map (expanded_view spaces.now.table) names.now)) }
{
    if !has_prefix(attributes) {
        return Ok(true);
    }
    are_apart_expanded(spaces, names, keys)
}

/// Puts the numbers that are kept of these names behind others, and gives where they begin.
fn put_numbers(names: &[Expanded<'_>], numbers: &mut Vec<u32>) -> Result<u32, NameFault>
    ensures numbers { OnOk result (numbers.new.items ≡ numbers.old.items ++ map (λ e. e.namespace) names.now) }
    ensures from { IfOk result (λ from. from ≡ length numbers.old.items) }
    ensures err { IfErr result (λ e. e ≡ NameFault.NoMemory) }
{
    let Ok(from) = u32::try_from(numbers.len()) else {
        return Err(NameFault::NoMemory);
    };
    for name in names {
        numbers.push(name.namespace)?;
    }
    Ok(from)
}

/// The names of an element, in the scope with its own declarations. The numbers of its attributes are put behind those of
/// other elements.
///
/// # Errors
///
/// `BadNames`: a name breaks a rule of Namespaces in XML 1.0. `NoMemory`. More numbers may stand in the list then.
pub fn element_names<'a>(
    alloc: Global,
    spaces: &Spaces<'_>,
    name: &WrittenName<'_>,
    attributes: &[Attribute<'a>],
    room: &mut Room<'a>,
    numbers: &mut Vec<u32>,
) -> Result<RowNames, NameFault>
    requires { IsReady spaces.now }
    ensures named { OnOk result (IsNamed (scope_of spaces.now) name.now (map attribute_view attributes.now)) }
    ensures resolved { IfOk result (λ names. IsResolvedElement spaces.now.table numbers.new.items
        (scope_of spaces.now) name.now (map attribute_view attributes.now) names) }
    ensures grows { OnOk result (Grows numbers.old.items numbers.new.items) }
    ensures err { IfErr result (λ e. (e ≡ NameFault.NoMemory)
        ⊎ ((e ≡ NameFault.BadNames) × ¬ (IsNamed (scope_of spaces.now) name.now (map attribute_view attributes.now)))) }
{
    let Some(element) = element_number(spaces, name) else {
        return Err(NameFault::BadNames);
    };
    expand_all(alloc, spaces, attributes, &mut room.names)?;
    let apart = are_apart(attributes, &mut room.keys)?;
    if !apart {
        return Err(NameFault::BadNames);
    }
    let differ = are_expanded_apart(spaces, attributes, &room.names, &mut room.keys)?;
    if !differ {
        return Err(NameFault::BadNames);
    }
    let from = put_numbers(&room.names, numbers)?;
    Ok(RowNames { element, from })
}

/// The names of attributes, as they are written.
fn put_names<'a>(attributes: &[Attribute<'a>], keys: &mut Vec<Key<'a>>) -> Result<(), AllocError>
    ensures { OnOk result (map key_view keys.new.items ≡ map name_key attributes.now) }
{
    keys.clear();
    for attribute in attributes {
        keys.push((NONE, attribute.name.as_str()))?;
    }
    Ok(())
}

/// Whether no two attributes have one name as it is written.
fn are_apart<'a>(attributes: &[Attribute<'a>], keys: &mut Vec<Key<'a>>) -> Result<bool, AllocError>
    ensures { IfOk result (λ apart. apart ≡ are_apart (map (λ a. a.name) (map attribute_view attributes.now))) }
{
    put_names(attributes, keys)?;
    Ok(are_distinct(keys))
}
