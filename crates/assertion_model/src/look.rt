// What a content shows of an element of a document: the values of its attributes, its text and its children.
ghost use Rattle.std.specs.Prelude.{◌≡◌, ℕ, List, [], ◌∷◌, is_some, IfOk, MatchOption, MatchResult};
ghost use Rattle.std.specs.Option.{option_map};
ghost use Rattle.tree_read.specs.Texts.{trimmed};
ghost use Rattle.assertion_model.specs.Contents.{text, value, only, at_most_one, first};
ghost use Rattle.assertion_model.specs.Login.{children, has_value};
ghost use Rattle.assertion_model.specs.Parts.{part_of, left_of};

use owned_values::{NoMemory, Text};
use saml_names::{SAML, saml};
use std::alloc::Global;
use tree_read::{At, ElementChildren, OtherShape};

/// The value of the attribute that has this local name and is in no namespace.
pub(crate) fn value_of(alloc: Global, at: At<'_, '_>, local: &str) -> Result<Option<Text>, NoMemory>
    ensures { IfOk result (λ found. found ≡ value local.now (part_of at.entry).attributes) }
{
    // The names of the document are in order, which its root tells.
    let _ = at.doc.root();
    tree_read::attr_text(alloc, at, local)
}

/// Whether there is such an attribute.
pub(crate) fn has_attribute(at: At<'_, '_>, local: &str) -> bool
    ensures { result ≡ is_some (value local.now (part_of at.entry).attributes) }
{
    let _ = at.doc.root();
    tree_read::has_attr(at, local)
}

/// Whether there is such an attribute, and it has this value.
pub(crate) fn has_value(at: At<'_, '_>, local: &str, wanted: &str) -> bool
    ensures { result ≡ has_value local.now wanted.now (part_of at.entry) }
{
    let _ = at.doc.root();
    tree_read::attr_equals(at, local, wanted)
}

/// The text of the element.
pub(crate) fn text_of(alloc: Global, at: At<'_, '_>) -> Result<Text, NoMemory>
    ensures { IfOk result (λ found. found ≡ text (part_of at.entry).kids) }
{
    tree_read::text_of(alloc, at)
}

/// The same without the white space at both ends.
pub(crate) fn trimmed_text_of(alloc: Global, at: At<'_, '_>) -> Result<Text, NoMemory>
    ensures { IfOk result (λ found. found ≡ trimmed (text (part_of at.entry).kids)) }
{
    tree_read::trimmed(alloc, at)
}

/// The element children, all of which are left.
pub(crate) fn all_children<'d, 'a>(at: At<'d, 'a>) -> ElementChildren<'d, 'a>
    ensures { (local : List ℕ) → left_of local result ≡ children local (part_of at.entry).kids }
{
    ElementChildren::of(at)
}

/// Takes the next child of assertions that has this local name.
pub(crate) fn next_child<'d, 'a>(
    left: &mut ElementChildren<'d, 'a>,
    local: &str,
) -> Option<At<'d, 'a>>
    ensures { MatchOption result (left_of local.now left.old ≡ []) (λ at. left_of local.now left.old ≡ part_of at ∷ left_of local.now left.new) }
{
    left.next_named(saml(local))
}

/// The first child of assertions that has this local name.
pub(crate) fn first_child<'d, 'a>(at: At<'d, 'a>, local: &str) -> Option<At<'d, 'a>>
    ensures { option_map part_of result ≡ first (children local.now (part_of at.entry).kids) }
{
    let mut left = all_children(at);
    next_child(&mut left, local)
}

/// The only child of assertions that has this local name.
///
/// # Errors
///
/// `OtherShape`, exactly where there is none or several.
pub(crate) fn only_child<'d, 'a>(at: At<'d, 'a>, local: &str) -> Result<At<'d, 'a>, OtherShape>
    ensures { MatchResult result (λ child. only (children local.now (part_of at.entry).kids) ≡ Some (part_of child))
        (λ _. only (children local.now (part_of at.entry).kids) ≡ None) }
{
    match tree_read::only_child(at, SAML, local) {
        Ok(child) => Ok(child),
        Err(_) => Err(OtherShape),
    }
}

/// The child of assertions that has this local name, where there is one.
///
/// # Errors
///
/// `OtherShape`, exactly where there are several.
pub(crate) fn child_if_any<'d, 'a>(
    at: At<'d, 'a>,
    local: &str,
) -> Result<Option<At<'d, 'a>>, OtherShape>
    ensures { MatchResult result (λ child. at_most_one (children local.now (part_of at.entry).kids) ≡ Some (option_map part_of child))
        (λ _. at_most_one (children local.now (part_of at.entry).kids) ≡ None) }
{
    tree_read::at_most_one(at, saml(local))
}
