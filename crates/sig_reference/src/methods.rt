// Methods of a signature: an algorithm, and what parameters it may have (XML Signature, 4.3 and 6).

ghost use Rattle.std.specs.Prelude.{ℕ, ◌↔◌, List, IfOk, IfErr, IsTrue, OnOk, OnErr};
ghost use Rattle.tree_read.specs.Faults.{IsShapeFault};
ghost use Rattle.tree_read.specs.Views.{tree_of};
ghost use Rattle.sig_reference.specs.Form.{HasAlgorithm, IsMethod, IsPrefixList, IsCanonicalization};

use crate::uris::EXCLUSIVE;
use crate::words::{are_prefixes, words};
use owned_values::Texts;
use saml_names::ExpandedName;
use std::alloc::Global;
use tree_read::{At, ElementChildren, OtherShape, ShapeFault, attr_equals, attr_text};

/// Whether an element has this algorithm.
fn has_algorithm(at: At<'_, '_>, algorithm: &str) -> bool
    ensures { IsTrue result ↔ HasAlgorithm (tree_of at.entry) at.entry.node.0 algorithm.now }
{
    attr_equals(at, "Algorithm", algorithm)
}

/// Asks for a method that has this algorithm and no parameter.
///
/// # Errors
///
/// `OtherShape`, exactly where it is no such method.
pub(crate) fn check_method(at: At<'_, '_>, algorithm: &str) -> Result<(), OtherShape>
    ensures ok { OnOk result (IsMethod (tree_of at.entry) at.entry.node.0 algorithm.now) }
    ensures other { OnErr result (¬ (IsMethod (tree_of at.entry) at.entry.node.0 algorithm.now)) }
{
    if has_algorithm(at, algorithm) && ElementChildren::of(at).is_done() {
        Ok(())
    } else {
        Err(OtherShape)
    }
}

/// The prefixes that InclusiveNamespaces lists.
///
/// # Errors
///
/// `WrongShape`, exactly where it has no PrefixList or lists what is no prefix.
fn read_prefixes(alloc: Global, at: At<'_, '_>) -> Result<Texts, ShapeFault>
    ensures ok { IfOk result (λ prefixes. IsPrefixList (tree_of at.entry) at.entry.node.0 prefixes) }
    ensures other { IfErr result (λ fault. IsShapeFault fault ((prefixes : List (List ℕ)) → ¬ (IsPrefixList (tree_of at.entry) at.entry.node.0 prefixes))) }
{
    let Some(list) = attr_text(alloc, at, "PrefixList")? else {
        return Err(ShapeFault::WrongShape);
    };
    let prefixes = words(alloc, list.as_str())?;
    if are_prefixes(&prefixes) {
        Ok(prefixes)
    } else {
        Err(ShapeFault::WrongShape)
    }
}

/// The prefixes of an exclusive canonicalization, none where it has no parameter.
///
/// # Errors
///
/// `WrongShape`, exactly where it is none.
pub(crate) fn read_canonicalization(alloc: Global, at: At<'_, '_>) -> Result<Texts, ShapeFault>
    ensures ok { IfOk result (λ prefixes. IsCanonicalization (tree_of at.entry) at.entry.node.0 prefixes) }
    ensures other { IfErr result (λ fault. IsShapeFault fault ((prefixes : List (List ℕ)) → ¬ (IsCanonicalization (tree_of at.entry) at.entry.node.0 prefixes))) }
{
    if !has_algorithm(at, EXCLUSIVE) {
        return Err(ShapeFault::WrongShape);
    }
    let mut children = ElementChildren::of(at);
    if children.is_done() {
        return Ok(Texts::new(alloc));
    }
    let parameter = children.take(ExpandedName {
        namespace: EXCLUSIVE,
        local: "InclusiveNamespaces",
    })?;
    children.end()?;
    read_prefixes(alloc, parameter)
}
