// The children of an element that have a name.

ghost use Rattle.std.specs.Prelude.{◌≡◌, ◌<◌, [], ◌∷◌, length, slice_get, IfOk, IfErr, IfSome, OnErr};
ghost use Rattle.std.specs.List.{AllByRecursion};
ghost use Rattle.std.specs.Option.{option_map};
ghost use Rattle.saml_names.specs.Views.{name_of};
ghost use Rattle.saml_tree.specs.Elements.{IsElement};
ghost use Rattle.tree_read.specs.Children.{children};
ghost use Rattle.tree_read.specs.Views.{tree_of, numbers_of, IsNotOne};

use crate::at::At;
use crate::fault::OtherShape;
use crate::nodes::Nodes;
use crate::walk::ElementChildren;
use owned_values::NoMemory;
use saml_names::ExpandedName;
use std::alloc::Global;

/// Why an element has not just one child of a name.
#[derive(Clone, Copy, Debug, PartialEq, Eq)]
pub enum ChildFault {
    /// There is none.
    NotThere,
    /// There are so many, at least two.
    NotOne(u32),
}

/// The only child that has this expanded name (Namespaces in XML 1.0, 2.1).
///
/// # Errors
///
/// `NotThere`, exactly where there is no such child; `NotOne`, exactly where there are several, with their count.
pub fn only_child<'d, 'a>(
    at: At<'d, 'a>,
    namespace: &str,
    local: &str,
) -> Result<At<'d, 'a>, ChildFault>
    ensures found { IfOk result (λ child. (children (tree_of at.entry) at.entry.node.0 (record { namespace = namespace.now; local = local.now })
        ≡ child.node.0 ∷ []) × (child.doc.now ≡ at.entry.doc.now)) }
    ensures refused { IfErr result (IsNotOne (children (tree_of at.entry) at.entry.node.0 (record { namespace = namespace.now; local = local.now }))) }
{
    let name = ExpandedName { namespace, local };
    let count = ElementChildren::of(at).count(name);
    let Some(child) = first_child(at, name) else {
        return Err(ChildFault::NotThere);
    };
    if count == 1 {
        Ok(child)
    } else {
        Err(ChildFault::NotOne(count))
    }
}

/// The first child that has this name; none where there is none.
pub fn first_child<'d, 'a>(at: At<'d, 'a>, name: ExpandedName<'_>) -> Option<At<'d, 'a>>
    ensures found { option_map (λ child. child.node.0) result ≡ slice_get (children (tree_of at.entry) at.entry.node.0 (name_of name.entry)) 0 }
    ensures there { IfSome result (λ child. child.doc.now ≡ at.entry.doc.now) }
{
    ElementChildren::of(at).next_named(name)
}

/// The only child that has this name, or none where there is none.
///
/// # Errors
///
/// `OtherShape`, exactly where there are several.
pub fn at_most_one<'d, 'a>(
    at: At<'d, 'a>,
    name: ExpandedName<'_>,
) -> Result<Option<At<'d, 'a>>, OtherShape>
    ensures found { IfOk result (λ child. children (tree_of at.entry) at.entry.node.0 (name_of name.entry) ≡ numbers_of child) }
    ensures there { IfOk result (λ child. IfSome child (λ c. c.doc.now ≡ at.entry.doc.now)) }
    ensures several { OnErr result (1 < length (children (tree_of at.entry) at.entry.node.0 (name_of name.entry))) }
{
    match only_child(at, name.namespace, name.local) {
        Ok(child) => Ok(Some(child)),
        Err(ChildFault::NotThere) => Ok(None),
        Err(ChildFault::NotOne(_)) => Err(OtherShape),
    }
}

/// The children that have this expanded name (Namespaces in XML 1.0, 2.1), in document order.
pub fn children(
    alloc: Global,
    at: At<'_, '_>,
    namespace: &str,
    local: &str,
) -> Result<Nodes, NoMemory>
    ensures found { IfOk result (λ found. found ≡ children (tree_of at.entry) at.entry.node.0 (record { namespace = namespace.now; local = local.now })) }
    ensures elements { IfOk result (λ found. AllByRecursion (λ n. IsElement (tree_of at.entry) n) found) }
{
    let name = ExpandedName { namespace, local };
    let mut found = Nodes::new(alloc);
    let mut left = ElementChildren::of(at);
    while let Some(child) = left.next_named(name) {
        found.push(child.node)?;
    }
    Ok(found)
}
