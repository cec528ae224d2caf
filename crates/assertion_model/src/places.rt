// Where the login of an element that is vouched for is read.
ghost use Rattle.std.specs.Prelude.{◌≡◌, ◌++◌, Some, None, IfOk, IfErr, OnOk};
ghost use Rattle.std.specs.Option.{option_map};
ghost use Rattle.std.specs.List.{AllByRecursion};
ghost use Rattle.saml_tree.specs.Elements.{IsElement};
ghost use Rattle.tree_read.specs.Views.{tree_of};
ghost use Rattle.assertion_model.specs.Faults.{IsLoginFault};
ghost use Rattle.assertion_model.specs.Places.{name_place, value_places, places_of_attribute, places_of_statement};

use crate::fault::LoginFault;
use owned_values::NoMemory;
use saml_names::saml;
use saml_tree::NodeNo;
use sig_reference::Vouched;
use std::alloc::Global;
use tree_read::{At, ElementChildren, Nodes, first_child};

/// Where a login is read in its document.
#[derive(Debug, Drop)]
pub struct Places {
    /// The NameID of the Subject (SAML Core, 2.4.1).
    pub name: NodeNo,
    /// The AttributeValues of all attributes, in document order (SAML Core, 2.7.3).
    pub values: Nodes,
}

/// Adds the values of an Attribute (SAML Core, 2.7.3.1).
fn add_of_attribute(at: At<'_, '_>, found: &mut Nodes) -> Result<(), NoMemory>
    ensures { OnOk result (found.new ≡ found.old ++ places_of_attribute (tree_of at.entry) at.entry.node.0) }
{
    let mut left = ElementChildren::of(at);
    while let Some(value) = left.next_named(saml("AttributeValue")) {
        found.push(value.node)?;
    }
    Ok(())
}

/// Adds those of all Attributes of a statement (SAML Core, 2.7.3).
fn add_of_statement(at: At<'_, '_>, found: &mut Nodes) -> Result<(), NoMemory>
    ensures { OnOk result (found.new ≡ found.old ++ places_of_statement (tree_of at.entry) at.entry.node.0) }
{
    let mut left = ElementChildren::of(at);
    while let Some(attribute) = left.next_named(saml("Attribute")) {
        add_of_attribute(attribute, found)?;
    }
    Ok(())
}

/// Those of all statements (SAML Core, 2.7.3).
fn read_values(alloc: Global, at: At<'_, '_>) -> Result<Nodes, NoMemory>
    ensures { IfOk result (λ found. found ≡ value_places (tree_of at.entry) at.entry.node.0) }
{
    let mut found = Nodes::new(alloc);
    let mut left = ElementChildren::of(at);
    while let Some(statement) = left.next_named(saml("AttributeStatement")) {
        add_of_statement(statement, &mut found)?;
    }
    Ok(found)
}

/// The NameID of the Subject, the first of each (SAML Core, 2.4.1).
fn read_name(at: At<'_, '_>) -> Option<NodeNo>
    ensures { option_map (λ n. n.0) result ≡ name_place (tree_of at.entry) at.entry.node.0 }
{
    let subject = first_child(at, saml("Subject"))?;
    let name = first_child(subject, saml("NameID"))?;
    Some(name.node)
}

/// Where the login of an element that is vouched for is read: its name and the values of its attributes. The laws
/// `a_login_is_read_at_its_places` and `places_lie_in_the_element` say what stands there, and where that is.
///
/// # Errors
///
/// `BadAssertion`, exactly where there is no Subject, or its first has no NameID.
pub fn read_places(alloc: Global, v: &Vouched<'_, '_>) -> Result<Places, LoginFault>
    ensures name { IfOk result (λ places. name_place v.now.document.tree v.now.node ≡ Some places.name.0) }
    ensures values { IfOk result (λ places. value_places v.now.document.tree v.now.node ≡ places.values) }
    ensures elements { IfOk result (λ places. IsElement v.now.document.tree places.name.0
        × AllByRecursion (λ n. IsElement v.now.document.tree n) places.values) }
    ensures bad { IfErr result (λ fault. IsLoginFault fault (name_place v.now.document.tree v.now.node ≡ None)) }
{
    let at = v.at();
    let Some(name) = read_name(at) else {
        return Err(LoginFault::BadAssertion);
    };
    let values = read_values(alloc, at)?;
    Ok(Places { name, values })
}
