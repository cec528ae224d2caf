// The statements of an assertion: the authentication and the attributes.
ghost use Rattle.std.specs.Prelude.{◌≡◌, ℕ, List, ◌++◌, map, codes, IfOk, MatchResult};
ghost use Rattle.std.specs.Option.{option_map};
ghost use Rattle.tree_read.specs.Faults.{IsShapeFault};
ghost use Rattle.assertion_model.specs.Contents.{Part, text, each};
ghost use Rattle.assertion_model.specs.Login.{children, session, instants, authentication, attribute, attributes};
ghost use Rattle.assertion_model.specs.Parts.{part_of};
ghost use Rattle.assertion_model.specs.Reading.{Reads};

use crate::look::{all_children, first_child, next_child, text_of, value_of};
use crate::parts::Session;
use crate::values::{moment_at, moment_if_any, text_at};
use owned_values::{Attribute, Attributes, NoMemory, Texts};
use std::alloc::Global;
use tree_read::{At, ShapeFault};

/// Asks that each AuthnStatement tell the moment of the authentication (SAML Core, 2.7.2).
///
/// # Errors
///
/// `WrongShape`, exactly where one does not.
fn check_instants(alloc: Global, at: At<'_, '_>) -> Result<(), ShapeFault>
    ensures { MatchResult result (λ _. (moments : List ℕ) × (instants (children (codes "AuthnStatement") (part_of at.entry).kids) ≡ Some moments))
        (λ fault. IsShapeFault fault (instants (children (codes "AuthnStatement") (part_of at.entry).kids) ≡ None)) }
{
    let mut left = all_children(at);
    while let Some(statement) = next_child(&mut left, "AuthnStatement") {
        moment_at(alloc, statement, "AuthnInstant")?;
    }
    Ok(())
}

/// The session that an AuthnStatement says (SAML Core, 2.7.2).
///
/// # Errors
///
/// `WrongShape`, exactly where its end is no moment.
fn read_session(alloc: Global, at: At<'_, '_>) -> Result<Session, ShapeFault>
    ensures { Reads result (session (part_of at.entry)) }
{
    let index = value_of(alloc, at, "SessionIndex")?;
    let until = moment_if_any(alloc, at, "SessionNotOnOrAfter")?;
    Ok(Session { index, until })
}

/// The session of the authentication (SAML Core, 2.7.2).
///
/// # Errors
///
/// `WrongShape`, exactly where there is no AuthnStatement, or one does not tell its moment, or the first says no session.
pub(crate) fn read_authentication(alloc: Global, at: At<'_, '_>) -> Result<Session, ShapeFault>
    ensures { Reads result (authentication (children (codes "AuthnStatement") (part_of at.entry).kids)) }
{
    check_instants(alloc, at)?;
    let Some(statement) = first_child(at, "AuthnStatement") else {
        return Err(ShapeFault::WrongShape);
    };
    read_session(alloc, statement)
}

/// The values of an Attribute (SAML Core, 2.7.3.1.1).
fn read_values(alloc: Global, at: At<'_, '_>) -> Result<Texts, NoMemory>
    ensures { IfOk result (λ found. found ≡ map (λ (v : Part). text v.kids) (children (codes "AttributeValue") (part_of at.entry).kids)) }
{
    let mut found = Texts::new(alloc);
    let mut left = all_children(at);
    while let Some(value) = next_child(&mut left, "AttributeValue") {
        found.push(text_of(alloc, value)?)?;
    }
    Ok(found)
}

/// An Attribute (SAML Core, 2.7.3.1).
///
/// # Errors
///
/// `WrongShape`, exactly where it has no Name.
fn read_attribute(alloc: Global, at: At<'_, '_>) -> Result<Attribute, ShapeFault>
    ensures { Reads result (attribute (part_of at.entry)) }
{
    let name = text_at(alloc, at, "Name")?;
    let values = read_values(alloc, at)?;
    Ok(Attribute { name, values })
}

/// Adds the attributes of a statement (SAML Core, 2.7.3).
///
/// # Errors
///
/// `WrongShape`, exactly where one has no Name.
fn add_attributes(alloc: Global, at: At<'_, '_>, found: &mut Attributes) -> Result<(), ShapeFault>
    ensures { MatchResult result
        (λ _. option_map (λ (more : List Attribute). found.old ++ more) (each attribute (children (codes "Attribute") (part_of at.entry).kids)) ≡ Some found.new)
        (λ fault. IsShapeFault fault (each attribute (children (codes "Attribute") (part_of at.entry).kids) ≡ None)) }
{
    let mut left = all_children(at);
    while let Some(attribute) = next_child(&mut left, "Attribute") {
        let attribute = read_attribute(alloc, attribute)?;
        found.push(attribute)?;
    }
    Ok(())
}

/// The attributes of all statements (SAML Core, 2.7.3).
///
/// # Errors
///
/// `WrongShape`, exactly where one has no Name.
pub(crate) fn read_attributes(alloc: Global, at: At<'_, '_>) -> Result<Attributes, ShapeFault>
    ensures { Reads result (attributes (part_of at.entry).kids) }
{
    let mut found = Attributes::new(alloc);
    let mut left = all_children(at);
    while let Some(statement) = next_child(&mut left, "AttributeStatement") {
        add_attributes(alloc, statement, &mut found)?;
    }
    Ok(found)
}
