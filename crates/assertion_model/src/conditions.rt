// The Conditions of an assertion: when it is valid, and for whom.
ghost use Rattle.std.specs.Prelude.{◌≡◌, List, ◌∷◌, true, false, codes};
ghost use Rattle.std.specs.Bool.{MatchBool};
ghost use Rattle.std.specs.List.{list_all};
ghost use Rattle.tree_read.specs.Children.{Child, is_name};
ghost use Rattle.saml_names.specs.Names.{saml};
ghost use Rattle.assertion_model.specs.Contents.{names, at_most_one, each};
ghost use Rattle.assertion_model.specs.Login.{children, is_known, audiences, valid, valid_if_any};
ghost use Rattle.assertion_model.specs.Parts.{part_of};
ghost use Rattle.assertion_model.specs.Reading.{Reads};
ghost use Rattle.std.specs.Option.{option_and_then};

use crate::audiences::Audiences;
use crate::look::{all_children, child_if_any, next_child, trimmed_text_of};
use crate::parts::Valid;
use crate::values::moment_if_any;
use owned_values::Texts;
use saml_names::saml;
use std::alloc::Global;
use tree_read::{At, ElementChildren, ShapeFault};

/// Takes the next element where it has this name of assertions.
fn take_named(left: &mut ElementChildren<'_, '_>, local: &str) -> bool
    ensures { MatchBool result ((c : Child) × (left.old.left ≡ c ∷ left.new.left) × (is_name (saml local.now) c.name ≡ true))
        ((left.new.left ≡ left.old.left) × ((c : Child) (others : List Child) → left.old.left ≡ c ∷ others → is_name (saml local.now) c.name ≡ false)) }
{
    match left.take(saml(local)) {
        Ok(_) => true,
        Err(_) => false,
    }
}

/// Takes the next element where it is a condition that this profile knows (SAML Core, 2.5.1).
fn take_known(left: &mut ElementChildren<'_, '_>) -> bool
    ensures { MatchBool result ((c : Child) × (left.old.left ≡ c ∷ left.new.left) × (is_known c.name ≡ true))
        ((c : Child) (others : List Child) → left.old.left ≡ c ∷ others → is_known c.name ≡ false) }
{
    if take_named(left, "AudienceRestriction") {
        return true;
    }
    if take_named(left, "OneTimeUse") {
        return true;
    }
    take_named(left, "ProxyRestriction")
}

/// Whether this profile knows each condition (SAML Core, 2.5.1).
fn all_known(at: At<'_, '_>) -> bool
    ensures { result ≡ list_all is_known (names (part_of at.entry).kids) }
{
    let mut left = ElementChildren::of(at);
    while !left.is_done() {
        if !take_known(&mut left) {
            return false;
        }
    }
    true
}

/// The audiences of a restriction (SAML Core, 2.5.1.4).
///
/// # Errors
///
/// `WrongShape`, exactly where there is none.
fn read_audiences(alloc: Global, at: At<'_, '_>) -> Result<Texts, ShapeFault>
    ensures { Reads result (audiences (part_of at.entry)) }
{
    let mut found = Texts::new(alloc);
    let mut left = all_children(at);
    while let Some(audience) = next_child(&mut left, "Audience") {
        found.push(trimmed_text_of(alloc, audience)?)?;
    }
    if found.is_empty() {
        return Err(ShapeFault::WrongShape);
    }
    Ok(found)
}

/// The audiences of each restriction (SAML Core, 2.5.1.4).
///
/// # Errors
///
/// `WrongShape`, exactly where one has none.
fn read_restrictions(alloc: Global, at: At<'_, '_>) -> Result<Audiences, ShapeFault>
    ensures { Reads result (each audiences (children (codes "AudienceRestriction") (part_of at.entry).kids)) }
{
    let mut found = Audiences::new(alloc);
    let mut left = all_children(at);
    while let Some(restriction) = next_child(&mut left, "AudienceRestriction") {
        let audiences = read_audiences(alloc, restriction)?;
        found.push(audiences)?;
    }
    Ok(found)
}

/// What the Conditions say (SAML Core, 2.5.1).
///
/// # Errors
///
/// `WrongShape`, exactly where this profile does not know one of them, or a bound tells no moment.
fn read_valid(alloc: Global, at: At<'_, '_>) -> Result<Valid, ShapeFault>
    ensures { Reads result (valid (part_of at.entry)) }
{
    if !all_known(at) {
        return Err(ShapeFault::WrongShape);
    }
    let not_before = moment_if_any(alloc, at, "NotBefore")?;
    let not_on_or_after = moment_if_any(alloc, at, "NotOnOrAfter")?;
    let audiences = read_restrictions(alloc, at)?;
    Ok(Valid {
        not_before,
        not_on_or_after,
        audiences,
    })
}

/// When the assertion is valid, and for whom (SAML Core, 2.5.1).
///
/// # Errors
///
/// `WrongShape`, exactly where there are several Conditions, or they do not say it.
pub(crate) fn read_conditions(alloc: Global, at: At<'_, '_>) -> Result<Valid, ShapeFault>
    ensures { Reads result (option_and_then valid_if_any (at_most_one (children (codes "Conditions") (part_of at.entry).kids))) }
{
    let Some(conditions) = child_if_any(at, "Conditions")? else {
        return Ok(Valid {
            not_before: None,
            not_on_or_after: None,
            audiences: Audiences::new(alloc),
        });
    };
    read_valid(alloc, conditions)
}
