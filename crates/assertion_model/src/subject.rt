// The head and the Subject of an assertion.
ghost use Rattle.std.specs.Prelude.{◌≡◌, ◌≤◌, codes, filter, IfOk};
ghost use Rattle.std.specs.Option.{option_map};
ghost use Rattle.saml_names.specs.Uris.{bearer};
ghost use Rattle.assertion_model.specs.Contents.{first};
ghost use Rattle.assertion_model.specs.Login.{children, has_value, confirmed, confirmation, user_name, head};
ghost use Rattle.assertion_model.specs.Parts.{part_of};
ghost use Rattle.assertion_model.specs.Reading.{Reads};

use crate::look::{
    all_children, first_child, has_attribute, has_value, next_child, only_child, text_of,
};
use crate::parts::{Confirmed, Head};
use crate::values::{moment_at, some_text_at, text_at};
use owned_values::Text;
use saml_names::BEARER;
use saml_time::LAST;
use std::alloc::Global;
use tree_read::{At, ShapeFault};

/// What the attributes of the Assertion say (SAML Core, 2.3.3).
///
/// # Errors
///
/// `WrongShape`, exactly where they are not those of an assertion of version 2.0.
pub(crate) fn read_head(alloc: Global, at: At<'_, '_>) -> Result<Head, ShapeFault>
    ensures { Reads result (head (part_of at.entry)) }
{
    if !has_value(at, "Version", "2.0") {
        return Err(ShapeFault::WrongShape);
    }
    let id = some_text_at(alloc, at, "ID")?;
    let issued = moment_at(alloc, at, "IssueInstant")?;
    Ok(Head { id, issued })
}

/// What a SubjectConfirmationData says (SAML Profiles, 4.1.4.2).
///
/// # Errors
///
/// `WrongShape`, exactly where it does not say what it has to.
fn read_confirmed(alloc: Global, at: At<'_, '_>) -> Result<Confirmed, ShapeFault>
    ensures read { Reads result (confirmed (part_of at.entry)) }
    ensures bound { IfOk result (λ confirmed. confirmed.until ≤ LAST) }
{
    if has_attribute(at, "NotBefore") {
        return Err(ShapeFault::WrongShape);
    }
    let recipient = text_at(alloc, at, "Recipient")?;
    let request = some_text_at(alloc, at, "InResponseTo")?;
    let until = moment_at(alloc, at, "NotOnOrAfter")?;
    Ok(Confirmed {
        recipient,
        request,
        until,
    })
}

/// The first confirmation of a bearer (SAML Core, 2.4.1.1).
fn bearer_confirmation<'d, 'a>(at: At<'d, 'a>) -> Option<At<'d, 'a>>
    ensures { option_map part_of result
        ≡ first (filter (has_value (codes "Method") bearer) (children (codes "SubjectConfirmation") (part_of at.entry).kids)) }
{
    let mut left = all_children(at);
    while let Some(confirmation) = next_child(&mut left, "SubjectConfirmation") {
        if has_value(confirmation, "Method", BEARER) {
            return Some(confirmation);
        }
    }
    None
}

/// What the consumed confirmation of the Subject says (SAML Core, 2.4.1.1).
///
/// # Errors
///
/// `WrongShape`, exactly where there is none, or it does not say what it has to.
pub(crate) fn read_confirmation(alloc: Global, at: At<'_, '_>) -> Result<Confirmed, ShapeFault>
    ensures read { Reads result (confirmation (part_of at.entry).kids) }
    ensures bound { IfOk result (λ confirmed. confirmed.until ≤ LAST) }
{
    let Some(consumed) = bearer_confirmation(at) else {
        return Err(ShapeFault::WrongShape);
    };
    let data = only_child(consumed, "SubjectConfirmationData")?;
    read_confirmed(alloc, data)
}

/// The name of the user (SAML Core, 2.4.1).
///
/// # Errors
///
/// `WrongShape`, exactly where the Subject has not just one NameID, or is named in another way too.
pub(crate) fn read_user_name(alloc: Global, at: At<'_, '_>) -> Result<Text, ShapeFault>
    ensures { Reads result (user_name (part_of at.entry).kids) }
{
    if first_child(at, "BaseID").is_some() || first_child(at, "EncryptedID").is_some() {
        return Err(ShapeFault::WrongShape);
    }
    let name = only_child(at, "NameID")?;
    let text = text_of(alloc, name)?;
    Ok(text)
}
