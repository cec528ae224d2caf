// The form of a page is read.

ghost use Rattle.std.specs.Prelude.{◌≡◌, IfOk};
ghost use Rattle.std.specs.Option.{option_map};
ghost use Rattle.post_agent.specs.Pages.{form_page};
ghost use Rattle.post_agent.specs.Reading as spec;
ghost use Rattle.post_agent.specs.Views.{text_view, parts_view};

use crate::cut::quoted;
use crate::escaped::{message_in, text_in};
use crate::seen::AutoForm;
use owned_values::{Blob, NoMemory, Text, chars_if_any};
use post_binding::{Field, auto_form, login_page};
use std::alloc::Global;

// What stands in front of the URL of a form, of the name of its field, of the field's value and of the relay.
const URL_FRONT: &str =
    "<!DOCTYPE html><html><body onload=\"document.forms[0].submit()\"><form method=\"post\" action=\"";

const NAME_FRONT: &str = "><input type=\"hidden\" name=\"";

const VALUE_FRONT: &str = " value=\"";

const RELAY_FRONT: &str = "/><input type=\"hidden\" name=\"RelayState\" value=\"";

// What stands in front of the pending login of a login page.
const PENDING_FRONT: &str =
    "<!DOCTYPE html><html><body><form method=\"post\" action=\"/login\"><input type=\"hidden\" name=\"pending\" value=\"";

/// What stands in a page's quotation marks where those of a form stand, still escaped.
#[derive(Clone, Copy)]
struct FormParts<'b> {
    url: &'b [u8],
    name: &'b [u8],
    message: &'b [u8],
    relay: Option<&'b [u8]>,
}

/// The value of the relay's field, where it comes next.
fn relay_part(bytes: &[u8]) -> Option<&[u8]>
    ensures { text_view result ≡ spec.relay_part bytes.now }
{
    match quoted(bytes, RELAY_FRONT.as_bytes()) {
        Some((relay, _)) => Some(relay),
        None => None,
    }
}

/// What stands in the quotation marks of a page.
fn form_parts(page: &[u8]) -> Option<FormParts<'_>>
    ensures { option_map parts_view result ≡ spec.form_parts page.now }
{
    let (url, rest) = quoted(page, URL_FRONT.as_bytes())?;
    let (name, rest) = quoted(rest, NAME_FRONT.as_bytes())?;
    let (message, rest) = quoted(rest, VALUE_FRONT.as_bytes())?;
    let relay = relay_part(rest);
    Some(FormParts {
        url,
        name,
        message,
        relay,
    })
}

/// The field of this name.
fn field_of(name: &[u8]) -> Option<Field>
    ensures { result ≡ spec.field_of name.now }
{
    if name == b"SAMLRequest".as_slice() {
        return Some(Field::Request);
    }
    if name == b"SAMLResponse".as_slice() {
        return Some(Field::Response);
    }
    None
}

/// The relay that a part stands for, where there is one; none where it is bad.
fn relay_in(alloc: Global, part: Option<&[u8]>) -> Result<Option<Option<Text>>, NoMemory>
    ensures { IfOk result (λ relay. relay ≡ spec.relay_in (text_view part.entry)) }
{
    let Some(part) = part else {
        return Ok(Some(None));
    };
    match text_in(alloc, part)? {
        Some(relay) => Ok(Some(Some(relay))),
        None => Ok(None),
    }
}

/// The form that the parts stand for.
fn form_of(alloc: Global, parts: FormParts<'_>) -> Result<Option<AutoForm>, NoMemory>
    ensures { IfOk result (λ form. form ≡ spec.form_of (parts_view parts.entry)) }
{
    let Some(url) = text_in(alloc, parts.url)? else {
        return Ok(None);
    };
    let Some(field) = field_of(parts.name) else {
        return Ok(None);
    };
    let Some(message) = message_in(alloc, parts.message)? else {
        return Ok(None);
    };
    let Some(relay) = relay_in(alloc, parts.relay)? else {
        return Ok(None);
    };
    Ok(Some(AutoForm {
        url,
        field,
        message,
        relay,
    }))
}

/// The page of a form.
fn page_of_form(alloc: Global, form: &AutoForm) -> Result<Blob, NoMemory>
    ensures { IfOk result (λ page. page ≡ form_page form.now) }
{
    auto_form(
        alloc,
        form.url.as_str(),
        form.field,
        form.message.as_slice(),
        chars_if_any(&form.relay),
    )
}

/// The form that a page submits, where it is the page of one: what its parts stand for has this very page.
pub(crate) fn form_in(alloc: Global, page: &[u8]) -> Result<Option<AutoForm>, NoMemory>
    ensures { IfOk result (λ form. form ≡ spec.form_in page.now) }
{
    let Some(parts) = form_parts(page) else {
        return Ok(None);
    };
    let Some(form) = form_of(alloc, parts)? else {
        return Ok(None);
    };
    if page_of_form(alloc, &form)?.as_slice() == page {
        Ok(Some(form))
    } else {
        Ok(None)
    }
}

/// The pending login of a page, where it is a login page.
pub(crate) fn login_in(alloc: Global, page: &[u8]) -> Result<Option<Text>, NoMemory>
    ensures { IfOk result (λ pending. pending ≡ spec.login_in page.now) }
{
    let Some((part, _)) = quoted(page, PENDING_FRONT.as_bytes()) else {
        return Ok(None);
    };
    let Some(pending) = text_in(alloc, part)? else {
        return Ok(None);
    };
    if login_page(alloc, pending.as_str())?.as_slice() == page {
        Ok(Some(pending))
    } else {
        Ok(None)
    }
}
