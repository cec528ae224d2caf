//! The pages that both providers send.
ghost use Rattle.std.specs.Prelude.{◌≡◌, ◌++◌, IfOk, OnOk};
ghost use Rattle.std.specs.List.{flat_map};
ghost use Rattle.std.specs.Option.{option_map};
ghost use Rattle.post_binding.specs.Pages as spec;

use crate::page::Page;
use crate::posted::Field;
use base64::engine::general_purpose::STANDARD;
use owned_values::{Attribute, Attributes, Blob, NoMemory, Text};
use std::alloc::Global;

/// A field that is not shown.
fn put_hidden(name: &'static str, value: &str, page: &mut Page) -> Result<(), NoMemory>
    ensures { OnOk result (page.new ≡ page.old ++ spec.hidden_input name.now value.now) }
{
    page.markup("<input type=\"hidden\" name=\"")?;
    page.markup(name)?;
    page.markup("\" value=\"")?;
    page.text(value)?;
    page.markup("\"/>")
}

/// The field of a relay, where there is one.
fn put_relay(relay: Option<&str>, page: &mut Page) -> Result<(), NoMemory>
    ensures { OnOk result (page.new ≡ page.old ++ spec.relay_input (option_map (λ text. text.now) relay.entry)) }
{
    match relay {
        Some(relay) => put_hidden("RelayState", relay, page),
        None => Ok(()),
    }
}

/// A page that sends its reader on to `url` with a message and its relay, at once where scripts run, else by a button
/// (SAML Bindings 3.5.4).
pub fn auto_form(
    alloc: Global,
    url: &str,
    field: Field,
    message: &[u8],
    relay: Option<&str>,
) -> Result<Blob, NoMemory>
    ensures { IfOk result (λ page. page ≡ spec.auto_form url.now field message.now (option_map (λ text. text.now) relay.entry)) }
{
    let encoded = STANDARD.encode(alloc, message)?;
    let mut page = Page::submitting(alloc)?;
    page.markup("<form method=\"post\" action=\"")?;
    page.text(url)?;
    page.markup("\">")?;
    put_hidden(field.name(), encoded.as_str(), &mut page)?;
    put_relay(relay, &mut page)?;
    page.markup("<noscript><input type=\"submit\" value=\"Continue\"/></noscript></form>")?;
    page.finish()
}

/// The page where a user logs in, for the pending login of this ID.
pub fn login_page(alloc: Global, pending: &str) -> Result<Blob, NoMemory>
    ensures { IfOk result (λ page. page ≡ spec.login_page pending.now) }
{
    let mut page = Page::new(alloc)?;
    page.markup("<form method=\"post\" action=\"/login\">")?;
    put_hidden("pending", pending, &mut page)?;
    page.markup(
        "<input name=\"user\"/><input type=\"password\" name=\"password\"/><input type=\"submit\" value=\"Log in\"/></form>",
    )?;
    page.finish()
}

/// The page that says how a logout ended: `PartialLogout` where it did not end at each participant, else `Success` (the
/// names of SAML Core 3.2.2.2).
pub fn end_page(alloc: Global, partial: bool) -> Result<Blob, NoMemory>
    ensures { IfOk result (λ page. page ≡ spec.end_page partial) }
{
    let mut page = Page::new(alloc)?;
    page.markup("<p>Logged out: ")?;
    page.markup(if partial { "PartialLogout" } else { "Success" })?;
    page.markup("</p>")?;
    page.finish()
}

/// A value of an attribute.
fn put_value(name: &str, value: &str, page: &mut Page) -> Result<(), NoMemory>
    ensures { OnOk result (page.new ≡ page.old ++ spec.value_item name.now value.now) }
{
    page.markup("<li>")?;
    page.text(name)?;
    page.markup("=")?;
    page.text(value)?;
    page.markup("</li>")
}

/// Each value of an attribute.
fn put_attribute(attribute: &Attribute, page: &mut Page) -> Result<(), NoMemory>
    ensures { OnOk result (page.new ≡ page.old ++ spec.attribute_items attribute.now) }
{
    for value in attribute.values.as_slice() {
        put_value(attribute.name.as_str(), value.as_str(), page)?;
    }
    Ok(())
}

/// Each value of each attribute.
fn put_attributes(attributes: &Attributes, page: &mut Page) -> Result<(), NoMemory>
    ensures { OnOk result (page.new ≡ page.old ++ flat_map spec.attribute_items attributes.now) }
{
    for attribute in attributes.as_slice() {
        put_attribute(attribute, page)?;
    }
    Ok(())
}

/// The page that says who is logged in, with each value of each attribute, and a button that logs the user out.
pub fn user_page(alloc: Global, name: &Text, attributes: &Attributes) -> Result<Blob, NoMemory>
    ensures { IfOk result (λ page. page ≡ spec.user_page name.now attributes.now) }
{
    let mut page = Page::new(alloc)?;
    page.markup("<p id=\"name\">")?;
    page.text(name.as_str())?;
    page.markup("</p><ul>")?;
    put_attributes(attributes, &mut page)?;
    page.markup(
        "</ul><form method=\"post\" action=\"/logout\"><input type=\"submit\" value=\"Log out\"/></form>",
    )?;
    page.finish()
}
