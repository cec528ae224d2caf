//! A form is made.
ghost use Rattle.std.specs.Prelude.{◌≡◌, IfOk, OnOk};
ghost use Rattle.std.specs.Option.{option_map};
ghost use Rattle.form_urlencoded.specs.Form.{extend_pairs};
ghost use Rattle.post_binding.specs.Form as spec;

use crate::posted::Field;
use base64::engine::general_purpose::STANDARD;
use form_urlencoded::Serializer;
use owned_values::{Blob, NoMemory};
use std::alloc::Global;

/// Puts a relay behind the message, where there is one.
fn put_relay(relay: Option<&str>, form: &mut Serializer) -> Result<(), NoMemory>
    ensures ok { OnOk result (form.new.form ≡ extend_pairs form.old.form (spec.relay_pairs (option_map (λ text. text.now) relay.entry))) }
    ensures prefix { form.new.prefix ≡ form.old.prefix }
{
    if let Some(relay) = relay {
        form.append_pair("RelayState", relay)?;
    }
    Ok(())
}

/// The body of a form that posts a message with its relay (SAML Bindings 3.5.4). `read_form` gives them back where the
/// message has at most [`MESSAGE_LIMIT`](crate::MESSAGE_LIMIT) bytes, and the relay at most
/// [`RELAY_LIMIT`](crate::RELAY_LIMIT) and no U+FFFD ([`laws::what_is_posted_is_read`](crate::laws::what_is_posted_is_read)).
pub fn post_body(
    alloc: Global,
    field: Field,
    message: &[u8],
    relay: Option<&str>,
) -> Result<Blob, NoMemory>
    ensures { IfOk result (λ body. body ≡ spec.post_body field message.now (option_map (λ text. text.now) relay.entry)) }
{
    let encoded = STANDARD.encode(alloc, message)?;
    let mut form = Serializer::new(String::new(alloc));
    form.append_pair(field.name(), encoded.as_str())?;
    put_relay(relay, &mut form)?;
    Blob::of(alloc, form.finish().as_bytes())
}
