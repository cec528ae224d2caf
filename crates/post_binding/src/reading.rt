//! A form is read: the message that it carries, or the values of named fields.
ghost use Rattle.std.specs.Prelude.{◌≡◌, ℕ, ◌≤◌, List, length, IfOk, OnOk};
ghost use Rattle.owned_values.specs.Gives.{Gives};
ghost use Rattle.base64.specs.Engines.{standard};
ghost use Rattle.base64.specs.GeneralPurpose.{decode_of};
ghost use Rattle.post_binding.specs.Form.{decoded, pairs, values, field_name, relay_name, message_of, message_field};
ghost use Rattle.post_binding.specs.Form.{relay_field, fault_of, form, the_value, fields, within_limit};
ghost use Rattle.post_binding.specs.Occurrences.{IsOccurrence, noted};
ghost use Rattle.post_binding.specs.declared.posted.TheConstants.{MESSAGE_LIMIT};

use crate::fault::FormFault;
use crate::posted::{Field, MESSAGE_LIMIT, Posted, RELAY_LIMIT};
use crate::text::{decoded, has_replacement, has_white, is_name};
use base64::DecodeAllocError;
use base64::engine::general_purpose::STANDARD;
use form_urlencoded::{decode, raw_pairs};
use owned_values::{Blob, NoMemory, Text, Texts};
use std::alloc::Global;
use xml_chars::without_white;

/// How often a name stands in a form.
#[derive(Drop)]
enum Occurrence {
    Absent,
    Once(Text),
    Repeated,
}

impl Occurrence {
    /// Notes that the name stands once more, with this value.
    fn note(&mut self, alloc: Global, encoded_value: &[u8]) -> Result<(), NoMemory>
        ensures { OnOk result (self.new ≡ noted self.old (decoded encoded_value.now)) }
    {
        *self = match self {
            Occurrence::Absent => Occurrence::Once(decoded(alloc, encoded_value)?),
            _ => Occurrence::Repeated,
        };
        Ok(())
    }
}

/// How often each name of the binding stands in a form.
#[derive(Drop)]
struct Occurrences {
    request: Occurrence,
    response: Occurrence,
    relay: Occurrence,
}

/// How often the names of the binding stand in the form, in one pass.
#[tactic(auto, using(crate::proofs::Noted::is_occurrence))]
fn occurrences_of(alloc: Global, body: &[u8]) -> Result<Occurrences, NoMemory>
    ensures request { IfOk result
        (λ found. IsOccurrence found.request (values (field_name Field.Request) (pairs body.now))) }
    ensures response { IfOk result
        (λ found. IsOccurrence found.response (values (field_name Field.Response) (pairs body.now))) }
    ensures relay { IfOk result (λ found. IsOccurrence found.relay (values relay_name (pairs body.now))) }
{
    let mut request = Occurrence::Absent;
    let mut response = Occurrence::Absent;
    let mut relay = Occurrence::Absent;
    for (encoded_name, encoded_value) in raw_pairs(body) {
        match decode(alloc, encoded_name)?.as_str() {
            "SAMLRequest" => request.note(alloc, encoded_value)?,
            "SAMLResponse" => response.note(alloc, encoded_value)?,
            "RelayState" => relay.note(alloc, encoded_value)?,
            _ => {}
        }
    }
    Ok(Occurrences {
        request,
        response,
        relay,
    })
}

/// How often `name` stands in the form, with its value where it stands once.
#[tactic(auto, using(crate::proofs::Noted::is_occurrence))]
fn occurrence_of(alloc: Global, body: &[u8], name: &str) -> Result<Occurrence, NoMemory>
    ensures { IfOk result (λ found. IsOccurrence found (values name.now (pairs body.now))) }
{
    let mut found = Occurrence::Absent;
    for (encoded_name, encoded_value) in raw_pairs(body) {
        if is_name(alloc, encoded_name, name)? {
            found.note(alloc, encoded_value)?;
        }
    }
    Ok(found)
}

/// The message that symbols of base64 stand for.
///
/// # Errors
///
/// `BadBase64` where they are no base64; then `TooLarge` where the message has more than [`MESSAGE_LIMIT`] bytes.
fn decode_symbols(alloc: Global, symbols: &[u8]) -> Result<Blob, FormFault>
    ensures gives { Gives (λ message. message) fault_of result (within_limit (decode_of standard symbols.now)) }
    ensures small { IfOk result (λ message. length message ≤ MESSAGE_LIMIT) }
{
    let message = match STANDARD.decode(alloc, symbols) {
        Ok(message) => message,
        Err(DecodeAllocError::OutOfMemory) => return Err(FormFault::NoMemory),
        Err(DecodeAllocError::DecodeError(_)) => return Err(FormFault::BadBase64),
    };
    if message.len() > MESSAGE_LIMIT {
        return Err(FormFault::TooLarge(message.len() as u64));
    }
    Ok(Blob::of(alloc, message.as_slice())?)
}

/// The message that the text of a field stands for. Most hold no white space, and are not copied without it.
///
/// # Errors
///
/// `BadBase64` where it is no base64; then `TooLarge` where the message has more than [`MESSAGE_LIMIT`] bytes.
#[tactic(auto, using(crate::proofs::Plain::all_kept))]
fn decode_message(alloc: Global, text: &str) -> Result<Blob, FormFault>
    ensures gives { Gives (λ message. message) fault_of result (message_of text.now) }
    ensures small { IfOk result (λ message. length message ≤ MESSAGE_LIMIT) }
{
    let symbols = text.as_bytes();
    if has_white(symbols) {
        let Ok(bare) = without_white(alloc, symbols) else {
            return Err(FormFault::NoMemory);
        };
        return decode_symbols(alloc, bare.as_slice());
    }
    decode_symbols(alloc, symbols)
}

/// The one message of a form with so many requests and responses, as its text, and its field.
///
/// # Errors
///
/// `BadForm`, exactly where the messages are not one in all, or U+FFFD stands in the text.
fn message_field(request: Occurrence, response: Occurrence) -> Result<(Field, Text), FormFault>
    ensures { (requests responses : List (List ℕ)) → IsOccurrence request requests → IsOccurrence response responses
        → Gives (λ found. found) fault_of result (message_field requests responses) }
{
    let (field, text) = match (request, response) {
        (Occurrence::Once(text), Occurrence::Absent) => (Field::Request, text),
        (Occurrence::Absent, Occurrence::Once(text)) => (Field::Response, text),
        _ => return Err(FormFault::BadForm),
    };
    if has_replacement(text.as_str()) {
        return Err(FormFault::BadForm);
    }
    Ok((field, text))
}

/// The relay of a form with so many, where it has one.
///
/// # Errors
///
/// `BadForm`, exactly where there are two, or the relay has more than [`RELAY_LIMIT`] bytes, or U+FFFD stands in it.
fn relay_field(relay: Occurrence) -> Result<Option<Text>, FormFault>
    ensures { (relays : List (List ℕ)) → IsOccurrence relay relays
        → Gives (λ relay. relay) fault_of result (relay_field relays) }
{
    match relay {
        Occurrence::Absent => Ok(None),
        Occurrence::Once(relay) => {
            if relay.len() > RELAY_LIMIT || has_replacement(relay.as_str()) {
                return Err(FormFault::BadForm);
            }
            Ok(Some(relay))
        }
        Occurrence::Repeated => Err(FormFault::BadForm),
    }
}

/// The message of a form, with its relay (SAML Bindings 3.5).
///
/// # Errors
///
/// The first that holds. `BadForm`: the pairs named SAMLRequest or SAMLResponse are not one in all, or RelayState
/// stands twice or has more than [`RELAY_LIMIT`] bytes, or U+FFFD stands in one of these values. `BadBase64`: without
/// white space the value is no base64 with its padding. `TooLarge`: the message has more than [`MESSAGE_LIMIT`] bytes.
/// `NoMemory` may come in place of any answer. So the message that is given has at most [`MESSAGE_LIMIT`] bytes (`small`).
pub fn read_form(alloc: Global, body: &[u8]) -> Result<Posted, FormFault>
    ensures gives { Gives (λ posted. posted) fault_of result (form body.now) }
    ensures small { IfOk result (λ posted. length posted.message ≤ MESSAGE_LIMIT) }
{
    let found = occurrences_of(alloc, body)?;
    let (field, text) = message_field(found.request, found.response)?;
    let relay = relay_field(found.relay)?;
    let message = decode_message(alloc, text.as_str())?;
    Ok(Posted {
        field,
        message,
        relay,
    })
}

/// The value of a field. `None`, exactly where the name is absent or doubled, or U+FFFD stands in the value.
fn read_field(alloc: Global, body: &[u8], name: &str) -> Result<Option<Text>, NoMemory>
    ensures { IfOk result (λ found. found ≡ the_value (values name.now (pairs body.now))) }
{
    match occurrence_of(alloc, body, name)? {
        Occurrence::Once(value) if !has_replacement(value.as_str()) => Ok(Some(value)),
        _ => Ok(None),
    }
}

/// The values of the named fields of a form, in the order of the names. `None`, exactly where one of the names is absent
/// or doubled, or U+FFFD stands in its value.
pub fn read_fields(alloc: Global, body: &[u8], names: &Texts) -> Result<Option<Texts>, NoMemory>
    ensures { IfOk result (λ found. found ≡ fields body.now names.now) }
{
    let mut found = Texts::new(alloc);
    for name in names.as_slice() {
        match read_field(alloc, body, name.as_str())? {
            Some(value) => found.push(value)?,
            None => return Ok(None),
        }
    }
    Ok(Some(found))
}
