// Texts that stand in pages are read.

ghost use Rattle.std.specs.Prelude.{◌≡◌, ◌<◌, ◌∷◌, length, IfOk, MatchOption, None, Some};
ghost use Rattle.std.specs.Option.{option_map};
ghost use Rattle.post_binding.specs.Html.{read_text};
ghost use Rattle.post_agent.specs.Reading as spec;

use crate::cut::behind;
use base64::DecodeAllocError;
use base64::engine::general_purpose::STANDARD;
use owned_values::{Blob, NoMemory, Text};
use std::alloc::Global;

/// The character that a reference at the front stands for, and what stands behind it; none where the text begins with
/// none of the five.
fn behind_reference(text: &[u8]) -> Option<(u8, &[u8])>
    ensures { option_map (λ first. (first.0, first.1.now)) result ≡ spec.behind_reference text.now }
{
    if let Some(rest) = behind(text, b"&amp;") {
        return Some((b'&', rest));
    }
    if let Some(rest) = behind(text, b"&lt;") {
        return Some((b'<', rest));
    }
    if let Some(rest) = behind(text, b"&gt;") {
        return Some((b'>', rest));
    }
    if let Some(rest) = behind(text, b"&quot;") {
        return Some((b'"', rest));
    }
    match behind(text, b"&#39;") {
        Some(rest) => Some((b'\'', rest)),
        None => None,
    }
}

/// The first character of a text in a page, and what stands behind it.
fn first_character(text: &[u8]) -> Option<(u8, &[u8])>
    requires { 0 < length text.now }
    ensures { MatchOption result (read_text text.now ≡ None)
        (λ first. (read_text text.now ≡ option_map (λ rest. first.0 ∷ rest) (read_text first.1.now))
        × (length first.1.now < length text.now)) }
{
    if text[0] == b'&' {
        return behind_reference(text);
    }
    Some((text[0], &text[1..]))
}

/// The bytes that a text in a page stands for; none where an ampersand in it begins no reference.
fn unescaped(alloc: Global, text: &[u8]) -> Result<Option<Blob>, NoMemory>
    ensures { IfOk result (λ found. found ≡ read_text text.now) }
{
    let mut found = Blob::new(alloc);
    let mut rest = text;
    while !rest.is_empty() {
        let Some((byte, behind)) = first_character(rest) else {
            return Ok(None);
        };
        found.push(&[byte])?;
        rest = behind;
    }
    Ok(Some(found))
}

/// The text that an escaped one stands for.
pub(crate) fn text_in(alloc: Global, escaped: &[u8]) -> Result<Option<Text>, NoMemory>
    ensures { IfOk result (λ text. text ≡ spec.text_in escaped.now) }
{
    match unescaped(alloc, escaped)? {
        Some(bytes) => Text::of_utf8(alloc, bytes.as_slice()),
        None => Ok(None),
    }
}

/// The message of these symbols; none where they are no base64.
fn decoded(alloc: Global, symbols: &[u8]) -> Result<Option<Blob>, NoMemory>
    ensures { IfOk result (λ message. message ≡ spec.decoded symbols.now) }
{
    match STANDARD.decode(alloc, symbols) {
        Ok(message) => Ok(Some(Blob::of(alloc, message.as_slice())?)),
        Err(DecodeAllocError::OutOfMemory) => Err(NoMemory),
        Err(DecodeAllocError::DecodeError(_)) => Ok(None),
    }
}

/// The message that an escaped text of base64 stands for.
pub(crate) fn message_in(alloc: Global, escaped: &[u8]) -> Result<Option<Blob>, NoMemory>
    ensures { IfOk result (λ message. message ≡ spec.message_in escaped.now) }
{
    match unescaped(alloc, escaped)? {
        Some(symbols) => decoded(alloc, symbols.as_slice()),
        None => Ok(None),
    }
}
