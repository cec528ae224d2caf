// The field lines of a head (RFC 9110, 5).

ghost use Rattle.std.specs.Prelude.{◌≡◌, ℕ, ◌<◌, ◌∷◌, [], List, length, map, All, IfSome, IsTrue};
ghost use Rattle.std.specs.Char.{is_ascii_digit};
ghost use Rattle.std.specs.List.{list_all};
ghost use Rattle.std.specs.Option.{option_map};
ghost use Rattle.std.specs.Str.Parse.{digits_value};
ghost use Rattle.httparse.specs.Spans.{IsWithin, IsHeaderWithin, header_bytes};
ghost use Rattle.http_wire.specs.Lines.{values, text_of, is_length, size_by, size_of};
ghost use Rattle.http_wire.specs.Places.{text_at};
ghost use Rattle.http_wire.specs.Values.{AreValues};

use crate::limits::{BODY_LIMIT, LENGTH_DIGITS};
use crate::method::Method;
use crate::status::{BAD_REQUEST, LENGTH_REQUIRED, NOT_IMPLEMENTED, PAYLOAD_TOO_LARGE};
use httparse::spans::{HeaderSpan, Span};

/// The values of the lines of one name: the place of the first, and whether there are others.
#[derive(Clone, Copy)]
pub(crate) struct Values {
    pub(crate) first: Option<Span>,
    pub(crate) repeated: bool,
}

/// The values of the lines of this name, whatever its case.
pub(crate) fn values_of(bytes: &[u8], lines: &[HeaderSpan], name: &str) -> Values
    requires { All (IsHeaderWithin (length bytes.now)) lines.now }
    ensures { AreValues bytes.now result (values name.now (map (header_bytes bytes.now) lines.now)) }
{
    let mut first = None;
    let mut repeated = false;
    for line in lines {
        if line.name.of(bytes).eq_ignore_ascii_case(name.as_bytes()) {
            repeated = first.is_some();
            first = first.or(Some(line.value));
        }
    }
    Values { first, repeated }
}

/// The value as a text; none where it is no UTF-8.
fn text_of(value: &[u8]) -> Option<&str>
    ensures { option_map (λ text. text.now) result ≡ text_of value.now }
{
    match str::from_utf8(value) {
        Ok(text) => Some(text),
        Err(_) => None,
    }
}

/// The text in a place; none where there is no place, or it is no UTF-8.
pub(crate) fn text_at(bytes: &[u8], place: Option<Span>) -> Option<&str>
    requires { IfSome place (IsWithin (length bytes.now)) }
    ensures { option_map (λ text. text.now) result ≡ text_at bytes.now place }
{
    match place {
        Some(value) => text_of(value.of(bytes)),
        None => None,
    }
}

/// Whether each byte is a digit.
fn are_digits(value: &[u8]) -> bool
    ensures { result ≡ list_all is_ascii_digit value.now }
{
    value.iter().all(|digit| digit.is_ascii_digit())
}

/// Whether the value is of digits, at least one and at most [`LENGTH_DIGITS`].
fn is_length(value: &[u8]) -> bool
    ensures { result ≡ is_length value.now }
{
    !value.is_empty() && value.len() <= LENGTH_DIGITS && are_digits(value)
}

/// The number that the digits write.
fn number_of(digits: &[u8]) -> u64
    requires { IsTrue (is_length digits.now) }
    ensures { result ≡ digits_value 10 digits.now }
{
    let mut number = 0;
    for digit in digits {
        number = number * 10 + u64::from(*digit - b'0');
    }
    number
}

/// The size of the body that a Content-Length says.
fn size_said(value: &[u8]) -> Result<usize, u16>
    ensures { result ≡ size_by Method.Other (value.now ∷ []) }
{
    if !is_length(value) {
        return Err(BAD_REQUEST);
    }
    let size = number_of(value);
    if size > BODY_LIMIT as u64 {
        return Err(PAYLOAD_TOO_LARGE);
    }
    Ok(size as usize)
}

/// The size of the body, or the status that refuses the head (RFC 9112, 6).
pub(crate) fn size_of(
    bytes: &[u8],
    method: Method,
    codings: Values,
    lengths: Values,
) -> Result<usize, u16>
    requires { IfSome lengths.first (IsWithin (length bytes.now)) }
    ensures { (coded said : List (List ℕ)) → AreValues bytes.now codings coded → AreValues bytes.now lengths said → result ≡ size_of method coded said }
{
    if codings.first.is_some() {
        return Err(NOT_IMPLEMENTED);
    }
    match lengths.first {
        _ if lengths.repeated => Err(BAD_REQUEST),
        Some(value) => size_said(value.of(bytes)),
        None if method == Method::Post => Err(LENGTH_REQUIRED),
        None => Ok(0),
    }
}
