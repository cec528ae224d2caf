//! Media types.
ghost use Rattle.std.specs.Prelude.{◌≡◌, reverse};
ghost use Rattle.httparse.specs.Grammar.{is_ows, skip_ows};
ghost use Rattle.http_wire.specs.Cookies.{is_form_type};

use crate::cut::before_first;

// The media type of a form (URL Standard, 5).
const FORM_TYPE: &[u8] = b"application/x-www-form-urlencoded";

/// Whether the byte is a space or a tab.
fn is_ows(byte: u8) -> bool
    ensures { result ≡ is_ows byte }
{
    byte == b' ' || byte == b'\t'
}

/// The bytes without the spaces and tabs in front.
fn skip_ows(bytes: &[u8]) -> &[u8]
    ensures { result.now ≡ skip_ows bytes.now }
{
    for (i, byte) in bytes.iter().enumerate() {
        if !is_ows(*byte) {
            return &bytes[i..];
        }
    }
    &bytes[bytes.len()..]
}

/// The bytes without the spaces and tabs at the end.
fn cut_ows(bytes: &[u8]) -> &[u8]
    ensures { result.now ≡ reverse (skip_ows (reverse bytes.now)) }
{
    for end in (0..bytes.len()).rev() {
        if !is_ows(bytes[end]) {
            return &bytes[..end + 1];
        }
    }
    &bytes[..0]
}

/// Whether a Content-Type says that the body is a form, `application/x-www-form-urlencoded`: the part in front of `;`,
/// without the spaces and tabs round it, and in any case (RFC 9110, 8.3.1). It takes no memory.
pub fn is_form_type(content_type: &str) -> bool
    ensures { result ≡ is_form_type content_type.now }
{
    let media_type = before_first(content_type.as_bytes(), b';');
    cut_ows(skip_ows(media_type)).eq_ignore_ascii_case(FORM_TYPE)
}
