// Texts of a form's fields.
ghost use Rattle.std.specs.Prelude.{◌≡◌, IfOk};
ghost use Rattle.std.specs.List.{list_any};
ghost use Rattle.std.specs.Str.{bytes_eq};
ghost use Rattle.xml_spec.specs.Syntax.{is_white};
ghost use Rattle.post_binding.specs.Form.{decoded, has_replacement};

use form_urlencoded::decode;
use owned_values::{NoMemory, Text};
use std::alloc::Global;
use xml_chars::is_white;

// U+FFFD in UTF-8.
const REPLACEMENT: [u8; 3] = [0xEF, 0xBF, 0xBD];

/// The text that a name or a value of a form stands for.
pub(crate) fn decoded(alloc: Global, encoded: &[u8]) -> Result<Text, NoMemory>
    ensures { IfOk result (λ text. text ≡ decoded encoded.now) }
{
    let text = decode(alloc, encoded)?;
    Text::of(alloc, text.as_str())
}

/// Whether an encoded name stands for `name`.
pub(crate) fn is_name(alloc: Global, encoded: &[u8], name: &str) -> Result<bool, NoMemory>
    ensures { IfOk result (λ is. is ≡ bytes_eq (decoded encoded.now) name.now) }
{
    let text = decode(alloc, encoded)?;
    Ok(text.as_str() == name)
}

/// Whether U+FFFD stands in the text.
pub(crate) fn has_replacement(text: &str) -> bool
    ensures { result ≡ has_replacement text.now }
{
    // most texts are of ASCII alone, which is told faster
    if text.is_ascii() {
        return false;
    }
    let mut rest = text.as_bytes();
    while let [_, others @ ..] = rest {
        if rest.starts_with(&REPLACEMENT) {
            return true;
        }
        rest = others;
    }
    false
}

/// Whether one of the bytes is white space. All are looked at, so that many are at once.
pub(crate) fn has_white(bytes: &[u8]) -> bool
    ensures { result ≡ list_any is_white bytes.now }
{
    let mut any = false;
    for byte in bytes {
        any |= is_white(*byte);
    }
    any
}
