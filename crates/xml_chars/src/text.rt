// Which bytes are a text.

ghost use Rattle.std.specs.Prelude.{◌≡◌, ◌↔◌, IsTrue, IfNone, IfSome};
ghost use Rattle.std.specs.List.{list_all};
ghost use Rattle.xml_spec.specs.Characters.{IsText};
ghost use Rattle.xml_chars.specs.AsciiTexts.{is_ascii_char};

use crate::is_char;

/// The text that the bytes are: the UTF-8 of characters that XML allows (XML 1.0, 2.2).
pub fn text_of(bytes: &[u8]) -> Option<&str>
    ensures none { IfNone result (¬ (IsText bytes.now)) }
    ensures some { IfSome result (λ text. (text.now ≡ bytes.now) × IsText text.now) }
{
    let Ok(text) = simdutf8::from_utf8_baseline(bytes) else {
        return None;
    };
    if is_text(text) { Some(text) } else { None }
}

/// Whether XML allows each character of a text (XML 1.0, 2.2).
pub fn is_text(text: &str) -> bool
    ensures { IsTrue result ↔ IsText text.now }
{
    // most texts are of ASCII alone, which is told faster
    if are_ascii_chars(text.as_bytes()) {
        return true;
    }
    are_chars(text)
}

// Whether the byte is ASCII, and a character that XML allows.
fn is_ascii_char(byte: u8) -> bool
    ensures { result ≡ is_ascii_char byte }
{
    matches!(byte, b'\t' | b'\n' | b'\r' | b' '..=0x7F)
}

// Whether each byte is ASCII, and a character that XML allows. All are looked at, so that many are at once.
fn are_ascii_chars(bytes: &[u8]) -> bool
    ensures { result ≡ list_all is_ascii_char bytes.now }
{
    let mut all = true;
    for byte in bytes {
        all &= is_ascii_char(*byte);
    }
    all
}

// Whether XML allows each character.
fn are_chars(text: &str) -> bool
    ensures { IsTrue result ↔ IsText text.now }
{
    text.chars().all(|c| is_char(c))
}
