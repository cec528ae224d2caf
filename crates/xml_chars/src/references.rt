//! References to characters.

ghost use Rattle.std.specs.Prelude.{◌≡◌, ◌<◌, ◌≤◌, length, take, drop, min, slice_index, IfNone, IfSome};
ghost use Rattle.std.specs.Char.{digit_value};
ghost use Rattle.std.specs.Str.Parse.{AllDigits, digits_value};
ghost use Rattle.xml_chars.specs.Reading.{BeginsWithReference, BeginsWithNone, IsEntity, IsDecimal, IsHexadecimal, IsAnyKind, ReadsKind, ReadsNumber};
ghost use Rattle.xml_chars.specs.Signs.{has_number_sign};

use crate::is_char;

// a number above those of all characters
const TOO_LARGE: u32 = 0x11_0000;

/// The character that a reference stands for, and the place behind the reference's `;`. `None` where no valid
/// reference begins at `at` (XML 1.0, 4.1): one of the five entities of 4.6, or the number of a Char in decimal or
/// hexadecimal digits.
pub fn read_reference(bytes: &[u8], at: usize) -> Option<(char, usize)>
    requires { at ≤ length bytes.now }
    ensures none { IfNone result (BeginsWithNone (drop at bytes.now)) }
    ensures within { IfSome result (λ read. (at < read.1) × (read.1 ≤ length bytes.now)) }
    ensures some { IfSome result (λ read. BeginsWithReference (drop at bytes.now) read.0 (drop read.1 bytes.now)) }
{
    let (character, length) = first_reference(&bytes[at..])?;
    Some((character, at + length))
}

// the reference that the bytes begin with: its character and how many bytes it takes
fn first_reference(bytes: &[u8]) -> Option<(char, usize)>
    ensures { ReadsKind IsAnyKind bytes.now result }
{
    if !has_number_sign(bytes) {
        return entity(bytes);
    }
    if let Some(read) = decimal(bytes) {
        return Some(read);
    }
    hexadecimal(bytes)
}

// whether the second byte is a number sign, which it is in references to numbers and in no entity
fn has_number_sign(bytes: &[u8]) -> bool
    ensures { result ≡ has_number_sign bytes.now }
{
    match bytes {
        [_, second, ..] => *second == b'#',
        _ => false,
    }
}

// the same for the five entities
fn entity(bytes: &[u8]) -> Option<(char, usize)>
    ensures { ReadsKind IsEntity bytes.now result }
{
    if bytes.starts_with(b"&lt;") {
        Some(('<', 4))
    } else if bytes.starts_with(b"&gt;") {
        Some(('>', 4))
    } else if bytes.starts_with(b"&amp;") {
        Some(('&', 5))
    } else if bytes.starts_with(b"&quot;") {
        Some(('"', 6))
    } else if bytes.starts_with(b"&apos;") {
        Some(('\'', 6))
    } else {
        None
    }
}

// the same for the number of a character in decimal digits
fn decimal(bytes: &[u8]) -> Option<(char, usize)>
    ensures { ReadsKind IsDecimal bytes.now result }
{
    let digits = bytes.strip_prefix(b"&#")?;
    let (character, length) = number(digits, 10)?;
    Some((character, length + 2))
}

// the same in hexadecimal digits
fn hexadecimal(bytes: &[u8]) -> Option<(char, usize)>
    ensures { ReadsKind IsHexadecimal bytes.now result }
{
    let digits = bytes.strip_prefix(b"&#x")?;
    let (character, length) = number(digits, 16)?;
    Some((character, length + 3))
}

// the character whose number the bytes begin with, in digits up to a semicolon, and how many bytes these are
fn number(bytes: &[u8], radix: u32) -> Option<(char, usize)>
    requires low { 2 ≤ radix }
    requires high { radix ≤ 36 }
    ensures { ReadsNumber radix bytes.now result }
{
    let (count, value) = leading_digits(bytes, radix);
    if count == 0 || count == bytes.len() || bytes[count] != b';' {
        return None;
    }
    let character = char::from_u32(value)?;
    if is_char(character) {
        Some((character, count + 1))
    } else {
        None
    }
}

// how many digits the bytes begin with, and the number that these write, or TOO_LARGE where it is larger
fn leading_digits(bytes: &[u8], radix: u32) -> (usize, u32)
    requires low { 2 ≤ radix }
    requires high { radix ≤ 36 }
    ensures within { result.0 ≤ length bytes.now }
    ensures digits { AllDigits radix (take result.0 bytes.now) }
    ensures all_of_them { result.0 < length bytes.now → radix ≤ digit_value (slice_index bytes.now result.0) }
    ensures value { result.1 ≡ min TOO_LARGE (digits_value radix (take result.0 bytes.now)) }
{
    let mut value = 0;
    for (i, byte) in bytes.iter().enumerate() {
        match char::from(*byte).to_digit(radix) {
            Some(digit) => value = (value * radix + digit).min(TOO_LARGE),
            None => return (i, value),
        }
    }
    (bytes.len(), value)
}
