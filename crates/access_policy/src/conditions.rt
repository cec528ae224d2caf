// The conditions of a rule, and the texts in them.

ghost use Rattle.std.specs.Prelude.{◌≡◌, ◌<◌, ◌∷◌, length, IfOk, MatchOption, None, Some};
ghost use Rattle.std.specs.Option.{option_map};
ghost use Rattle.access_policy.specs.Conditions as spec;

use crate::rule::{Condition, Conditions};
use owned_values::{Blob, NoMemory, Text};
use std::alloc::Global;

/// The value of a lower-case hexadecimal digit.
fn hex_digit(digit: u8) -> Option<u8>
    ensures { result ≡ spec.hex_digit digit }
{
    match digit {
        b'0'..=b'9' => Some(digit - b'0'),
        b'a'..=b'f' => Some(digit - b'a' + 10),
        _ => None,
    }
}

/// The byte of two hexadecimal digits.
fn hex_byte(high: u8, low: u8) -> Option<u8>
    ensures { result ≡ spec.hex_byte high low }
{
    let high = hex_digit(high)?;
    let low = hex_digit(low)?;
    Some(16 * high + low)
}

/// The byte that a word spells first, and what stands behind it.
fn first_byte(word: &[u8]) -> Option<(u8, &[u8])>
    requires { 0 < length word.now }
    ensures { MatchOption result (spec.unescaped word.now ≡ None)
        (λ first. (spec.unescaped word.now ≡ option_map (λ bytes. first.0 ∷ bytes) (spec.unescaped first.1.now)) × (length first.1.now < length word.now)) }
{
    if word[0] != b'\\' {
        return Some((word[0], &word[1..]));
    }
    if word.len() < 3 {
        return None;
    }
    let byte = hex_byte(word[1], word[2])?;
    Some((byte, &word[3..]))
}

/// The bytes that a word spells, in which `\` and two hexadecimal digits stand for a byte.
fn unescaped(alloc: Global, word: &[u8]) -> Result<Option<Blob>, NoMemory>
    ensures { IfOk result (λ found. found ≡ spec.unescaped word.now) }
{
    let mut found = Blob::new(alloc);
    let mut rest = word;
    while !rest.is_empty() {
        let Some((byte, behind)) = first_byte(rest) else {
            return Ok(None);
        };
        found.push(&[byte])?;
        rest = behind;
    }
    Ok(Some(found))
}

/// The text that a word spells.
fn text_of(alloc: Global, word: &str) -> Result<Option<Text>, NoMemory>
    ensures { IfOk result (λ text. text ≡ spec.text_of word.now) }
{
    match unescaped(alloc, word.as_bytes())? {
        Some(bytes) => Text::of_utf8(alloc, bytes.as_slice()),
        None => Ok(None),
    }
}

/// The condition `user NAME`.
fn user(alloc: Global, name: &str) -> Result<Option<Condition>, NoMemory>
    ensures { IfOk result (λ condition. condition ≡ spec.user name.now) }
{
    match text_of(alloc, name)? {
        Some(name) => Ok(Some(Condition::User { name })),
        None => Ok(None),
    }
}

/// The condition `has ATTRIBUTE VALUE` or `lacks ATTRIBUTE VALUE`.
fn tested(
    alloc: Global,
    kind: &str,
    attribute: &str,
    value: &str,
) -> Result<Option<Condition>, NoMemory>
    ensures { IfOk result (λ condition. condition ≡ spec.tested kind.now attribute.now value.now) }
{
    let Some(attribute) = text_of(alloc, attribute)? else {
        return Ok(None);
    };
    let Some(value) = text_of(alloc, value)? else {
        return Ok(None);
    };
    match kind {
        "has" => Ok(Some(Condition::Has { attribute, value })),
        "lacks" => Ok(Some(Condition::Lacks { attribute, value })),
        _ => Ok(None),
    }
}

/// The condition, where there is one, with what stands behind it.
fn in_front(condition: Option<Condition>, behind: &[Text]) -> Option<(Condition, &[Text])>
    ensures { MatchOption result (condition ≡ None) (λ first. (condition ≡ Some first.0) × (first.1.now ≡ behind.now)) }
{
    match condition {
        Some(condition) => Some((condition, behind)),
        None => None,
    }
}

/// The condition that words spell first, and what stands behind it.
fn first_condition(alloc: Global, words: &[Text]) -> Result<Option<(Condition, &[Text])>, NoMemory>
    requires { 0 < length words.now }
    ensures { IfOk result (λ found. MatchOption found (spec.conditions_of words.now ≡ None)
        (λ first. (spec.conditions_of words.now ≡ option_map (λ others. first.0 ∷ others) (spec.conditions_of first.1.now)) × (length first.1.now < length words.now))) }
{
    match words {
        [kind, name, behind @ ..] if kind.as_str() == "user" => {
            Ok(in_front(user(alloc, name.as_str())?, behind))
        }
        [kind, attribute, value, behind @ ..] => {
            let condition = tested(alloc, kind.as_str(), attribute.as_str(), value.as_str())?;
            Ok(in_front(condition, behind))
        }
        _ => Ok(None),
    }
}

/// The conditions that words spell one after the other.
pub(crate) fn conditions_of(alloc: Global, words: &[Text]) -> Result<Option<Conditions>, NoMemory>
    ensures { IfOk result (λ found. found ≡ spec.conditions_of words.now) }
{
    let mut found = Conditions::new(alloc);
    let mut rest = words;
    while !rest.is_empty() {
        let Some((condition, behind)) = first_condition(alloc, rest)? else {
            return Ok(None);
        };
        found.push(condition)?;
        rest = behind;
    }
    Ok(Some(found))
}
