// One line of a policy.

ghost use Rattle.std.specs.Prelude.{◌≡◌, IfOk};
ghost use Rattle.std.specs.List.{list_all};
ghost use Rattle.std.specs.Option.{option_map};
ghost use Rattle.access_policy.specs.Line as spec;

use crate::conditions::conditions_of;
use crate::rule::{MAX_CONDITIONS, MAX_NAME_LENGTH, Pattern, Rule};
use owned_values::{NoMemory, Text};
use std::alloc::Global;
use text_lines::words_of;

/// Whether the byte may stand in the name of a rule.
fn is_name_byte(byte: u8) -> bool
    ensures { result ≡ spec.is_name_byte byte }
{
    byte.is_ascii_alphanumeric() || byte == b'-'
}

/// Whether each byte may stand in the name of a rule.
fn are_name_bytes(bytes: &[u8]) -> bool
    ensures { result ≡ list_all spec.is_name_byte bytes.now }
{
    bytes.iter().all(|byte| is_name_byte(*byte))
}

/// Whether a rule may have this name.
fn is_rule_name(name: &str) -> bool
    ensures { result ≡ spec.is_rule_name name.now }
{
    !name.is_empty()
        && name.len() <= MAX_NAME_LENGTH
        && are_name_bytes(name.as_bytes())
        && name != "default"
}

/// Whether the byte may stand in a path.
fn is_path_byte(byte: u8) -> bool
    ensures { result ≡ spec.is_path_byte byte }
{
    byte.is_ascii_alphanumeric() || matches!(byte, b'.' | b'_' | b'~' | b'/' | b'-')
}

/// Whether each byte may stand in a path: an ASCII letter or digit, or one of `._~/-` (RFC 3986, 2.3 and 3.3).
pub fn are_path_bytes(bytes: &[u8]) -> bool
    ensures { result ≡ list_all spec.is_path_byte bytes.now }
{
    bytes.iter().all(|byte| is_path_byte(*byte))
}

/// Whether a path is `/app` or below it.
pub fn is_app(path: &[u8]) -> bool
    ensures { result ≡ spec.is_app path.now }
{
    path == b"/app".as_slice() || path.starts_with(b"/app/")
}

/// Whether the bytes are a path that a rule may be for.
fn is_path(path: &[u8]) -> bool
    ensures { result ≡ spec.is_path path.now }
{
    is_app(path) && are_path_bytes(path)
}

/// What the paths begin with that the word is for, where it is a path ended by `/*`.
fn prefix_of(word: &str) -> Option<&str>
    ensures { option_map (λ prefix. prefix.now) result ≡ spec.prefix_of word.now }
{
    let bytes = word.as_bytes();
    if !bytes.ends_with(b"/*") || !is_path(&bytes[..bytes.len() - 2]) {
        return None;
    }
    Some(&word[..word.len() - 1])
}

/// The paths that a word says.
fn pattern_of(alloc: Global, word: &str) -> Result<Option<Pattern>, NoMemory>
    ensures { IfOk result (λ pattern. pattern ≡ spec.pattern_of word.now) }
{
    if is_path(word.as_bytes()) {
        let path = Text::of(alloc, word)?;
        return Ok(Some(Pattern {
            path,
            is_prefix: false,
        }));
    }
    let Some(prefix) = prefix_of(word) else {
        return Ok(None);
    };
    let path = Text::of(alloc, prefix)?;
    Ok(Some(Pattern {
        path,
        is_prefix: true,
    }))
}

/// Whether the word is `allow`; none where it is not `deny` either.
fn verb_of(word: &str) -> Option<bool>
    ensures { result ≡ spec.verb_of word.now }
{
    match word {
        "allow" => Some(true),
        "deny" => Some(false),
        _ => None,
    }
}

/// The rule of these words.
fn spelled(alloc: Global, words: &[Text]) -> Result<Option<Rule>, NoMemory>
    ensures { IfOk result (λ rule. rule ≡ spec.spelled words.now) }
{
    let [name, verb, path, conditions @ ..] = words else {
        return Ok(None);
    };
    if !is_rule_name(name.as_str()) {
        return Ok(None);
    }
    let Some(allows) = verb_of(verb.as_str()) else {
        return Ok(None);
    };
    let Some(pattern) = pattern_of(alloc, path.as_str())? else {
        return Ok(None);
    };
    let Some(conditions) = conditions_of(alloc, conditions)? else {
        return Ok(None);
    };
    if conditions.len() > MAX_CONDITIONS {
        return Ok(None);
    }
    let name = name.copy()?;
    Ok(Some(Rule {
        name,
        allows,
        pattern,
        conditions,
    }))
}

/// The rule that a text spells.
pub(crate) fn rule_of(alloc: Global, text: &str) -> Result<Option<Rule>, NoMemory>
    ensures { IfOk result (λ rule. rule ≡ spec.rule_of text.now) }
{
    match words_of(alloc, text)? {
        Some(words) => spelled(alloc, words.as_slice()),
        None => Ok(None),
    }
}
