// Names, equals signs and attributes at the front of a text: each reader takes what is left of the text, and gives
// what it read and what follows it.

ghost use Rattle.std.specs.Prelude.{◌≡◌, ◌<◌, ◌≤◌, ◌++◌, length, take, IsTrue, IsFalse, IfSome};
ghost use Rattle.std.specs.Option.{MatchOption};
ghost use Rattle.std.specs.Result.{IfOk, IfErr};
ghost use Rattle.xml_spec.specs.Bytes.{AllPass, begins_with};
ghost use Rattle.xml_spec.specs.Characters.{is_name_start, is_name_char, IsName, IsNoColonName};
ghost use Rattle.xml_spec.specs.Syntax.{is_white};
ghost use Rattle.xml_tokens.specs.Views.{attribute_view};
ghost use Rattle.xml_tokens.specs.Lexing.{is_ascii_name_byte, NameAt, EqualsAt, AssignedAt, AssignmentAt, NoName, NoEquals, NoAssigned, NoAssignment, IsFaultFor};

use crate::class::{Class, begins_name, split_run};
use crate::marks::{has_byte, strip_byte};
use crate::name::WrittenName;
use crate::token::{Attribute, TokenFault};
use crate::values::value;

/// Whether the byte is ASCII and may begin a name.
fn is_name_start_byte(byte: u8) -> bool
    ensures ascii { IsTrue result → byte < 128 }
    ensures starts { byte < 128 → result ≡ is_name_start byte }
{
    matches!(byte, b'a'..=b'z') || matches!(byte, b'A'..=b'Z' | b'_' | b':')
}

/// Whether the byte is ASCII and may stand in a name.
fn is_name_char_byte(byte: u8) -> bool
    ensures ascii { IsTrue result → byte < 128 }
    ensures stands { byte < 128 → result ≡ is_name_char byte }
{
    // the sign behind most names is told first
    byte != b'>' && (is_name_start_byte(byte) || matches!(byte, b'0'..=b'9' | b'-' | b'.'))
}

/// How many of the first bytes are ASCII and may stand in a name.
fn ascii_len(bytes: &[u8]) -> usize
    ensures within { result ≤ length bytes.now }
    ensures passes { AllPass is_ascii_name_byte (take result bytes.now) }
{
    for (i, byte) in bytes.iter().enumerate() {
        if !is_name_char_byte(*byte) {
            return i;
        }
    }
    bytes.len()
}

/// Whether the text, of ASCII that may stand in a name, is one.
fn is_ascii_name(text: &str) -> bool
    requires passes { AllPass is_ascii_name_byte text.now }
    ensures { IsTrue result → IsName text.now }
{
    match text.as_bytes() {
        [first, ..] => is_name_start_byte(*first),
        [] => false,
    }
}

/// Whether the text is a name of ASCII alone that has no colon. `false` says nothing.
pub fn is_ascii_no_colon_name(text: &str) -> bool
    ensures { IsTrue result → IsNoColonName text.now }
{
    if ascii_len(text.as_bytes()) < text.len() {
        return false;
    }
    is_ascii_name(text) && !has_byte(text, b':')
}

/// A name of ASCII alone, and what follows it. `None` says nothing.
#[inline(always)]
fn ascii_name<'a>(rest: &'a str) -> Option<(&'a str, &'a str)>
    ensures { IfSome result (λ found. NameAt rest.now found.0.now found.1.now) }
{
    let (name, behind) = rest.split_at(ascii_len(rest.as_bytes()));
    if is_ascii_name(name) && !begins_name(behind) {
        Some((name, behind))
    } else {
        None
    }
}

/// A name of any characters, and what follows it.
#[cold]
#[inline(never)]
fn any_name<'a>(rest: &'a str) -> Option<(&'a str, &'a str)>
    ensures { MatchOption result (NoName rest.now) (λ found. NameAt rest.now found.0.now found.1.now) }
{
    let (name, behind) = split_run(rest, Class::Name);
    if xml_chars::is_name(name) {
        Some((name, behind))
    } else {
        None
    }
}

/// A name, and what follows it.
#[inline(always)]
pub(crate) fn name<'a>(rest: &'a str) -> Option<(&'a str, &'a str)>
    ensures { MatchOption result (NoName rest.now) (λ found. NameAt rest.now found.0.now found.1.now) }
{
    if let Some(found) = ascii_name(rest) {
        return Some(found);
    }
    let (name, behind) = any_name(rest)?;
    Some((name, behind))
}

/// What follows an equals sign and the white space round it.
pub(crate) fn equals<'a>(rest: &'a str) -> Option<&'a str>
    ensures { MatchOption result (NoEquals rest.now) (λ found. EqualsAt rest.now found.now) }
{
    let (_, sign) = split_run(rest, Class::White);
    let behind = strip_byte(sign, b'=')?;
    let (_, behind) = split_run(behind, Class::White);
    Some(behind)
}

/// A name and the value that it is given, and what follows them.
///
/// # Errors
///
/// `Invalid`: no such thing stands there.
fn assigned<'a>(rest: &'a str) -> Result<(Attribute<'a>, &'a str), TokenFault>
    ensures reading { IfOk result (λ found. AssignedAt rest.now (attribute_view found.0) found.1.now) }
    ensures refused { IfErr result (IsFaultFor (NoAssigned rest.now)) }
{
    let Some((name, sign)) = name(rest) else {
        return Err(TokenFault::Invalid);
    };
    let Some(quote) = equals(sign) else {
        return Err(TokenFault::Invalid);
    };
    let (value, behind) = value(quote)?;
    let name = WrittenName::new(name);
    Ok((Attribute { name, value }, behind))
}

/// The attribute behind this white space, and what follows it.
///
/// # Errors
///
/// `Invalid`: no white space and attribute stand there.
pub(crate) fn assignment<'a>(
    space: &str,
    rest: &'a str,
) -> Result<(Attribute<'a>, &'a str), TokenFault>
    requires white { AllPass is_white space.now }
    requires stops { IsFalse (begins_with is_white rest.now) }
    ensures reading { IfOk result (λ found. AssignmentAt (space.now ++ rest.now) (attribute_view found.0) found.1.now) }
    ensures refused { IfErr result (IsFaultFor (NoAssignment (space.now ++ rest.now))) }
{
    if space.is_empty() {
        return Err(TokenFault::Invalid);
    }
    assigned(rest)
}
