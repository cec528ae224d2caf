// The parts of an XML declaration.

ghost use Rattle.std.specs.Prelude.{IsTrue, codes};
ghost use Rattle.std.specs.Option.{MatchOption};
ghost use Rattle.xml_spec.specs.Bytes.{begins_with};
ghost use Rattle.xml_tokens.specs.Lexing.{QuotedAt, NoQuoted};
ghost use Rattle.xml_tokens.specs.Heads.{is_no_white, IsEncoding, IsStandalone, SettingAt, NoSetting, OptionalAt, NoOptional, VersionAt, NoVersion, DeclaredAt, NoDeclared};

use crate::class::{Class, split_run};
use crate::marks::{strip_byte, strip_word};
use crate::parts::equals;
use crate::values::strip_quote;

/// A quoted value as it is written, without references, and what follows it.
fn quoted<'a>(rest: &'a str) -> Option<(&'a str, &'a str)>
    ensures { MatchOption result (NoQuoted rest.now) (λ found. QuotedAt rest.now found.0.now found.1.now) }
{
    let (quote, inner) = strip_quote(rest)?;
    let (value, close) = split_run(inner, Class::Value(quote));
    let behind = strip_byte(close, quote)?;
    Some((value, behind))
}

/// The value that is set under this name, and what follows it.
fn setting<'a>(rest: &'a str, name: &str) -> Option<(&'a str, &'a str)>
    requires word { IsTrue (begins_with is_no_white name.now) }
    ensures { MatchOption result (NoSetting name.now rest.now) (λ found. SettingAt name.now rest.now found.0.now found.1.now) }
{
    let (space, word) = split_run(rest, Class::White);
    if space.is_empty() {
        return None;
    }
    let sign = strip_word(word, name)?;
    let quote = equals(sign)?;
    quoted(quote)
}

/// What follows the version, where it is 1.0.
fn version<'a>(rest: &'a str) -> Option<&'a str>
    ensures { MatchOption result (NoVersion rest.now) (λ behind. VersionAt rest.now behind.now) }
{
    let (value, behind) = setting(rest, "version")?;
    if value == "1.0" { Some(behind) } else { None }
}

/// What follows the encoding, where it is UTF-8 or none is set.
fn encoding<'a>(rest: &'a str) -> Option<&'a str>
    ensures { MatchOption result (NoOptional (codes "encoding") IsEncoding rest.now)
        (λ behind. OptionalAt (codes "encoding") IsEncoding rest.now behind.now) }
{
    let Some((value, behind)) = setting(rest, "encoding") else {
        return Some(rest);
    };
    if value.as_bytes().eq_ignore_ascii_case(b"utf-8") {
        Some(behind)
    } else {
        None
    }
}

/// What follows the word on whether the document stands alone, where it is `yes` or `no` or there is none.
fn standalone<'a>(rest: &'a str) -> Option<&'a str>
    ensures { MatchOption result (NoOptional (codes "standalone") IsStandalone rest.now)
        (λ behind. OptionalAt (codes "standalone") IsStandalone rest.now behind.now) }
{
    let Some((value, behind)) = setting(rest, "standalone") else {
        return Some(rest);
    };
    if value == "yes" || value == "no" {
        Some(behind)
    } else {
        None
    }
}

/// What follows the XML declaration behind its `<?xml`.
pub(crate) fn behind_declaration<'a>(rest: &'a str) -> Option<&'a str>
    ensures { MatchOption result (NoDeclared rest.now) (λ behind. DeclaredAt rest.now behind.now) }
{
    let encoded = version(rest)?;
    let alone = encoding(encoded)?;
    let space = standalone(alone)?;
    let (_, close) = split_run(space, Class::White);
    strip_word(close, "?>")
}
