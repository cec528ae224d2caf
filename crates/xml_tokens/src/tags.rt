// Tags.

ghost use Rattle.std.specs.Prelude.{◌≡◌, ℕ, ◌<◌, List, ◌∷◌, ◌++◌, codes, IsTrue, IsFalse};
ghost use Rattle.std.specs.Option.{MatchOption};
ghost use Rattle.std.specs.Result.{IfOk, IfErr};
ghost use Rattle.xml_spec.specs.Ascii.{less_than};
ghost use Rattle.xml_spec.specs.Bytes.{begins_with};
ghost use Rattle.xml_spec.specs.Syntax.{is_white, Token};
ghost use Rattle.xml_spec.specs.Laws.{BeginsWith};
ghost use Rattle.xml_tokens.specs.Views.{Grows, added, Shows};
ghost use Rattle.xml_tokens.specs.Lexing.{is_name_byte, BeginsTag, NameAt, AttributesAt, EndAt, NoAttributes, NoEnd, NoToken, IsFaultFor};
ghost use Rattle.xml_tokens.specs.Markup.{bare_tag, NoBareStart};

use crate::class::{Class, begins_name, split_run};
use crate::marks::strip_byte;
use crate::name::WrittenName;
use crate::parts::{assignment, name};
use crate::token::{Attribute, Markup, TokenFault};

/// Whether the text begins with a sign that closes a tag.
fn begins_close(rest: &str) -> bool
    ensures white { IsTrue result → IsFalse (begins_with is_white rest.now) }
    ensures name { IsTrue result → IsFalse (begins_with is_name_byte rest.now) }
{
    match rest.as_bytes() {
        [first, ..] => *first == b'>' || *first == b'/',
        [] => false,
    }
}

/// Puts the attributes of a tag behind those of a list, and gives what follows them and the white space behind them.
///
/// # Errors
///
/// `Invalid`: what stands there is no such list. `NoMemory`.
#[inline(never)]
fn listed<'a>(whole: &'a str, attributes: &mut Vec<Attribute<'a>>) -> Result<&'a str, TokenFault>
    ensures grows { Grows attributes.old.items attributes.new.items }
    ensures reading { IfOk result (λ behind. AttributesAt whole.now (added attributes.old.items attributes.new.items) behind.now) }
    ensures refused { IfErr result (IsFaultFor (NoAttributes whole.now)) }
{
    let mut rest = whole;
    'tag: loop {
        let (space, at) = split_run(rest, Class::White);
        if !begins_name(at) {
            return Ok(at);
        }
        let (attribute, behind) = assignment(space, at)?;
        attributes.push(attribute)?;
        rest = behind;
    }
}

/// Puts the attributes of a tag behind those of a list, and gives what follows them and the white space behind them: there
/// are none where the tag closes.
///
/// # Errors
///
/// `Invalid`: what stands there is no such list. `NoMemory`.
#[inline(always)]
fn attributes<'a>(
    whole: &'a str,
    attributes: &mut Vec<Attribute<'a>>,
) -> Result<&'a str, TokenFault>
    ensures grows { Grows attributes.old.items attributes.new.items }
    ensures reading { IfOk result (λ behind. AttributesAt whole.now (added attributes.old.items attributes.new.items) behind.now) }
    ensures refused { IfErr result (IsFaultFor (NoAttributes whole.now)) }
{
    if begins_close(whole) {
        return Ok(whole);
    }
    listed(whole, attributes)
}

/// What follows the sign that closes the tag of an empty element.
fn strip_empty_close<'a>(rest: &'a str) -> Option<&'a str>
    ensures { MatchOption result ((x : List ℕ) → ¬ (rest.now ≡ codes "/>" ++ x)) (λ behind. rest.now ≡ codes "/>" ++ behind.now) }
{
    let sign = strip_byte(rest, b'/')?;
    strip_byte(sign, b'>')
}

/// The tag of this name, which stands behind `<` and in front of the given text, and what follows it. Its attributes are put
/// behind those of the list.
///
/// # Errors
///
/// `Invalid`: no valid token is written so. `NoMemory`.
#[inline(never)]
fn named_tag<'a>(
    name: &'a str,
    given: &'a str,
    list: &mut Vec<Attribute<'a>>,
) -> Result<(Markup<'a>, &'a str), TokenFault>
    requires named { NameAt (name.now ++ given.now) name.now given.now }
    requires begins { BeginsTag (name.now ++ given.now) }
    ensures grows { Grows list.old.items list.new.items }
    ensures reading { IfOk result (λ found. (token : Token) × Shows token found.0 (added list.old.items list.new.items)
        × BeginsWith (less_than ∷ (name.now ++ given.now)) token found.1.now) }
    ensures refused { IfErr result (IsFaultFor (NoToken (less_than ∷ (name.now ++ given.now)))) }
{
    let close = attributes(given, list)?;
    let name = WrittenName::new(name);
    if let Some(behind) = strip_byte(close, b'>') {
        return Ok((Markup::Start { name }, behind));
    }
    match strip_empty_close(close) {
        Some(behind) => Ok((Markup::Empty { name }, behind)),
        None => Err(TokenFault::Invalid),
    }
}

/// The start tag or the tag of an empty element behind `<`, and what follows it. Its attributes are put behind those
/// of the list.
///
/// # Errors
///
/// `Invalid`: no valid token is written so. `NoMemory`.
pub(crate) fn open_tag<'a>(
    rest: &'a str,
    attributes: &mut Vec<Attribute<'a>>,
) -> Result<(Markup<'a>, &'a str), TokenFault>
    requires begins { BeginsTag rest.now }
    ensures grows { Grows attributes.old.items attributes.new.items }
    ensures reading { IfOk result (λ found. (token : Token) × Shows token found.0 (added attributes.old.items attributes.new.items)
        × BeginsWith (less_than ∷ rest.now) token found.1.now) }
    ensures refused { IfErr result (IsFaultFor (NoToken (less_than ∷ rest.now))) }
{
    let Some((name, given)) = name(rest) else {
        return Err(TokenFault::Invalid);
    };
    if let Some(behind) = strip_byte(given, b'>') {
        let name = WrittenName::new(name);
        return Ok((Markup::Start { name }, behind));
    }
    let (token, behind) = named_tag(name, given, attributes)?;
    Ok((token, behind))
}

/// The start tag at the front of a text that holds a name alone, without attributes and white space: its name, and what
/// follows the tag.
pub fn bare_start<'a>(rest: &'a str) -> Option<(&'a str, &'a str)>
    ensures { MatchOption result (NoBareStart rest.now) (λ found. BeginsWith rest.now (bare_tag found.0.now) found.1.now) }
{
    let tag = strip_byte(rest, b'<')?;
    let (name, close) = name(tag)?;
    let behind = strip_byte(close, b'>')?;
    Some((name, behind))
}

/// The name of the end tag behind `</`, and what follows it.
pub(crate) fn end_tag<'a>(rest: &'a str) -> Option<(&'a str, &'a str)>
    ensures { MatchOption result (NoEnd rest.now) (λ found. EndAt rest.now found.0.now found.1.now) }
{
    let (name, space) = name(rest)?;
    let (_, close) = split_run(space, Class::White);
    let behind = strip_byte(close, b'>')?;
    Some((name, behind))
}
