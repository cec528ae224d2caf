// References, and the values of attributes.

ghost use Rattle.std.specs.Prelude.{◌≡◌, ℕ, List, ◌∷◌, IsTrue};
ghost use Rattle.std.specs.Option.{MatchOption};
ghost use Rattle.std.specs.Result.{IfOk, IfErr};
ghost use Rattle.xml_spec.specs.Syntax.{is_quote};
ghost use Rattle.xml_chars.specs.Reading.{BeginsWithReference, BeginsWithNone};
ghost use Rattle.xml_tokens.specs.Lexing.{PiecesAt, ValueAt, NoPieces, NoQuote, NoValue, IsFaultFor};

use crate::class::{Class, split_run};
use crate::marks::strip_byte;
use crate::token::TokenFault;
use crate::value::AttributeValue;
use xml_chars::read_reference;

/// The character that a reference stands for, and what follows the reference. Most texts begin with none, which their first
/// byte tells.
pub(crate) fn reference<'a>(rest: &'a str) -> Option<(char, &'a str)>
    ensures { MatchOption result (BeginsWithNone rest.now) (λ found. BeginsWithReference rest.now found.0 found.1.now) }
{
    let _name = strip_byte(rest, b'&')?;
    let (character, end) = read_reference(rest.as_bytes(), 0)?;
    Some((character, &rest[end..]))
}

/// A quote, and what follows it.
pub(crate) fn strip_quote<'a>(rest: &'a str) -> Option<(u8, &'a str)>
    ensures { MatchOption result (NoQuote rest.now) (λ found. IsTrue (is_quote found.0) × (rest.now ≡ found.0 ∷ found.1.now)) }
{
    if let Some(behind) = strip_byte(rest, b'"') {
        return Some((b'"', behind));
    }
    let behind = strip_byte(rest, b'\'')?;
    Some((b'\'', behind))
}

/// What follows the quote that ends a value, where its parts stand in front of it.
///
/// # Errors
///
/// `Invalid`: no valid parts and quote stand there.
fn value_end<'a>(inner: &'a str, quote: u8) -> Result<&'a str, TokenFault>
    requires quote { IsTrue (is_quote quote) }
    ensures reading { IfOk result (λ behind. (value : List ℕ) × PiecesAt quote inner.now value behind.now) }
    ensures refused { IfErr result (IsFaultFor (NoPieces quote inner.now)) }
{
    let mut rest = inner;
    'value: loop {
        let (_, at) = split_run(rest, Class::Value(quote));
        if let Some(behind) = strip_byte(at, quote) {
            return Ok(behind);
        }
        let Some((_character, behind)) = reference(at) else {
            return Err(TokenFault::Invalid);
        };
        rest = behind;
    }
}

/// A quoted value, and what follows it.
///
/// # Errors
///
/// `Invalid`: no valid value stands there.
pub(crate) fn value<'a>(rest: &'a str) -> Result<(AttributeValue<'a>, &'a str), TokenFault>
    ensures reading { IfOk result (λ found. ValueAt rest.now found.0 found.1.now) }
    ensures refused { IfErr result (IsFaultFor (NoValue rest.now)) }
{
    let Some((quote, inner)) = strip_quote(rest) else {
        return Err(TokenFault::Invalid);
    };
    let behind = value_end(inner, quote)?;
    let (written, _) = inner.split_at(inner.len() - behind.len() - 1);
    Ok((AttributeValue::new(written), behind))
}
