// The tokens of a text.

ghost use Rattle.std.specs.Prelude.{◌≡◌, ◌≢◌, ℕ, ◌<◌, ◌⊎◌, ◌↔◌, List, ◌++◌, length, codes, IsTrue, None};
ghost use Rattle.std.specs.Option.{MatchOption};
ghost use Rattle.std.specs.Result.{IfOk, IfErr};
ghost use Rattle.std.specs.Str.{str_to_ascii_lowercase};
ghost use Rattle.xml_spec.specs.Characters.{at_colon};
ghost use Rattle.xml_spec.specs.Syntax.{Token};
ghost use Rattle.xml_spec.specs.Laws.{BeginsWith};
ghost use Rattle.xml_tokens.specs.Views.{Grows, added, Shows};
ghost use Rattle.xml_tokens.specs.Markup.{NoTokens};
ghost use Rattle.xml_tokens.specs.Lexing.{CharactersAt, NoCharacters, CommentAt, NoComment, ProcessingInstructionAt, NoProcessingInstruction, ReadsToken};

use crate::class::{Class, split_run};
use crate::marks::{has_mark, split_mark, strip_byte, strip_word};
use crate::parts::name;
use crate::tags::{end_tag, open_tag};
use crate::token::{Attribute, Markup, TokenFault};
use crate::values::reference;

/// A run of characters, and what follows it.
fn characters<'a>(rest: &'a str) -> Option<(&'a str, &'a str)>
    ensures { MatchOption result (NoCharacters rest.now) (λ found. CharactersAt rest.now found.0.now found.1.now) }
{
    let (text, behind) = split_run(rest, Class::Characters);
    if text.is_empty() || has_mark(text, "]]>") {
        return None;
    }
    Some((text, behind))
}

/// The run of characters or the reference at the front of a text, and what follows it.
fn text_token<'a>(rest: &'a str) -> Option<(Markup<'a>, &'a str)>
    requires some { 0 < length rest.now }
    requires no_tag { (x : List ℕ) → ¬ (rest.now ≡ codes "<" ++ x) }
    ensures { ReadsToken rest.now result }
{
    if let Some((character, behind)) = reference(rest) {
        return Some((Markup::Reference(character), behind));
    }
    let (text, behind) = characters(rest)?;
    Some((Markup::Characters(text), behind))
}

/// What the comment behind `<!--` holds, and what follows it.
fn comment<'a>(rest: &'a str) -> Option<(&'a str, &'a str)>
    ensures { MatchOption result (NoComment rest.now) (λ found. CommentAt rest.now found.0.now found.1.now) }
{
    let (text, close) = split_mark(rest, "--")?;
    let behind = strip_byte(close, b'>')?;
    Some((text, behind))
}

/// The CDATA section or the comment behind `<!`, and what follows it.
fn section_or_comment<'a>(rest: &'a str) -> Option<(Markup<'a>, &'a str)>
    ensures { ReadsToken (codes "<!" ++ rest.now) result }
{
    if let Some(inner) = strip_word(rest, "[CDATA[") {
        let (text, behind) = split_mark(inner, "]]>")?;
        return Some((Markup::Section(text), behind));
    }
    let inner = strip_word(rest, "--")?;
    let (text, behind) = comment(inner)?;
    Some((Markup::Comment(text), behind))
}

/// Whether a name may be that of an instruction: it has no colon, and is not `xml` in any case of its letters.
fn is_target(name: &str) -> bool
    ensures { IsTrue result ↔ ((at_colon name.now ≡ None) × (str_to_ascii_lowercase name.now ≢ codes "xml")) }
{
    !has_mark(name, ":") && !name.as_bytes().eq_ignore_ascii_case(b"xml")
}

/// The instruction behind `<?`, and what follows it.
fn instruction<'a>(rest: &'a str) -> Option<(&'a str, &'a str, &'a str)>
    ensures { MatchOption result (NoProcessingInstruction rest.now) (λ found. ProcessingInstructionAt rest.now found.0.now found.1.now found.2.now) }
{
    let (target, given) = name(rest)?;
    if !is_target(target) {
        return None;
    }
    let (space, inner) = split_run(given, Class::White);
    let (value, behind) = split_mark(inner, "?>")?;
    if space.is_empty() && !value.is_empty() {
        return None;
    }
    Some((target, value, behind))
}

/// The instruction behind `<?` as a token, and what follows it.
fn instruction_token<'a>(rest: &'a str) -> Option<(Markup<'a>, &'a str)>
    ensures { ReadsToken (codes "<?" ++ rest.now) result }
{
    let (target, value, behind) = instruction(rest)?;
    Some((Markup::Instruction { target, value }, behind))
}

/// The end tag behind `</` as a token, and what follows it.
fn end_token<'a>(rest: &'a str) -> Option<(Markup<'a>, &'a str)>
    ensures { ReadsToken (codes "</" ++ rest.now) result }
{
    let (name, behind) = end_tag(rest)?;
    Some((Markup::End { name }, behind))
}

/// The first token of the rest, and what follows it. The attributes of a tag are put behind those of the list; those
/// of an invalid tag may be put there too.
///
/// # Errors
///
/// `Invalid`: no valid tokens are written so. `NoMemory`.
pub fn next_token<'a>(
    rest: &'a str,
    attributes: &mut Vec<Attribute<'a>>,
) -> Result<(Markup<'a>, &'a str), TokenFault>
    requires some { 0 < length rest.now }

    // What is read is a valid token, as long as it can be, and what follows it is given back.
    ensures read { IfOk result (λ found. (token : Token) × Shows token found.0 (added attributes.old.items attributes.new.items)
        × BeginsWith rest.now token found.1.now) }
    ensures grows { Grows attributes.old.items attributes.new.items }
    ensures refused { IfErr result (λ e. (e ≡ TokenFault.NoMemory) ⊎ ((e ≡ TokenFault.Invalid) × NoTokens rest.now)) }
{
    let Some(tag) = strip_byte(rest, b'<') else {
        return text_token(rest).ok_or(TokenFault::Invalid);
    };
    if let Some(ended) = strip_byte(tag, b'/') {
        return end_token(ended).ok_or(TokenFault::Invalid);
    }
    if let Some(inner) = strip_byte(tag, b'?') {
        return instruction_token(inner).ok_or(TokenFault::Invalid);
    }
    if let Some(inner) = strip_byte(tag, b'!') {
        return section_or_comment(inner).ok_or(TokenFault::Invalid);
    }
    open_tag(tag, attributes)
}
