// Line ends and tabs.

ghost use Rattle.std.specs.Prelude.{◌≡◌, ℕ, List, ◌++◌, take, string_bytes};
ghost use Rattle.std.specs.Option.{MatchOption};
ghost use Rattle.std.specs.Result.{OnOk, OnErr};
ghost use Rattle.xml_spec.specs.Meaning.{line_ends};
ghost use Rattle.xml_tokens.specs.Lexing.{NoBlank, BlankAt};

use crate::marks::{split_mark, strip_byte, strip_word};
use std::alloc::AllocError;

/// Appends a text with its line ends translated (XML 1.0, 2.11).
///
/// # Errors
///
/// Memory ran out: a part of the text may have been appended.
pub fn put_line_ends(text: &str, out: &mut String) -> Result<(), AllocError>
    ensures ok { OnOk result (string_bytes out.new ≡ string_bytes out.old ++ line_ends text.now) }
    ensures err { OnErr result ((k : ℕ) × (string_bytes out.new ≡ string_bytes out.old ++ take k (line_ends text.now))) }
{
    let mut rest = text;
    'lines: while let Some((line, behind)) = split_mark(rest, "\r") {
        out.push_str(line)?;
        out.push('\n')?;
        rest = strip_byte(behind, b'\n').unwrap_or(behind);
    }
    out.push_str(rest)
}

/// What follows this text with its line ends translated, where `left` begins with it.
pub fn strip_line_ends<'a>(left: &'a str, text: &str) -> Option<&'a str>
    ensures { MatchOption result ((x : List ℕ) → ¬ (left.now ≡ line_ends text.now ++ x)) (λ behind. left.now ≡ line_ends text.now ++ behind.now) }
{
    let mut rest = text;
    let mut more = left;
    'lines: while let Some((line, behind)) = split_mark(rest, "\r") {
        let ended = strip_word(more, line)?;
        let next = strip_byte(ended, b'\n')?;
        more = next;
        rest = strip_byte(behind, b'\n').unwrap_or(behind);
    }
    strip_word(more, rest)
}

/// What follows a tab or a line end.
pub(crate) fn strip_blank<'a>(rest: &'a str) -> Option<&'a str>
    ensures { MatchOption result (NoBlank rest.now) (λ behind. BlankAt rest.now behind.now) }
{
    if let Some(behind) = strip_byte(rest, b'\r') {
        return Some(strip_byte(behind, b'\n').unwrap_or(behind));
    }
    if let Some(behind) = strip_byte(rest, b'\n') {
        return Some(behind);
    }
    strip_byte(rest, b'\t')
}
