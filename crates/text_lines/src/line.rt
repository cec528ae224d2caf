// Lines one after the other.

ghost use Rattle.std.specs.Prelude.{◌≡◌, ◌<◌, ◌^◌, [], ◌∷◌, length, MatchOption};
ghost use Rattle.text_lines.specs.Lines.{lines, said, is_passed_over};
ghost use Rattle.text_lines.specs.Views.{said_view};

use std::marker::Model;
use xml_chars::text_of;

/// What a line says.
#[derive(Clone, Copy, Debug, PartialEq, Eq)]
pub enum Said<'a> {
    /// A line that is neither empty nor a comment: its number, from 1, and its text without the line feed.
    Line { number: u64, text: &'a str },
    /// The line of this number is not UTF-8, or holds a character that XML does not allow.
    NoText { number: u64 },
}

/// The lines of a text, from one on.
#[derive(Debug, Drop)]
pub struct Lines<'a> {
    rest: &'a [u8],
    number: u64,
}

impl<'a> Model for Lines<'a> {
    ghost use Rattle.std.specs.Prelude.{List, ◌+◌, ◌<◌, ◌^◌, length};
    ghost use Rattle.text_lines.specs.Lines as lines;

    ghost Value = { List lines.Said };

    ghost view = { λ l. lines.said_from l.number (lines.lines l.rest.now) };

    ghost invariant = { λ l. l.number + length l.rest.now < 2 ^ 64 };
}

/// The first line of what is left, and what stands behind its line feed.
fn first_line(rest: &[u8]) -> (&[u8], &[u8])
    requires { 0 < length rest.now }
    ensures lines { lines rest.now ≡ result.0.now ∷ lines result.1.now }
    ensures shorter { length result.1.now < length rest.now }
{
    for (i, byte) in rest.iter().enumerate() {
        if *byte == b'\n' {
            return (&rest[..i], &rest[i + 1..]);
        }
    }
    (rest, &rest[rest.len()..])
}

/// Whether the line is empty or a comment.
fn is_passed_over(line: &str) -> bool
    ensures { result ≡ is_passed_over line.now }
{
    line.is_empty() || line.as_bytes()[0] == b'#'
}

impl<'a> Lines<'a> {
    /// The lines of the text.
    pub fn new(text: &'a [u8]) -> Lines<'a>
        ensures { result ≡ said text.now }
    {
        Lines {
            rest: text,
            number: 1,
        }
    }

    /// What the next line says that is neither empty nor a comment; none where there is no such line. Behind a line
    /// that is no text nothing is said.
    pub fn next_said(&mut self) -> Option<Said<'a>>
        ensures { MatchOption result ((self.old ≡ []) × (self.new ≡ [])) (λ next. self.old ≡ said_view next ∷ self.new) }
    {
        while !self.rest.is_empty() {
            let number = self.number;
            let (line, rest) = first_line(self.rest);
            let Some(text) = text_of(line) else {
                self.rest = &self.rest[self.rest.len()..];
                return Some(Said::NoText { number });
            };
            self.rest = rest;
            self.number = number + 1;
            if !is_passed_over(text) {
                return Some(Said::Line { number, text });
            }
        }
        None
    }
}
