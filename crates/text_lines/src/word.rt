// The words of a line.

ghost use Rattle.std.specs.Prelude.{◌≡◌, [], ◌∷◌, List, ℕ, IfOk, MatchOption};
ghost use Rattle.text_lines.specs.Words.{parts_of, between_spaces, words_of};
ghost use Rattle.text_lines.specs.Views.{parts_view};

use owned_values::{NoMemory, Text, Texts};
use std::alloc::Global;
use std::marker::Model;

/// A line in two, at its first space.
#[derive(Clone, Copy, Debug, PartialEq, Eq)]
pub struct Parts<'a> {
    /// What stands in front of the first space.
    pub first: &'a str,
    /// What stands behind it; none where there is no space.
    pub rest: Option<&'a str>,
}

/// The line in two, at its first space.
pub fn parts_of(line: &str) -> Parts<'_>
    ensures { parts_view result ≡ parts_of line.now }
{
    for (i, byte) in line.as_bytes().iter().enumerate() {
        if *byte == b' ' {
            return Parts {
                first: &line[..i],
                rest: Some(&line[i + 1..]),
            };
        }
    }
    Parts {
        first: line,
        rest: None,
    }
}

/// What stands between the spaces of a line, from one on. A word that is empty is no word: who reads words refuses it.
#[derive(Debug, Drop)]
pub struct Words<'a> {
    rest: Option<&'a str>,
}

impl<'a> Model for Words<'a> {
    ghost use Rattle.std.specs.Prelude.{List, ℕ, []};
    ghost use Rattle.std.specs.Option.{option_map_or};
    ghost use Rattle.text_lines.specs.Words.{between_spaces};

    ghost Value = { List (List ℕ) };

    ghost view = { λ w. option_map_or (λ text. between_spaces text.now) w.rest [] };
}

impl<'a> Words<'a> {
    /// The words of the line.
    pub fn of(line: &'a str) -> Words<'a>
        ensures { result ≡ between_spaces line.now }
    {
        Words { rest: Some(line) }
    }

    /// The next word, which may be empty; none where there is none.
    pub fn next_word(&mut self) -> Option<&'a str>
        ensures { MatchOption result ((self.old ≡ []) × (self.new ≡ [])) (λ word. self.old ≡ word.now ∷ self.new) }
    {
        let line = self.rest?;
        let parts = parts_of(line);
        self.rest = parts.rest;
        Some(parts.first)
    }
}

/// The words of a line; none where a word would be empty, so that two spaces stand together or one stands at an end.
pub fn words_of(alloc: Global, line: &str) -> Result<Option<Texts>, NoMemory>
    ensures { IfOk result (λ found. found ≡ words_of line.now) }
{
    let mut found = Texts::new(alloc);
    let mut words = Words::of(line);
    while let Some(word) = words.next_word() {
        if word.is_empty() {
            return Ok(None);
        }
        found.push(Text::of(alloc, word)?)?;
    }
    Ok(Some(found))
}
