// Texts of elements that are kept as they are written.

ghost use Rattle.std.specs.Prelude.{◌≡◌, ℕ, List, [], ◌++◌, ◌↔◌, take, string_bytes, IsTrue, OnOk, OnErr};
ghost use Rattle.std.specs.Option.{MatchOption};
ghost use Rattle.xml_spec.specs.Syntax.{Item, Alone};
ghost use Rattle.xml_spec.specs.Laws.{BeginsWith};
ghost use Rattle.xml_tokens.specs.Texts.{characters_of, is_text, item_text, IsWrittenText, part_text, IsNextPart};

use crate::class::{Class, split_run};
use crate::lines::{put_line_ends, strip_line_ends};
use crate::marks::{split_mark, strip_character, strip_word};
use crate::values::reference;
use std::alloc::AllocError;
use std::marker::Model;

/// A text of an element: a run of characters, references and CDATA sections. Contracts see it as what it means, with its
/// references replaced, its sections' signs taken away and its line ends translated (XML 1.0, 2.4, 2.7, 2.11 and 4.1).
#[derive(Debug, Drop)]
pub struct ElementText<'a> {
    written: &'a str,
}

impl<'a> Model for ElementText<'a> {
    ghost use Rattle.std.specs.Prelude.{List, ℕ};

    ghost Value = { List ℕ };

    ghost use Rattle.xml_tokens.specs.Texts.{characters_of, IsWrittenText};

    ghost view = { λ t. characters_of t.written.now };

    ghost invariant = { λ t. IsWrittenText t.written.now };
}

impl<'a> ElementText<'a> {
    /// Appends what the text means.
    ///
    /// # Errors
    ///
    /// Memory ran out: a part of the text may have been appended.
    pub fn put(&self, out: &mut String) -> Result<(), AllocError>
        ensures ok { OnOk result (string_bytes out.new ≡ string_bytes out.old ++ self.now) }
        ensures err { OnErr result ((k : ℕ) × (string_bytes out.new ≡ string_bytes out.old ++ take k self.now)) }
    {
        put_written(self.written, out)
    }

    /// Whether the text means this one, byte by byte. It takes no memory.
    pub fn is(&self, text: &str) -> bool
        ensures { IsTrue result ↔ (self.now ≡ text.now) }
    {
        is_written(self.written, text)
    }
}

/// A text that is being read. Contracts see it as what it means so far, and what stands behind it.
#[derive(Debug, Drop)]
pub struct TextRun<'a> {
    from: &'a str,
    behind: &'a str,
}

impl<'a> Model for TextRun<'a> {
    ghost use Rattle.xml_tokens.specs.Texts.{RunView, coded_run, run_view, IsReadText};

    ghost Value = { RunView };

    ghost coded = { coded_run };

    ghost view = { λ r. run_view r.from.now r.behind.now };

    ghost invariant = { λ r. IsReadText r.from.now r.behind.now };
}

impl<'a> TextRun<'a> {
    /// In front of this, where no text is read so far.
    pub fn at(rest: &'a str) -> TextRun<'a>
        ensures { result ≡ record { text = []; behind = rest.now } }
    {
        TextRun {
            from: rest,
            behind: rest,
        }
    }

    /// What stands behind the text so far.
    pub fn behind(&self) -> &'a str
        ensures { result.now ≡ self.now.behind }
    {
        self.behind
    }

    /// Adds the piece of a text that stands between the text so far and this.
    pub fn add(&mut self, behind: &'a str)
        requires { (item : Item) × IsTrue (is_text item) × BeginsWith self.old.behind (Alone item) behind.now }
        ensures { (item : Item) → IsTrue (is_text item) → BeginsWith self.old.behind (Alone item) behind.now →
            self.new ≡ record { text = self.old.text ++ item_text item; behind = behind.now } }
    {
        self.behind = behind;
    }

    /// The text so far.
    pub fn text(&self) -> ElementText<'a>
        ensures { result ≡ self.now.text }
    {
        let behind = self.behind();
        let (written, _) = self.from.split_at(self.from.len() - behind.len());
        ElementText { written }
    }
}

/// A part of a text.
#[derive(Clone, Copy)]
enum Part<'a> {
    /// A run of characters, or what a section holds.
    Literal(&'a str),
    /// The character of a reference.
    Referred(char),
}

/// The first part of a text, and what follows it.
fn next_part<'a>(rest: &'a str) -> Option<(Part<'a>, &'a str)>
    requires { IsWrittenText rest.now }
    ensures { MatchOption result (rest.now ≡ []) (λ found. IsNextPart rest.now (part_text found.0) found.1.now) }
{
    if rest.is_empty() {
        return None;
    }
    if let Some((character, behind)) = reference(rest) {
        return Some((Part::Referred(character), behind));
    }
    if let Some(inner) = strip_word(rest, "<![CDATA[") {
        let (section, behind) = split_mark(inner, "]]>")?;
        return Some((Part::Literal(section), behind));
    }
    let (text, behind) = split_run(rest, Class::Characters);
    Some((Part::Literal(text), behind))
}

fn put_part(part: Part<'_>, out: &mut String) -> Result<(), AllocError>
    ensures ok { OnOk result (string_bytes out.new ≡ string_bytes out.old ++ part_text part.entry) }
    ensures err { OnErr result ((k : ℕ) × (string_bytes out.new ≡ string_bytes out.old ++ take k (part_text part.entry))) }
{
    match part {
        Part::Literal(text) => put_line_ends(text, out),
        Part::Referred(character) => out.push(character),
    }
}

fn put_written(written: &str, out: &mut String) -> Result<(), AllocError>
    requires { IsWrittenText written.now }
    ensures ok { OnOk result (string_bytes out.new ≡ string_bytes out.old ++ characters_of written.now) }
    ensures err { OnErr result ((k : ℕ) × (string_bytes out.new ≡ string_bytes out.old ++ take k (characters_of written.now))) }
{
    let mut rest = written;
    'parts: while let Some((part, behind)) = next_part(rest) {
        put_part(part, out)?;
        rest = behind;
    }
    Ok(())
}

/// What follows the part, where the text begins with it.
fn strip_part<'a>(text: &'a str, part: Part<'_>) -> Option<&'a str>
    ensures { MatchOption result ((x : List ℕ) → ¬ (text.now ≡ part_text part.entry ++ x)) (λ behind. text.now ≡ part_text part.entry ++ behind.now) }
{
    match part {
        Part::Literal(written) => strip_line_ends(text, written),
        Part::Referred(character) => strip_character(text, character),
    }
}

fn is_written(written: &str, text: &str) -> bool
    requires { IsWrittenText written.now }
    ensures { IsTrue result ↔ (characters_of written.now ≡ text.now) }
{
    let mut rest = written;
    let mut left = text;
    'parts: while let Some((part, behind)) = next_part(rest) {
        let Some(more) = strip_part(left, part) else {
            return false;
        };
        rest = behind;
        left = more;
    }
    left.is_empty()
}
