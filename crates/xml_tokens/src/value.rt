// Values of attributes that are kept as they are written.

ghost use Rattle.std.specs.Prelude.{◌≡◌, ℕ, [], ◌++◌, ◌↔◌, take, string_bytes, IsTrue, IsFalse, IfOk, OnOk, OnErr};
ghost use Rattle.std.specs.Option.{MatchOption};
ghost use Rattle.xml_spec.specs.Bytes.{begins_with};
ghost use Rattle.xml_tokens.specs.Lexing.{is_kept_byte};
ghost use Rattle.xml_tokens.specs.Decoded.{value_of, HasReferences, IsNext};

use crate::class::{Class, split_run};
use crate::lines::strip_blank;
use crate::marks::{strip_character, strip_word};
use crate::values::reference;
use std::alloc::{AllocError, Global};
use std::marker::Model;

/// The value of an attribute: the text between its quotes. Contracts see it as what it means, with its references
/// replaced and its white space normalized (XML 1.0, 3.3.3).
#[derive(Debug, Drop)]
pub struct AttributeValue<'a> {
    written: &'a str,
}

impl<'a> Model for AttributeValue<'a> {
    ghost use Rattle.std.specs.Prelude.{List, ℕ};

    ghost Value = { List ℕ };

    ghost use Rattle.xml_tokens.specs.Decoded.{value_of, HasReferences};

    ghost view = { λ v. value_of v.written.now };

    ghost invariant = { λ v. HasReferences v.written.now };
}

impl<'a> AttributeValue<'a> {
    /// The value that is written so.
    pub(crate) fn new(written: &'a str) -> AttributeValue<'a>
        requires { HasReferences written.now }
        ensures { result ≡ value_of written.now }
    {
        AttributeValue { written }
    }

    /// Appends what the value means.
    ///
    /// # Errors
    ///
    /// Memory ran out: a part of the value may have been appended.
    pub fn put(&self, out: &mut String) -> Result<(), AllocError>
        ensures ok { OnOk result (string_bytes out.new ≡ string_bytes out.old ++ self.now) }
        ensures err { OnErr result ((k : ℕ) × (string_bytes out.new ≡ string_bytes out.old ++ take k self.now)) }
    {
        put_value(self.written, out)
    }

    /// What the value means, as a text of its own.
    ///
    /// # Errors
    ///
    /// Memory ran out.
    pub fn text(&self, alloc: Global) -> Result<String, AllocError>
        ensures { IfOk result (λ text. string_bytes text ≡ self.now) }
    {
        let mut text = String::new(alloc);
        self.put(&mut text)?;
        Ok(text)
    }

    /// Whether the value means this text, byte by byte. It takes no memory.
    pub fn is(&self, text: &str) -> bool
        ensures { IsTrue result ↔ (self.now ≡ text.now) }
    {
        is_value(self.written, text)
    }
}

/// The character that is meant by what stands behind a run of bytes that mean themselves, and what follows it.
fn next_character<'a>(at: &'a str) -> Option<(char, &'a str)>
    requires references { HasReferences at.now }
    requires stops { IsFalse (begins_with is_kept_byte at.now) }
    ensures { MatchOption result (at.now ≡ []) (λ found. IsNext at.now found.0 found.1.now) }
{
    if let Some(behind) = strip_blank(at) {
        return Some((' ', behind));
    }
    reference(at)
}

fn put_value(written: &str, out: &mut String) -> Result<(), AllocError>
    requires { HasReferences written.now }
    ensures ok { OnOk result (string_bytes out.new ≡ string_bytes out.old ++ value_of written.now) }
    ensures err { OnErr result ((k : ℕ) × (string_bytes out.new ≡ string_bytes out.old ++ take k (value_of written.now))) }
{
    let mut rest = written;
    'parts: loop {
        let (kept, at) = split_run(rest, Class::Kept);
        out.push_str(kept)?;
        let Some((character, behind)) = next_character(at) else {
            return Ok(());
        };
        out.push(character)?;
        rest = behind;
    }
}

fn is_value(written: &str, text: &str) -> bool
    requires { HasReferences written.now }
    ensures { IsTrue result ↔ (value_of written.now ≡ text.now) }
{
    let mut rest = written;
    let mut left = text;
    'parts: loop {
        let (kept, at) = split_run(rest, Class::Kept);
        let Some(more) = strip_word(left, kept) else {
            return false;
        };
        let Some((character, behind)) = next_character(at) else {
            return more.is_empty();
        };
        let Some(last) = strip_character(more, character) else {
            return false;
        };
        rest = behind;
        left = last;
    }
}
