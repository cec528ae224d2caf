//! The fields of a line.
ghost use Rattle.std.specs.Prelude.{◌≡◌, ◌∷◌, ◌++◌, map, codes, IfOk, OnOk};
ghost use Rattle.record_lines.specs.Lines.{Attributes as Listed, secret_piece, text_piece, attribute_name, value_pieces, spaced, shown, line};
ghost use Rattle.record_lines.specs.Views.{field_view};

use crate::escaping::{put_escaped, put_escaped_name};
use crate::moments::{put_moment, put_number};
use crate::turns::{put_asker, put_turns};
use logout_turns::{Asker, Turns};
use owned_values::{Attribute, Attributes, Blob, NoMemory, Text, Texts};
use std::alloc::Global;

/// How many characters of a secret are printed: `_` and its number, in 16 digits.
const NUMBER_PART: usize = 17;

/// A field of a record, as it is printed.
#[derive(Clone, Copy)]
pub(crate) enum Field<'r> {
    /// A moment or an end, in milliseconds since 1970-01-01T00:00:00Z.
    Moment(&'static str, u64),
    Number(&'static str, u64),
    Text(&'static str, &'r Text),
    MaybeText(&'static str, &'r Option<Text>),
    /// A text that would let somebody in.
    Secret(&'static str, &'r Text),
    MaybeSecret(&'static str, &'r Option<Text>),
    Secrets(&'static str, &'r Texts),
    Attributes(&'r Attributes),
    Asker(&'r Option<Asker>),
    Turns(&'r Turns),
}

/// Puts a space, a name and a `=`.
fn put_name(name: &[u8], line: &mut Blob) -> Result<(), NoMemory>
    ensures { OnOk result (line.new ≡ line.old ++ 32 ∷ (name.now ++ codes "=")) }
{
    line.push(b" ")?;
    line.push(name)?;
    line.push(b"=")
}

/// Puts a text behind its name.
pub(crate) fn put_text(name: &[u8], text: &[u8], line: &mut Blob) -> Result<(), NoMemory>
    ensures { OnOk result (line.new ≡ line.old ++ 32 ∷ text_piece name.now text.now) }
{
    put_name(name, line)?;
    put_escaped(text, line)
}

/// Puts the number of a secret behind its name.
fn put_secret(name: &str, secret: &Text, line: &mut Blob) -> Result<(), NoMemory>
    ensures { OnOk result (line.new ≡ line.old ++ 32 ∷ secret_piece name.now secret.now) }
{
    let text = secret.as_str().as_bytes();
    put_name(name.as_bytes(), line)?;
    put_escaped(&text[..NUMBER_PART.min(text.len())], line)
}

/// Puts the numbers of secrets, each behind the name.
fn put_secrets(name: &str, secrets: &Texts, line: &mut Blob) -> Result<(), NoMemory>
    ensures { OnOk result (line.new ≡ line.old ++ spaced (map (secret_piece name.now) secrets.now)) }
{
    for secret in secrets.as_slice() {
        put_secret(name, secret, line)?;
    }
    Ok(())
}

/// Puts the name of an attribute.
fn attribute_name(alloc: Global, attribute: &Attribute) -> Result<Blob, NoMemory>
    ensures { IfOk result (λ name. name ≡ attribute_name attribute.now) }
{
    let mut name = Blob::of(alloc, b"attribute.")?;
    put_escaped_name(attribute.name.as_str().as_bytes(), &mut name)?;
    Ok(name)
}

/// Puts the values of an attribute, each behind this name, or the name alone where it has none.
fn put_values(name: &[u8], values: &Texts, line: &mut Blob) -> Result<(), NoMemory>
    ensures { OnOk result (line.new ≡ line.old ++ spaced (value_pieces name.now values.now)) }
{
    if values.is_empty() {
        line.push(b" ")?;
        return line.push(name);
    }
    for value in values.as_slice() {
        put_text(name, value.as_str().as_bytes(), line)?;
    }
    Ok(())
}

/// Puts the values of attributes.
fn put_attributes(alloc: Global, attributes: &Attributes, line: &mut Blob) -> Result<(), NoMemory>
    ensures { OnOk result (line.new ≡ line.old ++ shown (Listed attributes.now)) }
{
    for attribute in attributes.as_slice() {
        let name = attribute_name(alloc, attribute)?;
        put_values(name.as_slice(), &attribute.values, line)?;
    }
    Ok(())
}

impl<'r> Field<'r> {
    /// Puts the field.
    fn put(&self, alloc: Global, line: &mut Blob) -> Result<(), NoMemory>
        ensures { OnOk result (line.new ≡ line.old ++ shown (field_view self.now)) }
    {
        match self {
            Field::Moment(name, moment) => {
                put_name(name.as_bytes(), line)?;
                put_moment(*moment, line)
            }
            Field::Number(name, n) => {
                put_name(name.as_bytes(), line)?;
                put_number(*n, line)
            }
            Field::Text(name, text) => put_text(name.as_bytes(), text.as_str().as_bytes(), line),
            Field::MaybeText(name, Some(text)) => {
                put_text(name.as_bytes(), text.as_str().as_bytes(), line)
            }
            Field::Secret(name, secret) => put_secret(name, secret, line),
            Field::MaybeSecret(name, Some(secret)) => put_secret(name, secret, line),
            Field::MaybeText(_, None) | Field::MaybeSecret(_, None) => Ok(()),
            Field::Secrets(name, secrets) => put_secrets(name, secrets, line),
            Field::Attributes(attributes) => put_attributes(alloc, attributes, line),
            Field::Asker(asker) => put_asker(asker, line),
            Field::Turns(turns) => put_turns(turns, line),
        }
    }
}

/// The line of a record of this moment and kind, with these fields.
pub(crate) fn line_of(
    alloc: Global,
    moment: u64,
    kind: &str,
    fields: &[Field<'_>],
) -> Result<Blob, NoMemory>
    ensures { IfOk result (λ text. text ≡ line moment kind.now (map field_view fields.now)) }
{
    let mut line = Blob::new(alloc);
    put_moment(moment, &mut line)?;
    line.push(b" ")?;
    line.push(kind.as_bytes())?;
    for field in fields {
        field.put(alloc, &mut line)?;
    }
    line.push(b"\n")?;
    Ok(line)
}
