// Fields written into a payload, and how long they are.

ghost use Rattle.std.specs.Prelude.{◌≡◌, ◌+◌, ◌∷◌, ◌++◌, map, length, OnOk, IfOk, IfSome, IsUtf8};
ghost use Rattle.std.specs.List.{AllByRecursion};
ghost use Rattle.ledger_records.specs.Fields.{count, number, text, option_of, list_of, attribute, IsAttribute, field, bytes_of, IsField, AreFields};
ghost use Rattle.ledger_records.specs.Writing.{field_view, capped};

use crate::KeyNumber;
use crate::turn_writing::{asker_len, put_asker, put_turns, turns_len};
use logout_turns::{Asker, Turns};
use owned_values::{Attribute, Attributes, Blob, NoMemory, Text, Texts};
use std::alloc::Global;

/// How many bytes a length or a count has.
pub(crate) const COUNT: u64 = 4;

/// How many bytes a number has.
const NUMBER: u64 = 8;

/// A field of a record.
#[derive(Clone, Copy)]
pub(crate) enum Field<'a> {
    /// That no number was drawn.
    NoNumber,
    /// A number or a moment.
    Number(u64),
    /// A text.
    Text(&'a Text),
    /// A text that may be absent.
    Optional(&'a Option<Text>),
    /// A list of texts.
    Texts(&'a Texts),
    /// A list of attributes.
    Attributes(&'a Attributes),
    /// A provider that asks, where one does.
    Asker(&'a Option<Asker>),
    /// A list of turns.
    Turns(&'a Turns),
    /// No or yes.
    Flag(bool),
    /// The number of a key.
    Key(KeyNumber),
}

/// Puts a length or a count: the last four of its eight bytes. The others are 0, since a payload has fewer than 2^32
/// bytes.
pub(crate) fn put_count(out: &mut Blob, n: usize) -> Result<(), NoMemory>
    ensures { OnOk result (out.new ≡ out.old ++ count n) }
{
    let bytes = (n as u64).to_be_bytes();
    out.push(&bytes[4..])
}

/// Puts a text.
pub(crate) fn put_text(out: &mut Blob, value: &Text) -> Result<(), NoMemory>
    ensures put { OnOk result (out.new ≡ out.old ++ text value.now) }
    ensures held { OnOk result (IsUtf8 value.now) }
{
    put_count(out, value.len())?;
    let chars = value.as_str();
    out.push(chars.as_bytes())?;
    Ok(())
}

/// Puts a list of texts.
pub(crate) fn put_texts(out: &mut Blob, values: &Texts) -> Result<(), NoMemory>
    ensures put { OnOk result (out.new ≡ out.old ++ list_of text values.now) }
    ensures held { OnOk result (AllByRecursion IsUtf8 values.now) }
{
    put_count(out, values.len())?;
    for value in values.as_slice() {
        put_text(out, value)?;
    }
    Ok(())
}

/// Puts an attribute.
fn put_attribute(out: &mut Blob, value: &Attribute) -> Result<(), NoMemory>
    ensures put { OnOk result (out.new ≡ out.old ++ attribute value.now) }
    ensures held { OnOk result (IsAttribute value.now) }
{
    put_text(out, &value.name)?;
    put_texts(out, &value.values)?;
    Ok(())
}

/// Puts a list of attributes.
fn put_attributes(out: &mut Blob, listed: &Attributes) -> Result<(), NoMemory>
    ensures put { OnOk result (out.new ≡ out.old ++ list_of attribute listed.now) }
    ensures held { OnOk result (AllByRecursion IsAttribute listed.now) }
{
    put_count(out, listed.len())?;
    for value in listed.as_slice() {
        put_attribute(out, value)?;
    }
    Ok(())
}

/// Puts a text that may be absent.
pub(crate) fn put_optional(out: &mut Blob, value: &Option<Text>) -> Result<(), NoMemory>
    ensures put { OnOk result (out.new ≡ out.old ++ option_of text value.now) }
    ensures held { OnOk result (IfSome value.now IsUtf8) }
{
    match value {
        None => {
            out.push(&[0])?;
            Ok(())
        }
        Some(value) => {
            out.push(&[1])?;
            put_text(out, value)?;
            Ok(())
        }
    }
}

/// Puts a field.
fn put_field(out: &mut Blob, value: Field<'_>) -> Result<(), NoMemory>
    ensures put { OnOk result (out.new ≡ out.old ++ field (field_view value.entry)) }
    ensures held { OnOk result (IsField (field_view value.entry)) }
{
    match value {
        Field::NoNumber => out.push(&0_u64.to_be_bytes())?,
        Field::Number(n) => out.push(&n.to_be_bytes())?,
        Field::Text(value) => put_text(out, value)?,
        Field::Optional(value) => put_optional(out, value)?,
        Field::Texts(values) => put_texts(out, values)?,
        Field::Attributes(values) => put_attributes(out, values)?,
        Field::Asker(asker) => put_asker(out, asker)?,
        Field::Turns(turns) => put_turns(out, turns)?,
        Field::Flag(is) => out.push(&[u8::from(is)])?,
        Field::Key(key) => out.push(&[key.number()])?,
    }
    Ok(())
}

/// The payload of a record of this kind with these fields.
pub(crate) fn payload_of(alloc: Global, kind: u8, fields: &[Field<'_>]) -> Result<Blob, NoMemory>
    ensures made { IfOk result (λ payload. payload ≡ kind ∷ bytes_of (map field_view fields.now)) }
    ensures held { OnOk result (AreFields (map field_view fields.now)) }
{
    let mut out = Blob::of(alloc, &[kind])?;
    for field in fields {
        put_field(&mut out, *field)?;
    }
    Ok(out)
}

/// How long a text is.
pub(crate) fn text_len(value: &Text) -> u64
    ensures { result ≡ capped (length (text value.now)) }
{
    COUNT.saturating_add(value.len() as u64)
}

/// How long a list of texts is.
pub(crate) fn texts_len(values: &Texts) -> u64
    ensures { result ≡ capped (length (list_of text values.now)) }
{
    let mut len = COUNT;
    for value in values.as_slice() {
        len = len.saturating_add(text_len(value));
    }
    len
}

/// How long a text is that may be absent.
pub(crate) fn optional_len(value: &Option<Text>) -> u64
    ensures { result ≡ capped (length (option_of text value.now)) }
{
    match value {
        None => 1,
        Some(value) => text_len(value).saturating_add(1),
    }
}

/// How long a list of attributes is.
fn attributes_len(values: &Attributes) -> u64
    ensures { result ≡ capped (length (list_of attribute values.now)) }
{
    let mut len = COUNT;
    for value in values.as_slice() {
        let name = text_len(&value.name);
        len = len.saturating_add(name.saturating_add(texts_len(&value.values)));
    }
    len
}

/// How long a field is.
fn field_len(value: Field<'_>) -> u64
    ensures { result ≡ capped (length (field (field_view value.entry))) }
{
    match value {
        Field::NoNumber | Field::Number(_) => NUMBER,
        Field::Text(value) => text_len(value),
        Field::Optional(value) => optional_len(value),
        Field::Texts(values) => texts_len(values),
        Field::Attributes(values) => attributes_len(values),
        Field::Asker(asker) => asker_len(asker),
        Field::Turns(turns) => turns_len(turns),
        Field::Flag(_) | Field::Key(_) => 1,
    }
}

/// How long the payload of a record with these fields is, or `u64::MAX` where it is longer.
pub(crate) fn payload_len_of(fields: &[Field<'_>]) -> u64
    ensures { result ≡ capped (length (bytes_of (map field_view fields.now)) + 1) }
{
    let mut len = 1_u64;
    for field in fields {
        len = len.saturating_add(field_len(*field));
    }
    len
}
