// Fields read from a payload, from the first one on.

ghost use Rattle.std.specs.Prelude.{◌≡◌, [], IfOk};
ghost use Rattle.std.specs.Int.{w32, w64};
ghost use Rattle.owned_values.specs.Options.{in_utf8};
ghost use Rattle.ledger_records.specs.Reading.{Reads, number_at, text_at, flag_at, key_at, option_at, many_at, list_at, attribute_at, no_number_at, fields_in, key_forms};
ghost use Rattle.ledger_records.specs.Fields.{NoNumber};
ghost use Rattle.ledger_records.specs.SpRecord.{key_in};

use crate::KeyNumber;
use owned_values::{Attribute, Attributes, NoMemory, Text, Texts};
use std::alloc::Global;

/// Why a field was not read.
#[derive(Clone, Copy)]
pub(crate) enum Unread {
    /// The bytes do not begin with such a field.
    Malformed,
    /// There was no memory.
    NoMemory,
}

impl From<NoMemory> for Unread {
    ghost use Rattle.std.specs.Prelude.{◌≡◌};
    ghost use Rattle.ledger_records.specs.declared.reading.Unread.TheVariants.{NoMemory};

    ghost from_gives = { λ _ e. e ≡ NoMemory };

    fn from(_: NoMemory) -> Unread {
        Unread::NoMemory
    }
}

/// What is still to be read of a payload.
#[derive(Clone, Copy)]
pub(crate) struct Fields<'a> {
    pub(crate) alloc: Global,
    pub(crate) rest: &'a [u8],
}

/// The text of these bytes.
fn text_of(alloc: Global, bytes: &[u8]) -> Result<Text, Unread>
    ensures { Reads (λ t. t) result (in_utf8 bytes.now) }
{
    match str::from_utf8(bytes) {
        Ok(text) => Ok(Text::of(alloc, text)?),
        Err(_) => Err(Unread::Malformed),
    }
}

impl<'a> Fields<'a> {
    /// A number or a moment.
    pub(crate) fn number(&mut self) -> Result<u64, Unread>
        ensures { Reads (λ n. (n, self.new.rest.now)) result (number_at w64 self.old.rest.now) }
    {
        if self.rest.len() < 8 {
            return Err(Unread::Malformed);
        }
        let (front, rest) = self.rest.split_at(8);
        self.rest = rest;
        Ok(u64::from_be_bytes([
            front[0], front[1], front[2], front[3], front[4], front[5], front[6], front[7],
        ]))
    }

    /// That no number was drawn.
    #[tactic(auto, unfolding(crate::specs::Reading::no_number_at))]
    pub(crate) fn no_number(&mut self) -> Result<(), Unread>
        ensures { Reads (λ _. (NoNumber, self.new.rest.now)) result (no_number_at self.old.rest.now) }
    {
        let number = self.number()?;
        if number != 0 {
            return Err(Unread::Malformed);
        }
        Ok(())
    }

    /// How many bytes or items follow.
    pub(crate) fn count(&mut self) -> Result<u32, Unread>
        ensures { Reads (λ n. (n, self.new.rest.now)) result (number_at w32 self.old.rest.now) }
    {
        if self.rest.len() < 4 {
            return Err(Unread::Malformed);
        }
        let (front, rest) = self.rest.split_at(4);
        self.rest = rest;
        Ok(u32::from_be_bytes([front[0], front[1], front[2], front[3]]))
    }

    /// A text.
    #[tactic(auto, unfolding(crate::specs::Reading::text_at))]
    pub(crate) fn text(&mut self) -> Result<Text, Unread>
        ensures { Reads (λ t. (t, self.new.rest.now)) result (text_at self.old.rest.now) }
    {
        let len = self.count()? as usize;
        if self.rest.len() < len {
            return Err(Unread::Malformed);
        }
        let (bytes, rest) = self.rest.split_at(len);
        self.rest = rest;
        text_of(self.alloc, bytes)
    }

    /// No or yes.
    #[tactic(auto, unfolding(crate::specs::Reading::flag_at))]
    pub(crate) fn flag(&mut self) -> Result<bool, Unread>
        ensures { Reads (λ is. (is, self.new.rest.now)) result (flag_at self.old.rest.now) }
    {
        match self.rest {
            [0, rest @ ..] => {
                self.rest = rest;
                Ok(false)
            }
            [1, rest @ ..] => {
                self.rest = rest;
                Ok(true)
            }
            _ => Err(Unread::Malformed),
        }
    }

    /// The number of a key.
    #[tactic(auto, unfolding(crate::specs::Reading::key_at))]
    pub(crate) fn key(&mut self) -> Result<KeyNumber, Unread>
        ensures { Reads (λ key. (key, self.new.rest.now)) result (key_at self.old.rest.now) }
    {
        let [number, rest @ ..] = self.rest else {
            return Err(Unread::Malformed);
        };
        let Some(key) = KeyNumber::of(*number) else {
            return Err(Unread::Malformed);
        };
        self.rest = rest;
        Ok(key)
    }

    /// A text that may be absent.
    #[tactic(auto, unfolding(crate::specs::Reading::option_at))]
    pub(crate) fn optional(&mut self) -> Result<Option<Text>, Unread>
        ensures { Reads (λ t. (t, self.new.rest.now)) result (option_at text_at self.old.rest.now) }
    {
        if self.flag()? {
            Ok(Some(self.text()?))
        } else {
            Ok(None)
        }
    }

    /// So many texts.
    fn some_texts(&mut self, count: u32) -> Result<Texts, Unread>
        ensures { Reads (λ ts. (ts, self.new.rest.now)) result (many_at text_at count self.old.rest.now) }
    {
        let mut texts = Texts::new(self.alloc);
        for _ in 0..count {
            texts.push(self.text()?)?;
        }
        Ok(texts)
    }

    /// A list of texts.
    #[tactic(auto, unfolding(crate::specs::Reading::list_at))]
    pub(crate) fn texts(&mut self) -> Result<Texts, Unread>
        ensures { Reads (λ ts. (ts, self.new.rest.now)) result (list_at text_at self.old.rest.now) }
    {
        let count = self.count()?;
        self.some_texts(count)
    }

    /// An attribute.
    #[tactic(auto, unfolding(crate::specs::Reading::attribute_at))]
    fn attribute(&mut self) -> Result<Attribute, Unread>
        ensures { Reads (λ a. (a, self.new.rest.now)) result (attribute_at self.old.rest.now) }
    {
        let name = self.text()?;
        let values = self.texts()?;
        Ok(Attribute { name, values })
    }

    /// So many attributes.
    fn some_attributes(&mut self, count: u32) -> Result<Attributes, Unread>
        ensures { Reads (λ found. (found, self.new.rest.now)) result (many_at attribute_at count self.old.rest.now) }
    {
        let mut attributes = Attributes::new(self.alloc);
        for _ in 0..count {
            attributes.push(self.attribute()?)?;
        }
        Ok(attributes)
    }

    /// A list of attributes.
    #[tactic(auto, unfolding(crate::specs::Reading::list_at))]
    pub(crate) fn attributes(&mut self) -> Result<Attributes, Unread>
        ensures { Reads (λ found. (found, self.new.rest.now)) result (list_at attribute_at self.old.rest.now) }
    {
        let count = self.count()?;
        self.some_attributes(count)
    }

    /// That nothing follows.
    pub(crate) fn end(self) -> Result<(), Unread>
        ensures { Reads (λ _. []) result (fields_in [] self.entry.rest.now) }
    {
        if self.rest.is_empty() {
            Ok(())
        } else {
            Err(Unread::Malformed)
        }
    }

    /// The number of a key, which a journal of version 1 does not keep and is then the first, and that nothing follows.
    pub(crate) fn last_key(mut self, version: u8) -> Result<KeyNumber, Unread>
        ensures read { Reads (key_in version) result (fields_in (key_forms version) self.entry.rest.now) }
        ensures first { version ≡ 1 → IfOk result (λ key. key ≡ KeyNumber.First) }
    {
        if version == 1 {
            self.end()?;
            return Ok(KeyNumber::First);
        }
        let key = self.key()?;
        self.end()?;
        Ok(key)
    }
}
