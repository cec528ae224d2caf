// A table of texts.

ghost use Rattle.std.specs.Prelude.{◌≡◌, ◌<◌, [], length, Some, false, MatchOption, OnOk, OnErr, IfOk, IfErr, slice_get, slice_index_or};
ghost use Rattle.std.specs.List.{list_any};
ghost use Rattle.std.specs.Str.{bytes_eq};
ghost use Rattle.element_names.specs.Tables.{added, HasEachOnce, AreRanks};

use crate::fault::NameFault;
use std::alloc::{AllocError, Global};
use std::collections::BTreeMap;
use std::marker::Model;

/// Texts by number, in the order in which they came, each once.
#[derive(Debug, Drop)]
pub struct Table {
    texts: Vec<String>,
    // the number of each text
    numbers: BTreeMap<String, u32>,
}

impl Model for Table {
    ghost use Rattle.std.specs.Prelude.{List, ℕ, map, string_bytes};

    ghost Value = { List (List ℕ) };

    ghost use Rattle.element_names.specs.Tables.{IsIndexed};

    ghost view = { λ t. map string_bytes t.texts.items };

    ghost invariant = { λ t. IsIndexed (map string_bytes t.texts.items) t.numbers };
}

impl Table {
    /// A table without a text. It takes no memory.
    pub(crate) fn new(alloc: Global) -> Table
        ensures { result ≡ [] }
    {
        Table {
            texts: Vec::new(alloc),
            numbers: BTreeMap::new(alloc),
        }
    }

    /// The number of a text, none where it isn't there.
    fn number_of(&self, text: &str) -> Option<u32>
        ensures { MatchOption result (list_any (λ t. bytes_eq t text.now) self.now ≡ false) (λ n. slice_get self.now n ≡ Some text.now) }
    {
        self.numbers.get(text).copied()
    }

    /// The number of a text, which is put at the end where it isn't there yet. After `NoMemory` the table is as before.
    pub(crate) fn add(&mut self, alloc: Global, text: &str) -> Result<u32, NameFault>
        ensures table { OnOk result (self.new ≡ added self.old text.now) }
        ensures number { IfOk result (λ n. slice_get self.new n ≡ Some text.now) }
        ensures same { OnErr result (self.new ≡ self.old) }
        ensures err { IfErr result (λ e. e ≡ NameFault.NoMemory) }
    {
        if let Some(number) = self.number_of(text) {
            return Ok(number);
        }
        let Ok(number) = u32::try_from(self.texts.len()) else {
            return Err(NameFault::NoMemory);
        };
        let key = String::from_str(alloc, text)?;
        let kept = String::from_str(alloc, text)?;
        self.texts.push(kept)?;
        if self.numbers.insert(key, number).is_err() {
            let _ = self.texts.pop();
            return Err(NameFault::NoMemory);
        }
        Ok(number)
    }

    /// The text of a number.
    pub fn text(&self, number: u32) -> &str
        requires { number < length self.now }
        ensures { result.now ≡ slice_index_or self.now number [] }
    {
        self.texts[number as usize].as_str()
    }

    /// That two numbers have the same text only where they are the same.
    pub(crate) fn has_each_once(&self)
        ensures { HasEachOnce self.now }
    {
        let _ = &self.texts;
    }

    /// Whether two numbers have the same text, which they have only where they are the same.
    pub fn is_same(&self, one: u32, other: u32) -> bool
        requires one { one < length self.now }
        requires other { other < length self.now }
        ensures { result ≡ bytes_eq (slice_index_or self.now one []) (slice_index_or self.now other []) }
    {
        let _ = &self.texts;
        one == other
    }

    /// The rank of each text among them all, by its number: the texts are gone over once, in the order of their bytes.
    pub(crate) fn ranks(&self, alloc: Global) -> Result<Vec<usize>, AllocError>
        ensures { IfOk result (λ ranks. AreRanks self.now ranks.items) }
    {
        let mut ranks = vec![in alloc; 0; self.texts.len()]?;
        let mut rank = 0;
        for number in self.numbers.values() {
            ranks[*number as usize] = rank;
            rank += 1;
        }
        Ok(ranks)
    }
}
