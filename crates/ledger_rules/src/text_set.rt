//! A set of texts.
ghost use Rattle.std.specs.Prelude.{◌≡◌, IfOk};
ghost use Rattle.ledger_rules.specs.Texts.{is_among, IsSetOf};

use owned_values::{NoMemory, Texts};
use std::alloc::Global;
use std::collections::BTreeSet;
use std::marker::Model;

/// A set of texts. Contracts see it as the texts that differ, in their order by bytes.
#[derive(Drop)]
pub struct TextSet {
    texts: BTreeSet<String>,
}

impl Model for TextSet {
    ghost use Rattle.std.specs.Prelude.{List, ℕ, map, string_bytes};

    ghost Value = { List (List ℕ) };

    ghost view = { λ s. map string_bytes s.texts.keys };
}

impl TextSet {
    /// The set of these texts. It takes time n log n.
    pub fn of(alloc: Global, texts: &Texts) -> Result<TextSet, NoMemory>
        ensures { IfOk result (λ set. IsSetOf set texts.now) }
    {
        let mut set = BTreeSet::new(alloc);
        for text in texts.as_slice() {
            set.insert(String::from_str(alloc, text.as_str())?)?;
        }
        Ok(TextSet { texts: set })
    }

    /// Whether one of the texts equals this one. It takes no memory, and the logarithm of how many there are in time.
    pub fn holds(&self, text: &str) -> bool
        ensures { result ≡ is_among text.now self.now }
    {
        self.texts.contains(text)
    }
}
