// A table of texts with their order.

ghost use Rattle.std.specs.Prelude.{◌≡◌, ◌<◌, [], length, IfOk, slice_index_or};
ghost use Rattle.std.specs.Str.{bytes_eq};
ghost use Rattle.xml_spec.specs.Canonical.{byte_order};

use crate::table::Table;
use std::alloc::{AllocError, Global};
use std::cmp::Ordering;
use std::marker::Model;

/// A table to which no text is added any more. Of two numbers it tells at once which text is below the other.
#[derive(Debug, Drop)]
pub struct RankedTable {
    table: Table,
    // the place of each text in the order of their bytes
    ranks: Vec<usize>,
}

impl Model for RankedTable {
    ghost use Rattle.std.specs.Prelude.{List, ℕ};

    ghost Value = { List (List ℕ) };

    ghost use Rattle.element_names.specs.Tables.{AreRanks};

    ghost view = { λ t. t.table };

    ghost invariant = { λ t. AreRanks t.table t.ranks.items };
}

impl RankedTable {
    /// The same texts by the same numbers, with their order.
    pub fn of(alloc: Global, table: Table) -> Result<RankedTable, AllocError>
        ensures { IfOk result (λ ranked. ranked ≡ table) }
    {
        let ranks = table.ranks(alloc)?;
        Ok(RankedTable { table, ranks })
    }

    /// The text of a number.
    pub fn text(&self, number: u32) -> &str
        requires { number < length self.now }
        ensures { result.now ≡ slice_index_or self.now number [] }
    {
        self.table.text(number)
    }

    /// Whether two numbers have the same text. The time does not grow with the texts.
    pub fn is_same(&self, one: u32, other: u32) -> bool
        requires one { one < length self.now }
        requires other { other < length self.now }
        ensures { result ≡ bytes_eq (slice_index_or self.now one []) (slice_index_or self.now other []) }
    {
        self.table.is_same(one, other)
    }

    /// The order of the texts of two numbers, byte by byte. The time does not grow with the texts.
    pub fn order(&self, one: u32, other: u32) -> Ordering
        requires one { one < length self.now }
        requires other { other < length self.now }
        ensures { result ≡ byte_order (slice_index_or self.now one []) (slice_index_or self.now other []) }
    {
        self.ranks[one as usize].cmp(&self.ranks[other as usize])
    }
}
