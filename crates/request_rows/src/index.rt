//! The lists that have indexes, and an index: the places of a list's rows, sorted by a key of theirs.
ghost use Rattle.std.specs.Prelude.{◌≡◌, ◌+◌, ◌<◌, ◌≤◌, ◌^◌, [], length, insert, IfOk, OnOk, OnErr};
ghost use Rattle.std.specs.List.{range_with_len};
ghost use Rattle.ledger_rules.specs.Order.{key_at, place_order, IsOrder};
ghost use Rattle.request_rows.specs.Order.{keys_of};
ghost use Rattle.request_rows.specs.Indexed.{key_texts, IsRank, ArePlacesOf, room};

use crate::key::{Key, RowKey};
use crate::row::{AskedRow, OpenedRow};
use owned_values::NoMemory;
use std::alloc::Global;
use std::cmp::Ordering;

/// The numbers from 0 on, so many.
fn numbers_to(alloc: Global, count: u32) -> Result<Vec<u32>, NoMemory>
    ensures { IfOk result (λ numbers. numbers.items ≡ range_with_len 0 count) }
{
    let mut numbers = Vec::with_capacity(alloc, count as usize)?;
    for number in 0..count {
        numbers.push(number)?;
    }
    Ok(numbers)
}

/// The lists that have indexes.
#[derive(Debug, Drop)]
pub(crate) struct Lists {
    pub(crate) asked: Vec<AskedRow>,
    pub(crate) opened: Vec<OpenedRow>,
}

impl Lists {
    /// How many rows have such a key.
    fn count(&self, by: RowKey) -> usize
        ensures { result ≡ length (keys_of by self.now.asked.items self.now.opened.items) }
    {
        match by {
            RowKey::AskedRequest => self.asked.len(),
            RowKey::OpenedRequest | RowKey::OpenedAssertion | RowKey::OpenedToken => {
                self.opened.len()
            }
        }
    }

    /// The key of the row at a place, the empty one where there is no row.
    fn key_at(&self, by: RowKey, place: usize) -> Key<'_>
        ensures { key_texts result ≡ key_at (keys_of by self.now.asked.items self.now.opened.items) place }
    {
        match by {
            RowKey::AskedRequest => match self.asked.get(place) {
                Some(row) => Key::one(row.request.as_str()),
                None => Key::one(""),
            },
            RowKey::OpenedRequest => match self.opened.get(place) {
                Some(row) => Key::one(row.request.as_str()),
                None => Key::one(""),
            },
            RowKey::OpenedAssertion => match self.opened.get(place) {
                Some(row) => Key::two(row.issuer.as_str(), row.assertion.as_str()),
                None => Key::one(""),
            },
            RowKey::OpenedToken => match self.opened.get(place) {
                Some(row) => Key::one(row.token.as_str()),
                None => Key::one(""),
            },
        }
    }

    /// The order of two places by the keys of their rows, and of equal keys by the places.
    fn place_order(&self, by: RowKey, one: u32, other: u32) -> Ordering
        ensures { result ≡ place_order (keys_of by self.now.asked.items self.now.opened.items) one other }
    {
        self.key_at(by, one as usize)
            .compare(self.key_at(by, other as usize))
            .then(one.cmp(&other))
    }
}

/// Where to look next in what is left of an index: in its middle, or so many entries from its end where that is nearer.
fn next_probe(low: usize, high: usize, step: usize) -> usize
    requires left { low < high }
    requires step { 0 < step }
    ensures front { low ≤ result }
    ensures back { result < high }
{
    (low + (high - low) / 2).max(high.saturating_sub(step))
}

/// The places of a list's rows, sorted by a key of theirs.
#[derive(Debug, Drop)]
pub(crate) struct Index {
    pub(crate) places: Vec<u32>,
}

impl Index {
    /// The index of no rows. It takes no memory.
    pub(crate) fn new(alloc: Global) -> Index
        ensures { result.places.items ≡ [] }
    {
        Index {
            places: Vec::new(alloc),
        }
    }

    /// The index of rows that are there. It takes one sort.
    pub(crate) fn of(alloc: Global, lists: &Lists, by: RowKey) -> Result<Index, NoMemory>
        requires { length (keys_of by lists.now.asked.items lists.now.opened.items) < 2 ^ 32 }
        ensures { IfOk result (λ index. IsOrder (keys_of by lists.now.asked.items lists.now.opened.items) index.places.items) }
    {
        let mut places = numbers_to(alloc, lists.count(by) as u32)?;
        places.sort_unstable_by(|one, other| lists.place_order(by, *one, *other));
        Ok(Index { places })
    }

    /// How many entries come before this key and this place. It looks from the end on, where a new row mostly belongs, each
    /// time twice as far, and then halves what is left.
    pub(crate) fn rank(&self, lists: &Lists, by: RowKey, key: Key<'_>, place: usize) -> usize
        requires { IsOrder (keys_of by lists.now.asked.items lists.now.opened.items) self.now.places.items }
        ensures { IsRank (keys_of by lists.now.asked.items lists.now.opened.items) self.now.places.items (key_texts key.entry) place result }
    {
        // `partition_point` wants a test that may be called at every number, and only a place of the index has a row.
        let mut low = 0;
        let mut high = self.places.len();
        let mut step = 1;
        while low < high {
            let middle = next_probe(low, high, step);
            let there = self.places[middle] as usize;
            let order = lists.key_at(by, there).compare(key).then(there.cmp(&place));
            if order.is_lt() {
                low = middle + 1;
            } else {
                high = middle;
                step = step.saturating_mul(2);
            }
        }
        low
    }

    /// The places at which this key stands, ascending.
    pub(crate) fn places_of(&self, lists: &Lists, by: RowKey, key: Key<'_>) -> &[u32]
        requires { IsOrder (keys_of by lists.now.asked.items lists.now.opened.items) self.now.places.items }
        ensures { ArePlacesOf (keys_of by lists.now.asked.items lists.now.opened.items) (key_texts key.entry) result.now }
    {
        let first = self.rank(lists, by, key, 0);
        let end = self.rank(lists, by, key, self.places.len());
        &self.places.as_slice()[first..end]
    }

    /// Makes room for one place more.
    pub(crate) fn reserve(&mut self) -> Result<(), NoMemory>
        ensures same { self.new.places.items ≡ self.old.places.items }
        ensures ok { OnOk result (0 < room self.new.places) }
        ensures kept { room self.old.places ≤ room self.new.places }
        ensures err { OnErr result ((room self.old.places ≡ 0) × (room self.new.places ≡ 0)) }
    {
        self.places.reserve(1)?;
        Ok(())
    }

    /// Puts a place in front of the entry with this rank, where there is room for it.
    pub(crate) fn put(&mut self, rank: usize, place: u32)
        requires rank { rank ≤ length self.old.places.items }
        requires room { 0 < room self.old.places }
        ensures places { self.new.places.items ≡ insert self.old.places.items rank place }
        ensures room { room self.new.places + 1 ≡ room self.old.places }
    {
        match self.places.insert(rank, place) {
            Ok(()) => {}
            Err(_) => unreachable!(),
        }
    }
}
