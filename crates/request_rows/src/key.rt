//! The keys by which rows are found.
ghost use Rattle.std.specs.Prelude.{◌≡◌};
ghost use Rattle.ledger_rules.specs.Order.{key_order, one_text};
ghost use Rattle.request_rows.specs.Indexed.{key_texts};

use std::cmp::Ordering;

/// The keys by which the rows are sorted, each in an index of its own.
#[derive(Clone, Copy, Debug, PartialEq, Eq)]
pub enum RowKey {
    /// The request of an asked row.
    AskedRequest,
    /// The request of an opened row.
    OpenedRequest,
    /// The issuer and then the assertion of an opened row.
    OpenedAssertion,
    /// The token of an opened row.
    OpenedToken,
}

/// A key: a text, or one text and then another. A key of one text has the empty one behind it.
#[derive(Clone, Copy)]
pub(crate) struct Key<'a> {
    pub(crate) first: &'a str,
    pub(crate) second: &'a str,
}

impl<'a> Key<'a> {
    /// The key that is one text.
    pub(crate) fn one(text: &'a str) -> Key<'a>
        ensures { key_texts result ≡ one_text text.now }
    {
        Key {
            first: text,
            second: "",
        }
    }

    /// The key that is these two texts.
    pub(crate) fn two(first: &'a str, second: &'a str) -> Key<'a>
        ensures { key_texts result ≡ record { first = first.now; second = second.now } }
    {
        Key { first, second }
    }

    /// The order of two keys, by bytes.
    pub(crate) fn compare(self, other: Key<'_>) -> Ordering
        ensures { result ≡ key_order (key_texts self.entry) (key_texts other.entry) }
    {
        self.first
            .cmp(other.first)
            .then(self.second.cmp(other.second))
    }
}
