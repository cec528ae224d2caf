//! Which rows a record names, and which are its own.
ghost use Rattle.std.specs.Prelude.{◌≡◌};
ghost use Rattle.std.specs.Option.{option_map};
ghost use Rattle.request_ledger.specs.Naming.{has_visible};
ghost use Rattle.request_ledger.specs.Linking.{named, row_found};

use ledger_records::SpRecord;
use owned_values::Text;
use std::slice;

/// Whether a row of a record is visible at a moment.
pub(crate) fn has_visible(entry: &SpRecord, now: u64, horizon: u64) -> bool
    ensures { result ≡ has_visible now horizon entry.now }
{
    let from = now.max(horizon);
    match entry {
        SpRecord::Asked(r) => from < r.until,
        SpRecord::Opened(r) => from < r.until || from < r.assertion_until,
        SpRecord::Left(r) => from < r.until,
        SpRecord::Ended(_) | SpRecord::Confirmed(_) => false,
    }
}

/// The IDs of the rows that a record names.
pub(crate) fn named(entry: &SpRecord) -> &[Text]
    ensures { result.now ≡ named entry.now }
{
    match entry {
        SpRecord::Asked(_) => &[],
        SpRecord::Opened(r) => slice::from_ref(&r.request),
        SpRecord::Left(r) => slice::from_ref(&r.token),
        SpRecord::Ended(r) => r.tokens.as_slice(),
        SpRecord::Confirmed(r) => slice::from_ref(&r.request),
    }
}

/// The number of a record's row, where it has one.
pub(crate) fn row_number(entry: &SpRecord) -> Option<u64>
    ensures { result ≡ option_map (λ d. d.number) (row_found entry.now) }
{
    match entry {
        SpRecord::Asked(r) => Some(r.first),
        SpRecord::Opened(r) => Some(r.first),
        SpRecord::Left(r) => Some(r.first),
        SpRecord::Ended(_) | SpRecord::Confirmed(_) => None,
    }
}
