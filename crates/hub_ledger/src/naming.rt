//! Which rows a record names, and which are its own.
ghost use Rattle.std.specs.Prelude.{◌≡◌};
ghost use Rattle.std.specs.Option.{option_map};
ghost use Rattle.hub_ledger.specs.Naming.{has_visible};
ghost use Rattle.hub_ledger.specs.Linking.{named, row_found};

use ledger_records::HubRecord;
use owned_values::Text;
use std::slice;

/// Whether a row of a record is visible at a moment.
pub(crate) fn has_visible(entry: &HubRecord, now: u64, horizon: u64) -> bool
    ensures { result ≡ has_visible now horizon entry.now }
{
    let from = now.max(horizon);
    match entry {
        HubRecord::Routed(r) => from < r.until,
        HubRecord::Backed(r) => from < r.until || from < r.assertion_until,
        HubRecord::Spoke(_) => false,
    }
}

/// The IDs of the rows that a record names.
pub(crate) fn named(entry: &HubRecord) -> &[Text]
    ensures { result.now ≡ named entry.now }
{
    match entry {
        HubRecord::Routed(_) | HubRecord::Spoke(_) => &[],
        HubRecord::Backed(r) => slice::from_ref(&r.request),
    }
}

/// The number of a record's row, where it has one that is named.
pub(crate) fn row_number(entry: &HubRecord) -> Option<u64>
    ensures { result ≡ option_map (λ d. d.number) (row_found entry.now) }
{
    match entry {
        HubRecord::Routed(r) => Some(r.first),
        HubRecord::Backed(_) | HubRecord::Spoke(_) => None,
    }
}
