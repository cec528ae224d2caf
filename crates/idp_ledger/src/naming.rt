//! Which rows a record names, and which are its own.
ghost use Rattle.std.specs.Prelude.{◌≡◌, ◌<◌, ◌^◌, IfSome, option_copied};
ghost use Rattle.std.specs.Option.{option_map};
ghost use Rattle.idp_ledger.specs.Naming.{has_visible};
ghost use Rattle.idp_ledger.specs.Linking.{named, row_found, within};

use ledger_records::IdpRecord;
use owned_values::Text;
use std::slice;

/// Whether a row of a record is visible at a moment.
pub(crate) fn has_visible(entry: &IdpRecord, now: u64, horizon: u64) -> bool
    ensures { result ≡ has_visible now horizon entry.now }
{
    let from = now.max(horizon);
    match entry {
        IdpRecord::Pending(r) => from < r.until,
        IdpRecord::Issued(r) => from < r.until || r.pending.is_some() && from < r.session_end,
        IdpRecord::Left(r) => from < r.until,
        IdpRecord::Round(r) => from < r.until,
        IdpRecord::Ended(_) | IdpRecord::Confirmed(_) | IdpRecord::Spoke(_) | IdpRecord::Told(_) =>
            false,
    }
}

/// The IDs of the rows whose records are linked to the one that names them.
pub(crate) fn named(entry: &IdpRecord) -> &[Text]
    ensures { result.now ≡ named entry.now }
{
    match entry {
        IdpRecord::Issued(r) => match &r.pending {
            Some(pending) => slice::from_ref(pending),
            None => &[],
        },
        IdpRecord::Ended(r) => r.cookies.as_slice(),
        IdpRecord::Left(r) => slice::from_ref(&r.cookie),
        IdpRecord::Confirmed(r) => slice::from_ref(&r.request),
        IdpRecord::Round(r) => r.cookies.as_slice(),
        IdpRecord::Told(r) => slice::from_ref(&r.request),
        IdpRecord::Pending(_) | IdpRecord::Spoke(_) => &[],
    }
}

/// The number of a record's row that is found by it, where it has one.
pub(crate) fn row_number(entry: &IdpRecord) -> Option<u64>
    requires { IfSome (option_map (λ d. d.number) (row_found entry.now)) (λ n. n < 2 ^ 63) }
    ensures { result ≡ option_map (λ d. d.number) (row_found entry.now) }
{
    match entry {
        IdpRecord::Pending(r) => Some(r.first),
        IdpRecord::Issued(r) => match r.pending {
            Some(_) => Some(r.first + 2),
            None => None,
        },
        IdpRecord::Left(r) => Some(r.first),
        IdpRecord::Round(r) => Some(r.first + 1),
        IdpRecord::Told(r) => match r.next {
            Some(_) => Some(r.first),
            None => None,
        },
        IdpRecord::Ended(_) | IdpRecord::Confirmed(_) | IdpRecord::Spoke(_) => None,
    }
}

/// The cookie of the session in which an Issued was made, none for other records.
pub(crate) fn within(entry: &IdpRecord) -> Option<&Text>
    ensures { option_copied result ≡ within entry.now }
{
    let IdpRecord::Issued(r) = entry else {
        return None;
    };
    match r.pending {
        Some(_) => None,
        None => Some(&r.cookie),
    }
}
