//! The ledger, and what is found in its rows.
ghost use Rattle.std.specs.Prelude.{◌≡◌, option_copied};
ghost use Rattle.idp_rows.specs.Finding.{is_waiting_now, pending_found, session_found};
ghost use Rattle.idp_ledger.specs.Ledger.{rows_in};

use crate::standing::IdpStanding;
use idp_rows::{KeptRows, PendingRow, SessionRow};
use record_ledger::RecordLedger;

/// The records of an identity provider in a journal, and the rows that they stand for.
pub type IdpLedger = RecordLedger<IdpStanding>;

/// The rows of a ledger.
pub fn rows(ledger: &IdpLedger) -> &KeptRows
    ensures { result.now.rows ≡ rows_in ledger.now }
{
    &ledger.standing().kept
}

/// The pending login of an ID: the first one that is not used and is visible; none where there is none.
pub fn pending<'a>(ledger: &'a IdpLedger, id: &str, now: u64) -> Option<&'a PendingRow>
    ensures { option_copied result ≡ pending_found (rows_in ledger.now).pendings id.now now ledger.now.held.header.horizon }
{
    let horizon = ledger.header().horizon;
    rows(ledger).pending(id, now, horizon)
}

/// The live session of a cookie: the first one that is not ended and is visible; none where there is none.
pub fn session<'a>(ledger: &'a IdpLedger, cookie: &str, now: u64) -> Option<&'a SessionRow>
    ensures { option_copied result ≡ session_found (rows_in ledger.now).sessions cookie.now now ledger.now.held.header.horizon }
{
    let horizon = ledger.header().horizon;
    rows(ledger).session(cookie, now, horizon)
}

/// Whether the logout of a request is visible and not confirmed: one that `draft_confirm` would confirm.
pub(crate) fn is_waiting(ledger: &IdpLedger, request: &str, now: u64) -> bool
    ensures { result ≡ is_waiting_now (rows_in ledger.now).lefts request.now now ledger.now.held.header.horizon }
{
    let horizon = ledger.header().horizon;
    rows(ledger).is_waiting(request, now, horizon)
}
