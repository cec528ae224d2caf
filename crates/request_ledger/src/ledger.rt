//! An opened ledger.
ghost use Rattle.std.specs.Prelude.{◌≡◌, option_copied};
ghost use Rattle.request_rows.specs.Rows.{session_row};
ghost use Rattle.request_ledger.specs.RowsOf.{rows_of};
ghost use Rattle.request_ledger.specs.Standing.{rows_in as standing_rows};
ghost use Rattle.request_ledger.specs.Ledger.{rows_in};

use crate::marked::Marked;
use record_ledger::RecordLedger;
use request_rows::{OpenedRow, Rows};

/// The records of a service provider in a journal, and the rows that they stand for.
pub type Ledger = RecordLedger<Marked>;

/// The rows of a ledger.
pub fn rows(ledger: &Ledger) -> &Rows
    ensures { standing_rows result.now ≡ rows_of ledger.now.held.records }
{
    ledger.standing().rows()
}

/// The live session of a token at a moment, in ms: the first one that is not closed and is visible; none where there is none.
pub fn session<'a>(ledger: &'a Ledger, token: &str, now: u64) -> Option<&'a OpenedRow>
    ensures { option_copied result ≡ session_row (rows_in ledger.now).opened token.now now ledger.now.held.header.horizon }
{
    let horizon = ledger.header().horizon;
    rows(ledger).session_row(token, now, horizon)
}
