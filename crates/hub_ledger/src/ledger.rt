//! An opened ledger.
ghost use Rattle.std.specs.Prelude.{◌≡◌};
ghost use Rattle.std.specs.Option.{option_map};
ghost use Rattle.hub_ledger.specs.Finding.{routed_row, routed_view};
ghost use Rattle.hub_ledger.specs.Ledger.{rows_in};

use crate::row::RoutedRow;
use crate::standing::HubStanding;
use record_ledger::RecordLedger;
use request_rows::Rows;

/// The records of a hub in a journal, and the rows that they stand for.
pub type HubLedger = RecordLedger<HubStanding>;

/// The rows of requests upwards and of passed logins, over which a login from above is judged.
pub fn rows(ledger: &HubLedger) -> &Rows
    ensures asked { result.now.asked ≡ (rows_in ledger.now).asked }
    ensures opened { result.now.opened ≡ (rows_in ledger.now).opened }
{
    ledger.standing().rows()
}

/// The request upwards of this ID that is visible and not spent, and the one below for which it was sent; none where there is none.
pub fn routed<'a>(ledger: &'a HubLedger, request: &str, now: u64) -> Option<RoutedRow<'a>>
    ensures { option_map routed_view result ≡ routed_row (rows_in ledger.now) request.now now ledger.now.held.header.horizon }
{
    let horizon = ledger.header().horizon;
    ledger.standing().routed(request, now, horizon)
}
