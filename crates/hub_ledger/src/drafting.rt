//! How records are drafted.
ghost use Rattle.std.specs.Prelude.{◌≡◌, ◌≤◌, ◌⊎◌, IsSome, IfOk, IfSome};
ghost use Rattle.hub_ledger.specs.Finding.{routed_row};
ghost use Rattle.hub_ledger.specs.Record.{LAST};
ghost use Rattle.hub_ledger.specs.Ledger.{next_number, rows_in};
ghost use Rattle.hub_ledger.specs.Drafts.{backed, backed_with, routed, routed_with, spoke, AreSessionTexts, Drafts, IsXmlBelow};
ghost use Rattle.hub_ledger.specs.Standing.{hub_row_rules};
ghost use Rattle.record_ledger.specs.Drafts.{SameLedger};
ghost use Rattle.record_ledger.specs.Ledger.{KeepsSpare};

use crate::draft::Draft;
use crate::ids::{LoginIds, RequestIds, login_ids, request_ids};
use crate::ledger::{HubLedger, routed};
use crate::row::BelowRow;
use ledger_records::hub_record::{Backed, Routed, Spoke};
use ledger_records::{HubRecord, KeyNumber};
use ledger_rules::{DraftFault, LAST, LIFE};
use owned_values::{NoMemory, Text, copy_if_any};
use request_rows::NewSession;
use saml_ids::{Kind, id_of};
use std::alloc::Global;

/// The record of a request upwards.
fn routed_record(
    alloc: Global,
    first: u64,
    now: u64,
    ids: &RequestIds,
    below: &BelowRow,
) -> Result<HubRecord, NoMemory>
    requires { now ≤ LAST }
    ensures { IfOk result (λ r. r ≡ routed_with first now ids.now below.now) }
{
    Ok(HubRecord::Routed(Routed {
        first,
        moment: now,
        until: now + LIFE,
        request: Text::of(alloc, ids.request.as_str())?,
        relay: Text::of(alloc, ids.relay.as_str())?,
        peer: below.peer.copy()?,
        consumer: below.consumer.copy()?,
        below: below.request.copy()?,
        below_relay: copy_if_any(&below.relay)?,
    }))
}

/// The record of a login that is passed on.
fn backed_record(
    alloc: Global,
    first: u64,
    now: u64,
    ids: &LoginIds,
    below: &BelowRow,
    new: &NewSession,
) -> Result<HubRecord, NoMemory>
    requires { (new.now.key ≡ 1) ⊎ (new.now.key ≡ 2) }
    ensures { IfOk result (λ r. r ≡ backed_with first now ids.now below.now new.now) }
{
    let key = match new.key {
        1 => KeyNumber::First,
        _ => KeyNumber::Second,
    };
    Ok(HubRecord::Backed(Backed {
        first,
        moment: now,
        request: new.request.copy()?,
        issuer: new.issuer.copy()?,
        above: new.assertion.copy()?,
        assertion_until: new.assertion_until,
        key,
        assertion: Text::of(alloc, ids.assertion.as_str())?,
        message: Text::of(alloc, ids.message.as_str())?,
        index: Text::of(alloc, ids.index.as_str())?,
        name: new.name.copy()?,
        peer: below.peer.copy()?,
        consumer: below.consumer.copy()?,
        below: below.request.copy()?,
        below_relay: copy_if_any(&below.relay)?,
        until: LAST.min(new.until),
        attributes: new.attributes.copy()?,
    }))
}

/// Drafts a request upwards for one below. It may be answered for 600,000 ms from the moment `now` on. `first_id` of its
/// record is the ID of the request, `second_id` its relay state.
///
/// Errors: [`DraftFault::LedgerFull`] exactly where the rows of 65,536 requests upwards are kept or more; else
/// [`DraftFault::JournalFull`] exactly where the record does not fit; [`DraftFault::NoMemory`].
pub fn draft_route(ledger: &mut HubLedger, now: u64, below: &BelowRow) -> Result<Draft, DraftFault>
    requires moment { now ≤ LAST }
    requires texts { IsXmlBelow below.now }
    ensures drafts { Drafts ledger.old ledger.new (routed ledger.old.key (next_number ledger.old.held) now below.now) result }
    ensures same { SameLedger ledger.old ledger.new }
    ensures spare { KeepsSpare hub_row_rules ledger.old ledger.new }
{
    let first = ledger.next_number();
    let key = ledger.key();
    let ids = request_ids(key, first);
    let entry = routed_record(ledger.allocator(), first, now, &ids, below)?;
    ledger.draft(entry)
}

/// Drafts that an accepted login of the provider above is passed on to the request below for which its request was sent. It
/// lives as long as the accepted one, to the end of the year 9999 at most. `first_id` of its record is the ID of the
/// answer, and `backed` the login.
///
/// The request upwards is visible and not spent. Errors are those of `draft_route`, for the rows of passed logins.
pub fn draft_back(ledger: &mut HubLedger, now: u64, new: &NewSession) -> Result<Draft, DraftFault>
    requires moment { now ≤ LAST }
    requires texts { AreSessionTexts new.now }
    requires key { (new.now.key ≡ 1) ⊎ (new.now.key ≡ 2) }
    requires routed { IsSome (routed_row (rows_in ledger.old) new.now.request now ledger.old.held.header.horizon) }
    ensures drafts { IfSome (routed_row (rows_in ledger.old) new.now.request now ledger.old.held.header.horizon) (λ route.
        Drafts ledger.old ledger.new (backed ledger.old.key (next_number ledger.old.held) now route.below new.now) result) }
    ensures same { SameLedger ledger.old ledger.new }
    ensures spare { KeepsSpare hub_row_rules ledger.old ledger.new }
{
    ledger.holds_records();
    let first = ledger.next_number();
    let key = ledger.key();
    let ids = login_ids(key, first);
    let Some(row) = routed(ledger, new.request.as_str(), now) else {
        unreachable!();
    };
    let entry = backed_record(ledger.allocator(), first, now, &ids, row.below, new)?;
    ledger.draft(entry)
}

/// Drafts an answer downwards without an assertion. `first_id` of its record is its ID.
///
/// Errors are those of `draft_route`, without `LedgerFull`.
pub fn draft_speak(ledger: &mut HubLedger, now: u64, below: &BelowRow) -> Result<Draft, DraftFault>
    requires moment { now ≤ LAST }
    requires texts { IsXmlBelow below.now }
    ensures drafts { Drafts ledger.old ledger.new (spoke ledger.old.key (next_number ledger.old.held) now below.now) result }
    ensures same { SameLedger ledger.old ledger.new }
    ensures spare { KeepsSpare hub_row_rules ledger.old ledger.new }
{
    let first = ledger.next_number();
    let key = ledger.key();
    let message = id_of(key, Kind::Message, first);
    let entry = HubRecord::Spoke(Spoke {
        first,
        moment: now,
        message: Text::of(ledger.allocator(), message.as_str())?,
        request: below.request.copy()?,
        peer: below.peer.copy()?,
    });
    ledger.draft(entry)
}
