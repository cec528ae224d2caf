//! How records are drafted.
ghost use Rattle.std.specs.Prelude.{◌≡◌, ◌≤◌, ◌⊎◌, ◌&&◌, true, false, not, IsSome, IfOk};
ghost use Rattle.std.specs.Str.{bytes_eq};
ghost use Rattle.ledger_rules.specs.Numbers.{is_xml_text};
ghost use Rattle.request_rows.specs.Rows.{asked_row, is_spent, session_row, visible};
ghost use Rattle.ledger_rules.specs.Texts.{IsSetOf};
ghost use Rattle.request_ledger.specs.Record.{LAST};
ghost use Rattle.request_ledger.specs.Standing.{request_row_rules};
ghost use Rattle.request_ledger.specs.Ledger.{next_number, rows_in};
ghost use Rattle.request_ledger.specs.Drafts.{asked, opened, opened_with, left, ended, confirmed, is_empty, is_listed, is_ending, ending, is_waiting_now, AreSessionTexts, Drafts, DraftsSome};
ghost use Rattle.record_ledger.specs.Drafts.{SameLedger};
ghost use Rattle.record_ledger.specs.Ledger.{KeepsSpare};

use crate::draft::Draft;
use crate::ledger::{Ledger, rows};
use ledger_records::sp_record::{Asked, Confirmed, Ended, Left, Opened};
use ledger_records::{KeyNumber, SpRecord};
use ledger_rules::{DraftFault, LIFE, TextSet};
use owned_values::{NoMemory, Text, Texts};
use request_rows::{LeftRow, NewSession, OpenedRow};
use saml_ids::{Id, Kind, id_of};
use std::alloc::Global;

/// The tokens of the live sessions of an issuer and a name whose index is listed, or of all of them.
fn ending(
    ledger: &Ledger,
    now: u64,
    issuer: &str,
    name: &str,
    indexes: &Texts,
) -> Result<Texts, NoMemory>
    ensures { IfOk result (λ tokens. tokens ≡ ending now ledger.now.held.header.horizon issuer.now name.now indexes.now (rows_in ledger.now).opened) }
{
    let horizon = ledger.header().horizon;
    let set = TextSet::of(ledger.allocator(), indexes)?;
    let mut tokens = Texts::new(ledger.allocator());
    for row in rows(ledger).opened() {
        if is_ending(row, now, horizon, issuer, name, indexes, &set) {
            tokens.push(row.token.copy()?)?;
        }
    }
    Ok(tokens)
}

/// Whether a visible row of a logout that is not confirmed has this request.
fn is_waiting(ledger: &Ledger, request: &str, now: u64) -> bool
    ensures { result ≡ is_waiting_now (rows_in ledger.now).left request.now now ledger.now.held.header.horizon }
{
    let horizon = ledger.header().horizon;
    rows(ledger)
        .left()
        .iter()
        .any(|row| is_waiting_row(row, request, now, horizon))
}

/// Drafts a request for a login, after which the user goes to the path `target`. The request may be answered for 600,000
/// ms from the moment `now` on. `first_id` of the record is the ID of the request, `second_id` its relay state.
///
/// Errors: [`DraftFault::LedgerFull`] exactly where 65,536 asked rows are kept or more; else
/// [`DraftFault::JournalFull`] exactly where the record does not fit; [`DraftFault::NoMemory`].
pub fn draft_ask(ledger: &mut Ledger, now: u64, target: &str) -> Result<Draft, DraftFault>
    requires moment { now ≤ LAST }
    requires text { is_xml_text target.now ≡ true }
    ensures drafts { Drafts ledger.old ledger.new (asked ledger.old.key (next_number ledger.old.held) now target.now) result }
    ensures same { SameLedger ledger.old ledger.new }
    ensures spare { KeepsSpare request_row_rules ledger.old ledger.new }
{
    let first = ledger.next_number();
    let key = ledger.key();
    let request = id_of(key, Kind::Request, first);
    let relay = id_of(key, Kind::Relay, first.wrapping_add(1));
    let entry = SpRecord::Asked(Asked {
        first,
        moment: now,
        until: now + LIFE,
        target: Text::of(ledger.allocator(), target)?,
        request: Text::of(ledger.allocator(), request.as_str())?,
        relay: Text::of(ledger.allocator(), relay.as_str())?,
    });
    ledger.draft(entry)
}

/// Drafts a session for an accepted login. `first_id` of the record is its token.
///
/// The request of the login was asked, is visible and not spent. Errors are those of `draft_ask`, for the opened rows.
pub fn draft_session(ledger: &mut Ledger, now: u64, new: &NewSession) -> Result<Draft, DraftFault>
    requires moment { now ≤ LAST }
    requires texts { AreSessionTexts new.now }
    requires key { (new.now.key ≡ 1) ⊎ (new.now.key ≡ 2) }
    requires asked { IsSome (asked_row (rows_in ledger.old).asked new.now.request now ledger.old.held.header.horizon) }
    requires unspent { is_spent (rows_in ledger.old).opened new.now.request ≡ false }
    ensures drafts { Drafts ledger.old ledger.new (opened ledger.old.key (next_number ledger.old.held) now new.now) result }
    ensures same { SameLedger ledger.old ledger.new }
    ensures spare { KeepsSpare request_row_rules ledger.old ledger.new }
{
    let first = ledger.next_number();
    let key = ledger.key();
    let token = id_of(key, Kind::Cookie, first);
    let entry = session_record(ledger.allocator(), first, now, &token, new)?;
    ledger.draft(entry)
}

/// Drafts a logout of the live session of a token. `first_id` of the record is the ID of the request.
///
/// Errors are those of `draft_ask`, for the rows of logouts.
pub fn draft_leave(ledger: &mut Ledger, now: u64, token: &str) -> Result<Draft, DraftFault>
    requires moment { now ≤ LAST }
    requires live { IsSome (session_row (rows_in ledger.old).opened token.now now ledger.old.held.header.horizon) }
    ensures drafts { Drafts ledger.old ledger.new (left ledger.old.key (next_number ledger.old.held) now token.now) result }
    ensures same { SameLedger ledger.old ledger.new }
    ensures spare { KeepsSpare request_row_rules ledger.old ledger.new }
{
    ledger.holds_records();
    let first = ledger.next_number();
    let key = ledger.key();
    let request = id_of(key, Kind::Request, first);
    let entry = SpRecord::Left(Left {
        first,
        moment: now,
        until: now + LIFE,
        token: Text::of(ledger.allocator(), token)?,
        request: Text::of(ledger.allocator(), request.as_str())?,
    });
    ledger.draft(entry)
}

/// Drafts the end of the live sessions of an issuer and a name whose index is listed, or of all of them where none is
/// listed; none exactly where there is no such session. `first_id` of the record is the ID of the answer to `request`.
///
/// Errors are those of `draft_ask`, without `LedgerFull`.
pub fn draft_end(
    ledger: &mut Ledger,
    now: u64,
    issuer: &str,
    name: &str,
    indexes: &Texts,
    request: &str,
) -> Result<Option<Draft>, DraftFault>
    requires moment { now ≤ LAST }
    requires text { is_xml_text request.now ≡ true }
    ensures drafts { DraftsSome ledger.old ledger.new
        (is_empty (ending now ledger.old.held.header.horizon issuer.now name.now indexes.now (rows_in ledger.old).opened))
        (ended ledger.old.key (next_number ledger.old.held) now
        (ending now ledger.old.held.header.horizon issuer.now name.now indexes.now (rows_in ledger.old).opened)
        request.now) result }
    ensures same { SameLedger ledger.old ledger.new }
    ensures spare { KeepsSpare request_row_rules ledger.old ledger.new }
{
    ledger.holds_records();
    let tokens = ending(ledger, now, issuer, name, indexes)?;
    if tokens.is_empty() {
        return Ok(None);
    }
    let first = ledger.next_number();
    let key = ledger.key();
    let message = id_of(key, Kind::Message, first);
    let entry = SpRecord::Ended(Ended {
        first,
        moment: now,
        tokens,
        message: Text::of(ledger.allocator(), message.as_str())?,
        request: Text::of(ledger.allocator(), request)?,
    });
    Ok(Some(ledger.draft(entry)?))
}

/// Drafts that the logout of a request was confirmed; none exactly where no visible row of a logout that is not
/// confirmed has it. Errors are those of `draft_end`.
pub fn draft_confirm(
    ledger: &mut Ledger,
    now: u64,
    request: &str,
) -> Result<Option<Draft>, DraftFault>
    requires moment { now ≤ LAST }
    ensures drafts { DraftsSome ledger.old ledger.new
        (not (is_waiting_now (rows_in ledger.old).left request.now now ledger.old.held.header.horizon))
        (confirmed now request.now) result }
    ensures same { SameLedger ledger.old ledger.new }
    ensures spare { KeepsSpare request_row_rules ledger.old ledger.new }
{
    ledger.holds_records();
    if !is_waiting(ledger, request, now) {
        return Ok(None);
    }
    let entry = SpRecord::Confirmed(Confirmed {
        moment: now,
        request: Text::of(ledger.allocator(), request)?,
    });
    Ok(Some(ledger.draft(entry)?))
}

/// Whether a logout is of this request, is not confirmed and is visible.
fn is_waiting_row(row: &LeftRow, request: &str, now: u64, horizon: u64) -> bool
    ensures { result ≡ (bytes_eq row.now.request request.now && not row.now.confirmed && visible row.now.until now horizon) }
{
    row.request.as_str() == request && !row.confirmed && now.max(horizon) < row.until
}

/// Whether a session lives at a moment, is of this issuer and name, and its index is listed or none is. `set` has what is
/// listed.
fn is_ending(
    row: &OpenedRow,
    now: u64,
    horizon: u64,
    issuer: &str,
    name: &str,
    indexes: &Texts,
    set: &TextSet,
) -> bool
    requires { IsSetOf set.now indexes.now }
    ensures { result ≡ is_ending now horizon issuer.now name.now indexes.now row.now }
{
    !row.closed
        && now.max(horizon) < row.until
        && row.issuer.as_str() == issuer
        && row.name.as_str() == name
        && is_listed(indexes, set, &row.index)
}

/// Whether an index is listed, or none is. `set` has what is listed.
fn is_listed(indexes: &Texts, set: &TextSet, index: &Option<Text>) -> bool
    requires { IsSetOf set.now indexes.now }
    ensures { result ≡ is_listed indexes.now index.now }
{
    if indexes.is_empty() {
        return true;
    }
    match index {
        Some(index) => set.holds(index.as_str()),
        None => false,
    }
}

/// The record of a session.
fn session_record(
    alloc: Global,
    first: u64,
    moment: u64,
    token: &Id,
    new: &NewSession,
) -> Result<SpRecord, NoMemory>
    requires { (new.now.key ≡ 1) ⊎ (new.now.key ≡ 2) }
    ensures { IfOk result (λ r. r ≡ opened_with first moment token.now new.now) }
{
    let key = match new.key {
        1 => KeyNumber::First,
        _ => KeyNumber::Second,
    };
    let index = match &new.index {
        Some(index) => Some(index.copy()?),
        None => None,
    };
    Ok(SpRecord::Opened(Opened {
        first,
        moment,
        until: new.until,
        request: new.request.copy()?,
        issuer: new.issuer.copy()?,
        assertion: new.assertion.copy()?,
        assertion_until: new.assertion_until,
        token: Text::of(alloc, token.as_str())?,
        name: new.name.copy()?,
        index,
        attributes: new.attributes.copy()?,
        key,
    }))
}
