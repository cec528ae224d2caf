//! The drafts of assertions.
ghost use Rattle.std.specs.Prelude.{◌≡◌, ◌≤◌, true, IsSome, IfOk, IfSome};
ghost use Rattle.ledger_rules.specs.Numbers.{is_xml_text};
ghost use Rattle.idp_rows.specs.Finding.{pending_found, session_found};
ghost use Rattle.idp_rows.specs.Record.{LAST};
ghost use Rattle.idp_ledger.specs.Ledger.{KeepsSpare, next_number, rows_in};
ghost use Rattle.idp_ledger.specs.Drafts.{login, login_with, issue, issue_with, IsXmlAsk, AreXmlAttributes, Drafts};
ghost use Rattle.record_ledger.specs.Drafts.{SameLedger};

use crate::ask::Ask;
use crate::draft::Draft;
use crate::drafting::draft;
use crate::ids::{LoginIds, login_ids};
use crate::ledger::{IdpLedger, session};
use idp_rows::{PendingRow, SessionRow};
use ledger_records::IdpRecord;
use ledger_records::idp_record::Issued;
use ledger_rules::{ASSERTION_LIFE, DraftFault, LAST};
use owned_values::{Attributes, NoMemory, Text, copy_if_any};
use std::alloc::Global;

/// How long a session lives, in milliseconds.
pub const SESSION_LIFE: u64 = 28_800_000;

/// The record of an assertion for a pending login.
fn login_record(
    alloc: Global,
    first: u64,
    now: u64,
    ids: &LoginIds,
    row: &PendingRow,
    user: &str,
    attributes: &Attributes,
) -> Result<IdpRecord, NoMemory>
    requires { now ≤ LAST }
    ensures { IfOk result (λ r. r ≡ login_with first now ids.now row.now user.now attributes.now) }
{
    Ok(IdpRecord::Issued(Issued {
        first,
        moment: now,
        pending: Some(row.pending.copy()?),
        cookie: Text::of(alloc, ids.cookie.as_str())?,
        index: Text::of(alloc, ids.index.as_str())?,
        session_end: LAST.min(now + SESSION_LIFE),
        assertion: Text::of(alloc, ids.assertion.as_str())?,
        message: Text::of(alloc, ids.message.as_str())?,
        user: Text::of(alloc, user)?,
        peer: row.peer.copy()?,
        consumer: row.consumer.copy()?,
        request: row.request.copy()?,
        relay: copy_if_any(&row.relay)?,
        until: LAST.min(now + ASSERTION_LIFE),
        attributes: attributes.copy()?,
    }))
}

/// The record of an assertion in a session.
fn issue_record(
    alloc: Global,
    first: u64,
    now: u64,
    ids: &LoginIds,
    row: &SessionRow,
    ask: &Ask,
) -> Result<IdpRecord, NoMemory>
    requires { now ≤ LAST }
    ensures { IfOk result (λ r. r ≡ issue_with first now ids.now row.now ask.now) }
{
    Ok(IdpRecord::Issued(Issued {
        first,
        moment: now,
        pending: None,
        cookie: row.cookie.copy()?,
        index: row.index.copy()?,
        session_end: row.until,
        assertion: Text::of(alloc, ids.assertion.as_str())?,
        message: Text::of(alloc, ids.message.as_str())?,
        user: row.user.copy()?,
        peer: ask.peer.copy()?,
        consumer: ask.consumer.copy()?,
        request: ask.request.copy()?,
        relay: copy_if_any(&ask.relay)?,
        until: LAST.min(now + ASSERTION_LIFE),
        attributes: row.attributes.copy()?,
    }))
}

/// Drafts an assertion for the pending login of an ID, which begins a session of `user`. The assertion is accepted for
/// 300,000 ms and the session lives for 28,800,000 ms from the moment `now` on, both to the end of the year 9999 at most.
/// `first_id` of the record is the ID of the answer, `second_id` the cookie of the session.
///
/// The login is visible and not used. Errors are those of `draft_pending`, for the issued rows.
pub fn draft_login(
    ledger: &mut IdpLedger,
    now: u64,
    pending: &str,
    user: &str,
    attributes: &Attributes,
) -> Result<Draft, DraftFault>
    requires moment { now ≤ LAST }
    requires user { is_xml_text user.now ≡ true }
    requires attributes { AreXmlAttributes attributes.now }
    requires unused { IsSome (pending_found (rows_in ledger.old).pendings pending.now now ledger.old.held.header.horizon) }
    ensures drafts { IfSome (pending_found (rows_in ledger.old).pendings pending.now now
        ledger.old.held.header.horizon) (λ row. Drafts ledger.old ledger.new (login ledger.old.key (next_number
        ledger.old.held) now row user.now attributes.now) result) }
    ensures same { SameLedger ledger.old ledger.new }
    ensures spare { KeepsSpare ledger.old ledger.new }
{
    ledger.holds_records();
    let first = ledger.next_number();
    let key = ledger.key();
    let ids = login_ids(key, first);
    let Some(row) = crate::ledger::pending(ledger, pending, now) else {
        unreachable!();
    };
    let entry = login_record(ledger.allocator(), first, now, &ids, row, user, attributes)?;
    draft(ledger, entry)
}

/// Drafts an assertion in the live session of a cookie, of whose user it states what the session has. It is accepted for
/// 300,000 ms from the moment `now` on, to the end of the year 9999 at most. `first_id` of the record is the ID of the answer.
///
/// Errors are those of `draft_pending`, for the issued rows.
pub fn draft_issue(
    ledger: &mut IdpLedger,
    now: u64,
    cookie: &str,
    ask: &Ask,
) -> Result<Draft, DraftFault>
    requires moment { now ≤ LAST }
    requires texts { IsXmlAsk ask.now }
    requires live { IsSome (session_found (rows_in ledger.old).sessions cookie.now now ledger.old.held.header.horizon) }
    ensures drafts { IfSome (session_found (rows_in ledger.old).sessions cookie.now now
        ledger.old.held.header.horizon) (λ row. Drafts ledger.old ledger.new (issue ledger.old.key (next_number
        ledger.old.held) now row ask.now) result) }
    ensures same { SameLedger ledger.old ledger.new }
    ensures spare { KeepsSpare ledger.old ledger.new }
{
    ledger.holds_records();
    let first = ledger.next_number();
    let key = ledger.key();
    let ids = login_ids(key, first);
    let Some(row) = session(ledger, cookie, now) else {
        unreachable!();
    };
    let entry = issue_record(ledger.allocator(), first, now, &ids, row, ask)?;
    draft(ledger, entry)
}
