//! The drafts of each kind of record.
ghost use Rattle.std.specs.Prelude.{◌≡◌, ◌<◌, ◌≤◌, ◌&&◌, true, not, [], length, slice_get, Some, IsSome, IfOk};
ghost use Rattle.std.specs.Str.{bytes_eq};
ghost use Rattle.ledger_rules.specs.Numbers.{is_xml_text};
ghost use Rattle.idp_rows.specs.declared.row.SessionRow.{SessionRow};
ghost use Rattle.ledger_rules.specs.Texts.{IsSetOf};
ghost use Rattle.idp_rows.specs.Finding.{is_empty, is_ending, is_listed, is_partial, is_waiting_now, ending, last_peer, session_found, visible};
ghost use Rattle.idp_rows.specs.Record.{LAST};
ghost use Rattle.idp_ledger.specs.Ledger.{KeepsSpare, next_number, rows_in};
ghost use Rattle.idp_ledger.specs.Drafts.{pending, ended, left, confirmed, spoke, IsXmlAsk, Drafts, DraftsSome};
ghost use Rattle.record_ledger.specs.Drafts.{SameLedger};

use crate::ask::Ask;
use crate::draft::Draft;
use crate::drafting::draft;
use crate::ledger::{IdpLedger, is_waiting, rows};
use idp_rows::SessionRow;
use ledger_records::IdpRecord;
use ledger_records::idp_record::{Confirmed, Ended, Left, Pending, Spoke};
use ledger_rules::{DraftFault, LIFE, TextSet};
use owned_values::{NoMemory, Text, Texts, copy_if_any};
use saml_ids::{Kind, id_of};

/// The sessions that a logout ends.
#[derive(Drop)]
struct EndedSessions {
    /// Their cookies.
    cookies: Texts,
    /// Whether in one of them an assertion was issued to another peer too.
    partial: bool,
}

/// Drafts a login that is pending. It may be used for 600,000 ms from the moment `now` on. `first_id` of the record is its ID.
///
/// Errors: [`DraftFault::LedgerFull`] exactly where 65,536 pending rows are kept or more; else
/// [`DraftFault::JournalFull`] exactly where the record does not fit; [`DraftFault::NoMemory`].
pub fn draft_pending(ledger: &mut IdpLedger, now: u64, ask: &Ask) -> Result<Draft, DraftFault>
    requires moment { now ≤ LAST }
    requires texts { IsXmlAsk ask.now }
    ensures drafts { Drafts ledger.old ledger.new (pending ledger.old.key (next_number ledger.old.held) now ask.now) result }
    ensures same { SameLedger ledger.old ledger.new }
    ensures spare { KeepsSpare ledger.old ledger.new }
{
    let first = ledger.next_number();
    let key = ledger.key();
    let pending = id_of(key, Kind::Pending, first);
    let entry = IdpRecord::Pending(Pending {
        first,
        moment: now,
        until: now + LIFE,
        pending: Text::of(ledger.allocator(), pending.as_str())?,
        request: ask.request.copy()?,
        peer: ask.peer.copy()?,
        consumer: ask.consumer.copy()?,
        relay: copy_if_any(&ask.relay)?,
    });
    draft(ledger, entry)
}

/// Drafts an answer without an assertion. `first_id` of the record is its ID.
///
/// Errors are those of `draft_pending`, without `LedgerFull`.
pub fn draft_speak(ledger: &mut IdpLedger, now: u64, ask: &Ask) -> Result<Draft, DraftFault>
    requires moment { now ≤ LAST }
    requires texts { IsXmlAsk ask.now }
    ensures drafts { Drafts ledger.old ledger.new (spoke ledger.old.key (next_number ledger.old.held) now ask.now) result }
    ensures same { SameLedger ledger.old ledger.new }
    ensures spare { KeepsSpare ledger.old ledger.new }
{
    let first = ledger.next_number();
    let key = ledger.key();
    let message = id_of(key, Kind::Message, first);
    let entry = IdpRecord::Spoke(Spoke {
        first,
        moment: now,
        message: Text::of(ledger.allocator(), message.as_str())?,
        request: ask.request.copy()?,
        peer: ask.peer.copy()?,
    });
    draft(ledger, entry)
}

/// Drafts that the logout of a request was confirmed; none exactly where no visible row of a logout that is not
/// confirmed has it. Errors are those of `draft_speak`.
pub fn draft_confirm(
    ledger: &mut IdpLedger,
    now: u64,
    request: &str,
) -> Result<Option<Draft>, DraftFault>
    requires moment { now ≤ LAST }
    ensures drafts { DraftsSome ledger.old ledger.new
        (not (is_waiting_now (rows_in ledger.old).lefts request.now now ledger.old.held.header.horizon))
        (confirmed now request.now) result }
    ensures same { SameLedger ledger.old ledger.new }
    ensures spare { KeepsSpare ledger.old ledger.new }
{
    ledger.holds_records();
    if !is_waiting(ledger, request, now) {
        return Ok(None);
    }
    let entry = IdpRecord::Confirmed(Confirmed {
        moment: now,
        request: Text::of(ledger.allocator(), request)?,
    });
    Ok(Some(draft(ledger, entry)?))
}

/// Drafts a logout of the live session of a cookie, whose request goes to the peer to which the session's last assertion
/// went. `first_id` of the record is the ID of the request, `peer` that peer.
///
/// Errors are those of `draft_pending`, for the rows of logouts.
pub fn draft_leave(ledger: &mut IdpLedger, now: u64, cookie: &str) -> Result<Draft, DraftFault>
    requires moment { now ≤ LAST }
    requires live { IsSome (session_found (rows_in ledger.old).sessions cookie.now now ledger.old.held.header.horizon) }
    ensures drafts { Drafts ledger.old ledger.new (left ledger.old.key (next_number ledger.old.held) now cookie.now
        (last_peer (rows_in ledger.old).issues cookie.now)) result }
    ensures same { SameLedger ledger.old ledger.new }
    ensures spare { KeepsSpare ledger.old ledger.new }
{
    ledger.holds_records();
    let Some(peer) = rows(ledger).last_peer(cookie) else {
        unreachable!();
    };
    let peer = Text::of(ledger.allocator(), peer)?;
    let first = ledger.next_number();
    let key = ledger.key();
    let request = id_of(key, Kind::Request, first);
    let entry = IdpRecord::Left(Left {
        first,
        moment: now,
        until: now + LIFE,
        cookie: Text::of(ledger.allocator(), cookie)?,
        request: Text::of(ledger.allocator(), request.as_str())?,
        peer,
    });
    draft(ledger, entry)
}

/// Drafts the end of the live sessions of a name in which an assertion was issued to a peer, and whose index is listed,
/// or of all of these where none is listed; none exactly where there is no such session. `first_id` of the record is
/// the ID of the answer to `request`, and `is_partial` says whether in one of these sessions an assertion was issued to
/// another peer too.
///
/// Errors are those of `draft_speak`.
pub fn draft_end(
    ledger: &mut IdpLedger,
    now: u64,
    peer: &str,
    name: &str,
    indexes: &Texts,
    request: &str,
) -> Result<Option<Draft>, DraftFault>
    requires moment { now ≤ LAST }
    requires text { is_xml_text request.now ≡ true }
    requires peer { is_xml_text peer.now ≡ true }
    ensures drafts { DraftsSome ledger.old ledger.new (is_empty (ending now ledger.old.held.header.horizon peer.now
        name.now indexes.now (rows_in ledger.old))) (ended ledger.old.key (next_number ledger.old.held) now (ending now
        ledger.old.held.header.horizon peer.now name.now indexes.now (rows_in ledger.old)) request.now peer.now
        (is_partial now ledger.old.held.header.horizon peer.now name.now indexes.now (rows_in ledger.old))) result }
    ensures same { SameLedger ledger.old ledger.new }
    ensures spare { KeepsSpare ledger.old ledger.new }
{
    ledger.holds_records();
    let set = TextSet::of(ledger.allocator(), indexes)?;
    let ends = sessions_ending(ledger, now, peer, name, indexes, &set)?;
    if ends.cookies.is_empty() {
        return Ok(None);
    }
    let first = ledger.next_number();
    let key = ledger.key();
    let message = id_of(key, Kind::Message, first);
    let entry = IdpRecord::Ended(Ended {
        first,
        moment: now,
        cookies: ends.cookies,
        message: Text::of(ledger.allocator(), message.as_str())?,
        request: Text::of(ledger.allocator(), request)?,
        peer: Text::of(ledger.allocator(), peer)?,
        partial: ends.partial,
    });
    Ok(Some(draft(ledger, entry)?))
}

/// Whether the session at a place lives, is of a name, and an assertion was issued in it to a peer.
fn is_open_to(ledger: &IdpLedger, place: usize, now: u64, peer: &str, name: &str) -> bool
    requires { place < length (rows_in ledger.now).sessions }
    ensures { (row : SessionRow) → slice_get (rows_in ledger.now).sessions place ≡ Some row →
        result ≡ is_ending now ledger.now.held.header.horizon peer.now name.now [] (rows_in ledger.now).issues row }
{
    let horizon = ledger.header().horizon;
    let rows = rows(ledger);
    if !is_named(&rows.sessions()[place], now, horizon, name) {
        return false;
    }
    rows.has_issued(place, peer, false)
}

/// The same, where its index is listed too, or none is. `set` has what is listed.
fn is_ending(
    ledger: &IdpLedger,
    place: usize,
    now: u64,
    peer: &str,
    name: &str,
    indexes: &Texts,
    set: &TextSet,
) -> bool
    requires place { place < length (rows_in ledger.now).sessions }
    requires set { IsSetOf set.now indexes.now }
    ensures { (row : SessionRow) → slice_get (rows_in ledger.now).sessions place ≡ Some row →
        result ≡ is_ending now ledger.now.held.header.horizon peer.now name.now indexes.now
        (rows_in ledger.now).issues row }
{
    let sessions = rows(ledger).sessions();
    is_open_to(ledger, place, now, peer, name) && is_listed(indexes, set, &sessions[place].index)
}

/// These sessions, by one search.
fn sessions_ending(
    ledger: &IdpLedger,
    now: u64,
    peer: &str,
    name: &str,
    indexes: &Texts,
    set: &TextSet,
) -> Result<EndedSessions, NoMemory>
    requires { IsSetOf set.now indexes.now }
    ensures cookies { IfOk result (λ ends. ends.cookies ≡ ending now ledger.now.held.header.horizon peer.now name.now indexes.now (rows_in ledger.now)) }
    ensures partial { IfOk result (λ ends. ends.partial ≡ is_partial now ledger.now.held.header.horizon peer.now name.now indexes.now (rows_in ledger.now)) }
{
    let rows = rows(ledger);
    let mut cookies = Texts::new(ledger.allocator());
    let mut partial = false;
    for (place, row) in rows.sessions().iter().enumerate() {
        if is_ending(ledger, place, now, peer, name, indexes, set) {
            cookies.push(row.cookie.copy()?)?;
            partial |= rows.has_issued(place, peer, true);
        }
    }
    Ok(EndedSessions { cookies, partial })
}

/// The cookies of the live sessions of a name in which an assertion was issued to a peer, and whose index is listed, or of
/// all of these where none is listed: those that `draft_end` would end.
pub fn ending(
    ledger: &IdpLedger,
    now: u64,
    peer: &str,
    name: &str,
    indexes: &Texts,
) -> Result<Texts, NoMemory>
    ensures { IfOk result (λ cookies. cookies ≡ ending now ledger.now.held.header.horizon peer.now name.now indexes.now (rows_in ledger.now)) }
{
    let set = TextSet::of(ledger.allocator(), indexes)?;
    let ends = sessions_ending(ledger, now, peer, name, indexes, &set)?;
    Ok(ends.cookies)
}

/// Whether a session lives at a moment, and is of this name.
fn is_named(row: &SessionRow, now: u64, horizon: u64, name: &str) -> bool
    ensures { result ≡ (not row.now.ended && visible row.now.until now horizon && bytes_eq row.now.user name.now) }
{
    !row.ended && now.max(horizon) < row.until && row.user.as_str() == name
}

/// Whether an index is listed, or none is. `set` has what is listed.
fn is_listed(indexes: &Texts, set: &TextSet, index: &Text) -> bool
    requires { IsSetOf set.now indexes.now }
    ensures { result ≡ is_listed indexes.now index.now }
{
    indexes.is_empty() || set.holds(index.as_str())
}
