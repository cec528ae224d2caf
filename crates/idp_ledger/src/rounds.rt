//! The rounds of logouts: what a round begins with, and the answers to it.
ghost use Rattle.std.specs.Prelude.{◌≡◌, ◌≤◌, [], Some, IfOk, IfSome, option_copied};
ghost use Rattle.std.specs.Option.{is_none};
ghost use Rattle.round_rows.specs.Kept.{IsRoundOf};
ghost use Rattle.idp_ledger.specs.Drafts.{round, round_with, told, told_with, is_turn_left, AreLive, AreXmlTurns, IsXmlAsker, Drafts, DraftsSome};
ghost use Rattle.record_ledger.specs.Drafts.{SameLedger};
ghost use Rattle.idp_rows.specs.Finding.{part_of, parts_of, turn_found};
ghost use Rattle.idp_ledger.specs.Ledger.{KeepsSpare, next_number, rows_in};
ghost use Rattle.idp_rows.specs.Record.{LAST};

use crate::draft::Draft;
use crate::drafting::draft;
use crate::ids::{RoundIds, round_ids};
use crate::ledger::{IdpLedger, rows};
use idp_rows::IssuedRow;
use ledger_records::IdpRecord;
use ledger_records::idp_round::{Round, Told};
use ledger_rules::{DraftFault, LIFE, TextSet};
use logout_turns::{Asker, Part, Turn, Turns, copy_of_asker};
use owned_values::{NoMemory, Text, Texts};
use round_rows::RoundRow;
use saml_ids::{Id, Kind, id_of};
use std::alloc::Global;

/// A list of the same turns.
fn copy_of_turns(alloc: Global, turns: &[Turn]) -> Result<Turns, NoMemory>
    ensures { IfOk result (λ copy. copy ≡ turns.now) }
{
    let mut copy = Turns::new(alloc);
    for turn in turns {
        copy.push(turn.copy()?)?;
    }
    Ok(copy)
}

/// The part of a session that an assertion has.
fn part_of(row: &IssuedRow) -> Result<Part, NoMemory>
    ensures { IfOk result (λ part. part ≡ part_of row.now) }
{
    Ok(Part {
        peer: row.peer.copy()?,
        name: row.user.copy()?,
        index: row.index.copy()?,
    })
}

/// The record of a round.
fn round_record(
    alloc: Global,
    first: u64,
    now: u64,
    ids: &RoundIds,
    cookies: &Texts,
    asker: Option<&Asker>,
    turns: &[Turn],
    skipped: bool,
) -> Result<IdpRecord, NoMemory>
    requires { now ≤ LAST }
    ensures { IfOk result (λ r. r ≡ round_with first now ids.now cookies.now (option_copied asker.entry) turns.now skipped) }
{
    Ok(IdpRecord::Round(Round {
        first,
        moment: now,
        until: now + LIFE,
        message: Text::of(alloc, ids.message.as_str())?,
        request: Text::of(alloc, ids.request.as_str())?,
        cookies: cookies.copy()?,
        asker: copy_of_asker(asker)?,
        turns: copy_of_turns(alloc, turns)?,
        skipped,
    }))
}

/// The record of an answer to a round, with the number of the next request and that request, where there is one.
fn told_record(
    alloc: Global,
    first: u64,
    now: u64,
    request: &str,
    confirmed: bool,
    next: Option<&Id>,
) -> Result<IdpRecord, NoMemory>
    ensures { IfOk result (λ r. r ≡ told_with first now request.now confirmed (option_copied next.entry)) }
{
    let next = match next {
        Some(id) => Some(Text::of(alloc, id.as_str())?),
        None => None,
    };
    Ok(IdpRecord::Told(Told {
        first,
        moment: now,
        request: Text::of(alloc, request)?,
        confirmed,
        next,
    }))
}

/// The providers to which assertions were issued in the sessions of these cookies: one part for each assertion, in the
/// order of their records. Of the cookies it looks up each in the others.
pub fn parts(ledger: &IdpLedger, cookies: &Texts) -> Result<Vec<Part>, NoMemory>
    ensures { IfOk result (λ parts. parts.items ≡ parts_of cookies.now (rows_in ledger.now).issues) }
{
    let alloc = ledger.allocator();
    let set = TextSet::of(alloc, cookies)?;
    let mut parts = Vec::new(alloc);
    for row in rows(ledger).issues() {
        if set.holds(row.cookie.as_str()) {
            parts.push(part_of(row)?)?;
        }
    }
    Ok(parts)
}

/// The visible round that waits for the answer to a request, where the turn of this provider has come; none where none does.
pub fn turn<'a>(ledger: &'a IdpLedger, request: &str, peer: &str, now: u64) -> Option<&'a RoundRow>
    ensures found { option_copied result ≡ turn_found (rows_in ledger.now).rounds request.now peer.now now ledger.now.held.header.horizon }
    ensures only { IfSome result (λ row. IsRoundOf (rows_in ledger.now).rounds request.now (Some row.now)) }
{
    let horizon = ledger.header().horizon;
    let row = rows(ledger).waiting_round(request)?;
    if now.max(horizon) < row.until && row.is_turn_of(peer) {
        Some(row)
    } else {
        None
    }
}

/// Drafts a round: the end of the live sessions of these cookies, and a request to the provider of the first turn. Answers
/// are accepted for 600,000 ms from the moment `now` on. `first_id` of the record is the ID of that request, `second_id`
/// the one of the answer that the asker gets in the end.
///
/// Errors: [`DraftFault::LedgerFull`] exactly where 65,536 rows of rounds are kept or more; else
/// [`DraftFault::JournalFull`] exactly where the record does not fit; [`DraftFault::NoMemory`].
pub fn draft_round(
    ledger: &mut IdpLedger,
    now: u64,
    cookies: &Texts,
    asker: Option<&Asker>,
    turns: &[Turn],
    skipped: bool,
) -> Result<Draft, DraftFault>
    requires moment { now ≤ LAST }
    requires live { AreLive (rows_in ledger.old).sessions cookies.now now ledger.old.held.header.horizon }
    requires some { ¬ (turns.now ≡ []) }
    requires asker { IsXmlAsker (option_copied asker) }
    requires turns { AreXmlTurns turns.now }
    ensures drafts { Drafts ledger.old ledger.new (round ledger.old.key (next_number ledger.old.held) now cookies.now
        (option_copied asker.entry) turns.now skipped) result }
    ensures same { SameLedger ledger.old ledger.new }
    ensures spare { KeepsSpare ledger.old ledger.new }
{
    ledger.holds_records();
    let alloc = ledger.allocator();
    let first = ledger.next_number();
    let key = ledger.key();
    let ids = round_ids(key, first);
    let entry = round_record(alloc, first, now, &ids, cookies, asker, turns, skipped)?;
    draft(ledger, entry)
}

/// Drafts the answer of a provider to the request of a round, with a next request where a turn is left; none exactly where
/// `request` is not the one for which a visible round waits at a turn of that provider. `confirmed` says whether the answer
/// confirms the logout. `first_id` of the record is the ID of the next request.
///
/// Errors: [`DraftFault::JournalFull`] exactly where the record does not fit; [`DraftFault::NoMemory`].
pub fn draft_told(
    ledger: &mut IdpLedger,
    now: u64,
    request: &str,
    peer: &str,
    confirmed: bool,
) -> Result<Option<Draft>, DraftFault>
    requires moment { now ≤ LAST }
    ensures drafts { DraftsSome ledger.old ledger.new (is_none (turn_found (rows_in ledger.old).rounds request.now
        peer.now now ledger.old.held.header.horizon)) (told ledger.old.key (next_number ledger.old.held) now
        request.now confirmed (is_turn_left (turn_found (rows_in ledger.old).rounds request.now peer.now now
        ledger.old.held.header.horizon))) result }
    ensures same { SameLedger ledger.old ledger.new }
    ensures spare { KeepsSpare ledger.old ledger.new }
{
    ledger.holds_records();
    let alloc = ledger.allocator();
    let Some(row) = turn(ledger, request, peer, now) else {
        return Ok(None);
    };
    if row.is_turn_left() {
        let first = ledger.next_number();
        let key = ledger.key();
        let next = id_of(key, Kind::Request, first);
        let entry = told_record(alloc, first, now, request, confirmed, Some(&next))?;
        Ok(Some(draft(ledger, entry)?))
    } else {
        let entry = told_record(alloc, 0, now, request, confirmed, None)?;
        Ok(Some(draft(ledger, entry)?))
    }
}
