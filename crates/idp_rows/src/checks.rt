//! What makes a record one that may come next, beside the rows that it names.
ghost use Rattle.std.specs.Prelude.{◌≡◌, ◌+◌, ◌<◌, ◌^◌, ◌∷◌, [], nat_le};
ghost use Rattle.std.specs.List.{flat_map, list_all};
ghost use Rattle.ledger_rules.specs.Numbers.{is_xml_text};
ghost use Rattle.ledger_rules.specs.Numbers.{are_fresh as are_fresh_numbers};
ghost use Rattle.ledger_records.specs.declared.idp_record.IdpRecord.TheVariants as kinds;
ghost use Rattle.idp_rows.specs.RowsOf.{if_pending};
ghost use Rattle.idp_rows.specs.Record.{LAST, drawn, moments, of_turn, texts};

use ledger_records::IdpRecord;
use ledger_records::idp_record::Issued;
use ledger_records::idp_round::{Round, Told};
use ledger_rules::{LAST, are_allowed, are_allowed_attributes, is_allowed, is_fresh};
use logout_turns::Turn;

/// Whether the cookie and the index that an Issued draws are fresh, where it draws them.
fn is_session_fresh(least: u64, r: &Issued) -> bool
    requires { r.now.first < 2 ^ 63 }
    ensures { result ≡ are_fresh_numbers least (if_pending r.now.pending
        (record { number = r.now.first + 2; id = r.now.cookie }
        ∷ record { number = r.now.first + 3; id = r.now.index } ∷ [])) }
{
    match &r.pending {
        Some(_) => {
            is_fresh(least, r.first + 2, &r.cookie) && is_fresh(least, r.first + 3, &r.index)
        }
        None => true,
    }
}

/// Whether the numbers that a record draws are this one or greater and below the end, and each ID begins with its number.
pub(crate) fn are_fresh(least: u64, entry: &IdpRecord) -> bool
    ensures { result ≡ are_fresh_numbers least (drawn entry.now) }
{
    match entry {
        IdpRecord::Pending(r) => is_fresh(least, r.first, &r.pending),
        IdpRecord::Issued(r) => {
            is_fresh(least, r.first, &r.assertion)
                && is_fresh(least, r.first + 1, &r.message)
                && is_session_fresh(least, r)
        }
        IdpRecord::Ended(r) => is_fresh(least, r.first, &r.message),
        IdpRecord::Left(r) => is_fresh(least, r.first, &r.request),
        IdpRecord::Confirmed(_) => true,
        IdpRecord::Spoke(r) => is_fresh(least, r.first, &r.message),
        IdpRecord::Round(r) => {
            is_fresh(least, r.first, &r.message) && is_fresh(least, r.first + 1, &r.request)
        }
        IdpRecord::Told(r) => match &r.next {
            Some(next) => is_fresh(least, r.first, next),
            None => true,
        },
    }
}

/// Whether a document may hold the characters of an Issued's texts.
fn is_allowed_issue(r: &Issued) -> bool
    ensures { result ≡ list_all is_xml_text (texts (kinds.Issued r.now)) }
{
    let is_pending_allowed = match &r.pending {
        Some(pending) => is_allowed(pending),
        None => true,
    };
    is_allowed(&r.cookie)
        && is_allowed(&r.index)
        && is_allowed(&r.assertion)
        && is_allowed(&r.message)
        && is_allowed(&r.user)
        && is_allowed(&r.peer)
        && is_allowed(&r.consumer)
        && is_allowed(&r.request)
        && is_pending_allowed
        && are_allowed_attributes(r.attributes.as_slice())
}

/// Whether a document may hold the characters of what a turn tells to its provider.
fn is_allowed_turn(turn: &Turn) -> bool
    ensures { result ≡ list_all is_xml_text (of_turn turn.now) }
{
    is_allowed(&turn.peer) && is_allowed(&turn.name) && are_allowed(turn.indexes.as_slice())
}

/// Whether a document may hold the characters of what turns tell.
fn are_allowed_turns(turns: &[Turn]) -> bool
    ensures { result ≡ list_all is_xml_text (flat_map of_turn turns.now) }
{
    turns.iter().all(|turn| is_allowed_turn(turn))
}

/// Whether a document may hold the characters of a Round's texts.
fn is_allowed_round(r: &Round) -> bool
    ensures { result ≡ list_all is_xml_text (texts (kinds.Round r.now)) }
{
    let is_asker_allowed = match &r.asker {
        Some(asker) => is_allowed(&asker.peer) && is_allowed(&asker.request),
        None => true,
    };
    is_allowed(&r.message)
        && is_allowed(&r.request)
        && is_asker_allowed
        && are_allowed_turns(r.turns.as_slice())
        && are_allowed(r.cookies.as_slice())
}

/// Whether a document may hold the characters of a Told's texts.
fn is_allowed_told(r: &Told) -> bool
    ensures { result ≡ list_all is_xml_text (texts (kinds.Told r.now)) }
{
    let is_next_allowed = match &r.next {
        Some(next) => is_allowed(next),
        None => true,
    };
    is_allowed(&r.request) && is_next_allowed
}

/// Whether a document may hold the characters of a record's texts. A relay state may hold any.
pub(crate) fn are_xml_texts(entry: &IdpRecord) -> bool
    ensures { result ≡ list_all is_xml_text (texts entry.now) }
{
    match entry {
        IdpRecord::Pending(r) => {
            is_allowed(&r.pending)
                && is_allowed(&r.request)
                && is_allowed(&r.peer)
                && is_allowed(&r.consumer)
        }
        IdpRecord::Issued(r) => is_allowed_issue(r),
        IdpRecord::Ended(r) => {
            is_allowed(&r.message)
                && is_allowed(&r.request)
                && is_allowed(&r.peer)
                && are_allowed(r.cookies.as_slice())
        }
        IdpRecord::Left(r) => {
            is_allowed(&r.cookie) && is_allowed(&r.request) && is_allowed(&r.peer)
        }
        IdpRecord::Confirmed(r) => is_allowed(&r.request),
        IdpRecord::Spoke(r) => {
            is_allowed(&r.message) && is_allowed(&r.request) && is_allowed(&r.peer)
        }
        IdpRecord::Round(r) => is_allowed_round(r),
        IdpRecord::Told(r) => is_allowed_told(r),
    }
}

/// Whether a record was made before the year 10000, as the session of an Issued ends.
pub(crate) fn is_dated(entry: &IdpRecord) -> bool
    ensures { result ≡ list_all (λ moment. nat_le moment LAST) (moments entry.now) }
{
    match entry {
        IdpRecord::Pending(r) => r.moment <= LAST,
        IdpRecord::Issued(r) => r.moment <= LAST && r.session_end <= LAST,
        IdpRecord::Ended(r) => r.moment <= LAST,
        IdpRecord::Left(r) => r.moment <= LAST,
        IdpRecord::Confirmed(r) => r.moment <= LAST,
        IdpRecord::Spoke(r) => r.moment <= LAST,
        IdpRecord::Round(r) => r.moment <= LAST,
        IdpRecord::Told(r) => r.moment <= LAST,
    }
}
