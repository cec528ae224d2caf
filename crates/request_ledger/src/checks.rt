//! What makes a record one of the ledger, beside the rows that it names.
ghost use Rattle.std.specs.Prelude.{◌≡◌, ◌<◌, ◌↔◌, All, IsTrue};
ghost use Rattle.std.specs.List.{list_all};
ghost use Rattle.ledger_rules.specs.Numbers.{NUMBER_END, is_xml_text};
ghost use Rattle.ledger_rules.specs.Numbers.{are_fresh as are_fresh_numbers};
ghost use Rattle.ledger_records.specs.declared.sp_record.SpRecord.TheVariants as kinds;
ghost use Rattle.request_ledger.specs.Record.{drawn, texts};
ghost use Rattle.request_ledger.specs.Record.{moment_of as moment_in};

use ledger_records::SpRecord;
use ledger_records::sp_record::Opened;
use ledger_rules::{END_OF_NUMBERS, are_allowed, are_allowed_attributes, is_allowed, is_fresh};

/// Whether the numbers that a record draws are this one or greater and below the end, and each ID begins with its number.
pub(crate) fn are_fresh(least: u64, entry: &SpRecord) -> bool
    ensures { result ≡ are_fresh_numbers least (drawn entry.now) }
{
    match entry {
        SpRecord::Asked(r) => {
            is_fresh(least, r.first, &r.request) && is_fresh(least, r.first + 1, &r.relay)
        }
        SpRecord::Opened(r) => is_fresh(least, r.first, &r.token),
        SpRecord::Left(r) => is_fresh(least, r.first, &r.request),
        SpRecord::Ended(r) => is_fresh(least, r.first, &r.message),
        SpRecord::Confirmed(_) => true,
    }
}

/// Whether the numbers that a record draws are below the end.
pub(crate) fn are_before_end(entry: &SpRecord) -> bool
    ensures { IsTrue result ↔ All (λ d. d.number < NUMBER_END) (drawn entry.now) }
{
    match entry {
        SpRecord::Asked(r) => r.first < END_OF_NUMBERS - 1,
        SpRecord::Opened(r) => r.first < END_OF_NUMBERS,
        SpRecord::Left(r) => r.first < END_OF_NUMBERS,
        SpRecord::Ended(r) => r.first < END_OF_NUMBERS,
        SpRecord::Confirmed(_) => true,
    }
}

/// Whether a document may hold the characters of a session's texts.
fn is_allowed_session(r: &Opened) -> bool
    ensures { result ≡ list_all is_xml_text (texts (kinds.Opened r.now)) }
{
    let is_index_allowed = match &r.index {
        Some(index) => is_allowed(index),
        None => true,
    };
    is_allowed(&r.request)
        && is_allowed(&r.issuer)
        && is_allowed(&r.assertion)
        && is_allowed(&r.token)
        && is_allowed(&r.name)
        && is_index_allowed
        && are_allowed_attributes(r.attributes.as_slice())
}

/// Whether a document may hold the characters of a record's texts. A relay state may hold any.
pub(crate) fn are_xml_texts(entry: &SpRecord) -> bool
    ensures { result ≡ list_all is_xml_text (texts entry.now) }
{
    match entry {
        SpRecord::Asked(r) => is_allowed(&r.target) && is_allowed(&r.request),
        SpRecord::Opened(r) => is_allowed_session(r),
        SpRecord::Left(r) => is_allowed(&r.token) && is_allowed(&r.request),
        SpRecord::Ended(r) => {
            is_allowed(&r.message) && is_allowed(&r.request) && are_allowed(r.tokens.as_slice())
        }
        SpRecord::Confirmed(r) => is_allowed(&r.request),
    }
}

/// When a record was made.
pub(crate) fn moment_of(entry: &SpRecord) -> u64
    ensures { result ≡ moment_in entry.now }
{
    match entry {
        SpRecord::Asked(r) => r.moment,
        SpRecord::Opened(r) => r.moment,
        SpRecord::Left(r) => r.moment,
        SpRecord::Ended(r) => r.moment,
        SpRecord::Confirmed(r) => r.moment,
    }
}
