//! What makes a record one of the ledger, beside the rows that it names.
ghost use Rattle.std.specs.Prelude.{◌≡◌, ◌<◌, nat_le, ◌↔◌, All, IsTrue};
ghost use Rattle.std.specs.List.{list_all};
ghost use Rattle.ledger_rules.specs.Numbers.{NUMBER_END, is_xml_text};
ghost use Rattle.ledger_rules.specs.Numbers.{are_fresh as are_fresh_numbers};
ghost use Rattle.ledger_records.specs.declared.hub_record.HubRecord.TheVariants as kinds;
ghost use Rattle.hub_ledger.specs.Record.{LAST, drawn, goes_to, moments, same_option, texts};

use crate::row::BelowRow;
use ledger_records::HubRecord;
use ledger_records::hub_record::Backed;
use ledger_rules::{END_OF_NUMBERS, LAST, are_allowed_attributes, is_allowed, is_fresh};
use owned_values::Text;

/// Whether two texts that may be absent are the same.
fn is_same_option(one: &Option<Text>, other: &Option<Text>) -> bool
    ensures { result ≡ same_option one.now other.now }
{
    match (one, other) {
        (None, None) => true,
        (Some(one), Some(other)) => one.as_str() == other.as_str(),
        _ => false,
    }
}

/// Whether a login is passed on to the request below that a row holds.
pub(crate) fn goes_to(r: &Backed, row: &BelowRow) -> bool
    ensures { result ≡ goes_to r.now row.now }
{
    row.peer.as_str() == r.peer.as_str()
        && row.consumer.as_str() == r.consumer.as_str()
        && row.request.as_str() == r.below.as_str()
        && is_same_option(&row.relay, &r.below_relay)
}

/// Whether the numbers that a record draws are this one or greater and below the end, and each ID begins with its number.
pub(crate) fn are_fresh(least: u64, entry: &HubRecord) -> bool
    ensures { result ≡ are_fresh_numbers least (drawn entry.now) }
{
    match entry {
        HubRecord::Routed(r) => {
            is_fresh(least, r.first, &r.request) && is_fresh(least, r.first + 1, &r.relay)
        }
        HubRecord::Backed(r) => {
            is_fresh(least, r.first, &r.assertion)
                && is_fresh(least, r.first + 1, &r.message)
                && is_fresh(least, r.first + 2, &r.index)
        }
        HubRecord::Spoke(r) => is_fresh(least, r.first, &r.message),
    }
}

/// Whether the numbers that a record draws are below the end.
pub(crate) fn are_before_end(entry: &HubRecord) -> bool
    ensures { IsTrue result ↔ All (λ d. d.number < NUMBER_END) (drawn entry.now) }
{
    match entry {
        HubRecord::Routed(r) => r.first < END_OF_NUMBERS - 1,
        HubRecord::Backed(r) => r.first < END_OF_NUMBERS - 2,
        HubRecord::Spoke(r) => r.first < END_OF_NUMBERS,
    }
}

/// Whether a document may hold the characters of a passed login's texts.
fn is_allowed_login(r: &Backed) -> bool
    ensures { result ≡ list_all is_xml_text (texts (kinds.Backed r.now)) }
{
    is_allowed(&r.request)
        && is_allowed(&r.issuer)
        && is_allowed(&r.above)
        && is_allowed(&r.assertion)
        && is_allowed(&r.message)
        && is_allowed(&r.index)
        && is_allowed(&r.name)
        && is_allowed(&r.peer)
        && is_allowed(&r.consumer)
        && is_allowed(&r.below)
        && are_allowed_attributes(r.attributes.as_slice())
}

/// Whether a document may hold the characters of a record's texts. A relay state may hold any.
pub(crate) fn are_xml_texts(entry: &HubRecord) -> bool
    ensures { result ≡ list_all is_xml_text (texts entry.now) }
{
    match entry {
        HubRecord::Routed(r) => {
            is_allowed(&r.request)
                && is_allowed(&r.peer)
                && is_allowed(&r.consumer)
                && is_allowed(&r.below)
        }
        HubRecord::Backed(r) => is_allowed_login(r),
        HubRecord::Spoke(r) => {
            is_allowed(&r.message) && is_allowed(&r.request) && is_allowed(&r.peer)
        }
    }
}

/// Whether a record was made before the year 10000, as the login of a Backed ends.
pub(crate) fn is_dated(entry: &HubRecord) -> bool
    ensures { result ≡ list_all (λ moment. nat_le moment LAST) (moments entry.now) }
{
    match entry {
        HubRecord::Routed(r) => r.moment <= LAST,
        HubRecord::Backed(r) => r.moment <= LAST && r.until <= LAST,
        HubRecord::Spoke(r) => r.moment <= LAST,
    }
}
