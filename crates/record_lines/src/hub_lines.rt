//! The lines of a hub's records.
ghost use Rattle.std.specs.Prelude.{◌≡◌, map};
ghost use Rattle.record_lines.specs.HubLines.{routed, backed, hub_spoke, hub_line};
ghost use Rattle.record_lines.specs.Views.{field_view};

use crate::field::{Field, line_of};
use crate::lists::Lines;
use crate::sp_lines::key_number;
use hub_ledger::HubStanding;
use ledger_records::HubRecord;
use ledger_records::hub_record::{Backed, Routed, Spoke};
use owned_values::{Blob, NoMemory};
use std::alloc::Global;

/// What is printed of a request upwards.
fn routed(r: &Routed) -> [Field<'_>; 5]
    ensures { map field_view result ≡ routed r.now }
{
    [
        Field::Moment("until", r.until),
        Field::Text("request", &r.request),
        Field::Text("peer", &r.peer),
        Field::Text("consumer", &r.consumer),
        Field::Text("below", &r.below),
    ]
}

/// What is printed of a login that was passed on.
fn backed(r: &Backed) -> [Field<'_>; 14]
    ensures { map field_view result ≡ backed r.now }
{
    [
        Field::Text("request", &r.request),
        Field::Text("issuer", &r.issuer),
        Field::Text("above", &r.above),
        Field::Moment("assertion_until", r.assertion_until),
        Field::Number("key", key_number(r.key)),
        Field::Text("assertion", &r.assertion),
        Field::Text("message", &r.message),
        Field::Text("index", &r.index),
        Field::Text("name", &r.name),
        Field::Text("peer", &r.peer),
        Field::Text("consumer", &r.consumer),
        Field::Text("below", &r.below),
        Field::Moment("until", r.until),
        Field::Attributes(&r.attributes),
    ]
}

/// What is printed of an answer without an assertion.
fn spoke(r: &Spoke) -> [Field<'_>; 3]
    ensures { map field_view result ≡ hub_spoke r.now }
{
    [
        Field::Text("message", &r.message),
        Field::Text("request", &r.request),
        Field::Text("peer", &r.peer),
    ]
}

impl Lines for HubStanding {
    ghost line = { hub_line };

    fn line_of(entry: &HubRecord, alloc: Global) -> Result<Blob, NoMemory> {
        match entry {
            HubRecord::Routed(r) => line_of(alloc, r.moment, "Routed", &routed(r)),
            HubRecord::Backed(r) => line_of(alloc, r.moment, "Backed", &backed(r)),
            HubRecord::Spoke(r) => line_of(alloc, r.moment, "Spoke", &spoke(r)),
        }
    }
}
