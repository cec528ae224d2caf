//! The lines of a service provider's records.
ghost use Rattle.std.specs.Prelude.{◌≡◌, map};
ghost use Rattle.ledger_records.specs.Fields.{key_byte};
ghost use Rattle.record_lines.specs.Lines.{asked, opened, left, ended, confirmed, sp_line};
ghost use Rattle.record_lines.specs.Views.{field_view};

use crate::field::{Field, line_of};
use crate::lists::Lines;
use ledger_records::sp_record::{Asked, Confirmed, Ended, Left, Opened};
use ledger_records::{KeyNumber, SpRecord};
use owned_values::{Blob, NoMemory};
use request_ledger::Marked;
use std::alloc::Global;

/// The number of a key.
pub(crate) fn key_number(key: KeyNumber) -> u64
    ensures { result ≡ key_byte key }
{
    match key {
        KeyNumber::First => 1,
        KeyNumber::Second => 2,
    }
}

/// What is printed of a request.
fn asked(r: &Asked) -> [Field<'_>; 3]
    ensures { map field_view result ≡ asked r.now }
{
    [
        Field::Moment("until", r.until),
        Field::Text("target", &r.target),
        Field::Text("request", &r.request),
    ]
}

/// What is printed of a session.
fn opened(r: &Opened) -> [Field<'_>; 10]
    ensures { map field_view result ≡ opened r.now }
{
    [
        Field::Moment("until", r.until),
        Field::Text("request", &r.request),
        Field::Text("issuer", &r.issuer),
        Field::Text("assertion", &r.assertion),
        Field::Moment("assertion_until", r.assertion_until),
        Field::Secret("token", &r.token),
        Field::Text("name", &r.name),
        Field::MaybeText("index", &r.index),
        Field::Attributes(&r.attributes),
        Field::Number("key", key_number(r.key)),
    ]
}

/// What is printed of a logout that was begun here.
fn left(r: &Left) -> [Field<'_>; 3]
    ensures { map field_view result ≡ left r.now }
{
    [
        Field::Moment("until", r.until),
        Field::Secret("token", &r.token),
        Field::Text("request", &r.request),
    ]
}

/// What is printed of a logout that the identity provider asked for.
fn ended(r: &Ended) -> [Field<'_>; 3]
    ensures { map field_view result ≡ ended r.now }
{
    [
        Field::Secrets("tokens", &r.tokens),
        Field::Text("message", &r.message),
        Field::Text("request", &r.request),
    ]
}

/// What is printed of a logout that was answered.
fn confirmed(r: &Confirmed) -> [Field<'_>; 1]
    ensures { map field_view result ≡ confirmed r.now }
{
    [Field::Text("request", &r.request)]
}

impl Lines for Marked {
    ghost line = { sp_line };

    fn line_of(entry: &SpRecord, alloc: Global) -> Result<Blob, NoMemory> {
        match entry {
            SpRecord::Asked(r) => line_of(alloc, r.moment, "Asked", &asked(r)),
            SpRecord::Opened(r) => line_of(alloc, r.moment, "Opened", &opened(r)),
            SpRecord::Left(r) => line_of(alloc, r.moment, "Left", &left(r)),
            SpRecord::Ended(r) => line_of(alloc, r.moment, "Ended", &ended(r)),
            SpRecord::Confirmed(r) => line_of(alloc, r.moment, "Confirmed", &confirmed(r)),
        }
    }
}
