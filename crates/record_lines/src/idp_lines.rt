//! The lines of an identity provider's records.
ghost use Rattle.std.specs.Prelude.{◌≡◌, map, IfOk};
ghost use Rattle.record_lines.specs.Lines.{pending, issued, idp_ended, idp_left, idp_confirmed, spoke, round, told, idp_line};
ghost use Rattle.record_lines.specs.Views.{field_view};

use crate::field::{Field, line_of};
use crate::lists::Lines;
use idp_ledger::{IdpStanding, Noted};
use ledger_records::IdpRecord;
use ledger_records::idp_record::{Confirmed, Ended, Issued, Left, Pending, Spoke};
use ledger_records::idp_round::{Round, Told};
use owned_values::{Blob, NoMemory};
use std::alloc::Global;

/// What is printed of a login that is pending.
fn pending(r: &Pending) -> [Field<'_>; 5]
    ensures { map field_view result ≡ pending r.now }
{
    [
        Field::Moment("until", r.until),
        Field::Secret("pending", &r.pending),
        Field::Text("request", &r.request),
        Field::Text("peer", &r.peer),
        Field::Text("consumer", &r.consumer),
    ]
}

/// What is printed of an assertion.
fn issued(r: &Issued) -> [Field<'_>; 12]
    ensures { map field_view result ≡ issued r.now }
{
    [
        Field::MaybeSecret("pending", &r.pending),
        Field::Secret("cookie", &r.cookie),
        Field::Text("index", &r.index),
        Field::Moment("session_end", r.session_end),
        Field::Text("assertion", &r.assertion),
        Field::Text("message", &r.message),
        Field::Text("user", &r.user),
        Field::Text("peer", &r.peer),
        Field::Text("consumer", &r.consumer),
        Field::Text("request", &r.request),
        Field::Moment("until", r.until),
        Field::Attributes(&r.attributes),
    ]
}

/// What is printed of a logout that a service provider asked for.
fn ended(r: &Ended) -> [Field<'_>; 5]
    ensures { map field_view result ≡ idp_ended r.now }
{
    [
        Field::Secrets("cookies", &r.cookies),
        Field::Text("message", &r.message),
        Field::Text("request", &r.request),
        Field::Text("peer", &r.peer),
        Field::Number("partial", u64::from(r.partial)),
    ]
}

/// What is printed of a logout that was begun here.
fn left(r: &Left) -> [Field<'_>; 4]
    ensures { map field_view result ≡ idp_left r.now }
{
    [
        Field::Moment("until", r.until),
        Field::Secret("cookie", &r.cookie),
        Field::Text("request", &r.request),
        Field::Text("peer", &r.peer),
    ]
}

/// What is printed of a logout that was answered.
fn confirmed(r: &Confirmed) -> [Field<'_>; 1]
    ensures { map field_view result ≡ idp_confirmed r.now }
{
    [Field::Text("request", &r.request)]
}

/// What is printed of an answer without an assertion.
fn spoke(r: &Spoke) -> [Field<'_>; 3]
    ensures { map field_view result ≡ spoke r.now }
{
    [
        Field::Text("message", &r.message),
        Field::Text("request", &r.request),
        Field::Text("peer", &r.peer),
    ]
}

/// What is printed of a logout that asks one provider after the other.
fn round(r: &Round) -> [Field<'_>; 7]
    ensures { map field_view result ≡ round r.now }
{
    [
        Field::Moment("until", r.until),
        Field::Text("message", &r.message),
        Field::Text("request", &r.request),
        Field::Secrets("cookies", &r.cookies),
        Field::Asker(&r.asker),
        Field::Turns(&r.turns),
        Field::Number("skipped", u64::from(r.skipped)),
    ]
}

/// What is printed of an answer to it.
fn told(r: &Told) -> [Field<'_>; 3]
    ensures { map field_view result ≡ told r.now }
{
    [
        Field::Text("request", &r.request),
        Field::Number("confirmed", u64::from(r.confirmed)),
        Field::MaybeText("next", &r.next),
    ]
}

/// The line of a record.
fn line_of_record(alloc: Global, entry: &IdpRecord) -> Result<Blob, NoMemory>
    ensures { IfOk result (λ text. text ≡ idp_line entry.now) }
{
    match entry {
        IdpRecord::Pending(r) => line_of(alloc, r.moment, "Pending", &pending(r)),
        IdpRecord::Issued(r) => line_of(alloc, r.moment, "Issued", &issued(r)),
        IdpRecord::Ended(r) => line_of(alloc, r.moment, "Ended", &ended(r)),
        IdpRecord::Left(r) => line_of(alloc, r.moment, "Left", &left(r)),
        IdpRecord::Confirmed(r) => line_of(alloc, r.moment, "Confirmed", &confirmed(r)),
        IdpRecord::Spoke(r) => line_of(alloc, r.moment, "Spoke", &spoke(r)),
        IdpRecord::Round(r) => line_of(alloc, r.moment, "Round", &round(r)),
        IdpRecord::Told(r) => line_of(alloc, r.moment, "Told", &told(r)),
    }
}

impl Lines for IdpStanding {
    ghost line = { idp_line };

    fn line_of(entry: &Noted, alloc: Global) -> Result<Blob, NoMemory> {
        line_of_record(alloc, entry.entry())
    }
}
