//! A record that can be committed.
ghost use Rattle.std.specs.Prelude.{◌≡◌, Some};
ghost use Rattle.request_ledger.specs.Draft.{IsDrawn, drawn_id};

use crate::marked::Marked;
use ledger_records::SpRecord;
use record_ledger::DraftedRecord;

/// A record that was drafted. Contracts see it as the record.
pub type Draft = DraftedRecord<Marked>;

/// The first ID that a record draws: the request of an Asked or a Left, the token of an Opened, the message of an Ended.
pub fn first_id(entry: &SpRecord) -> &str
    requires { IsDrawn entry.now 0 }
    ensures { Some result.now ≡ drawn_id entry.now 0 }
{
    match entry {
        SpRecord::Asked(r) => r.request.as_str(),
        SpRecord::Opened(r) => r.token.as_str(),
        SpRecord::Left(r) => r.request.as_str(),
        SpRecord::Ended(r) => r.message.as_str(),
        SpRecord::Confirmed(_) => unreachable!(),
    }
}

/// The second ID that a record draws: the relay state of an Asked.
pub fn second_id(entry: &SpRecord) -> &str
    requires { IsDrawn entry.now 1 }
    ensures { Some result.now ≡ drawn_id entry.now 1 }
{
    match entry {
        SpRecord::Asked(r) => r.relay.as_str(),
        _ => unreachable!(),
    }
}
