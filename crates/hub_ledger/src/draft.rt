//! A record that can be committed, and what a record says.
ghost use Rattle.std.specs.Prelude.{◌≡◌, IsSome, Some};
ghost use Rattle.hub_ledger.specs.Draft.{backed_in, first_id, second_id};

use crate::standing::HubStanding;
use ledger_records::HubRecord;
use ledger_records::hub_record::Backed;
use record_ledger::DraftedRecord;

/// A record that was drafted, and its payload. Contracts see it as the record.
pub type Draft = DraftedRecord<HubStanding>;

/// The ID that goes out first: of the request of a Routed, of the answer of a Backed or a Spoke.
pub fn first_id(entry: &HubRecord) -> &str
    requires { IsSome (first_id entry.now) }
    ensures { Some result.now ≡ first_id entry.now }
{
    match entry {
        HubRecord::Routed(r) => r.request.as_str(),
        HubRecord::Backed(r) => r.message.as_str(),
        HubRecord::Spoke(r) => r.message.as_str(),
    }
}

/// The relay state of a Routed.
pub fn second_id(entry: &HubRecord) -> &str
    requires { IsSome (second_id entry.now) }
    ensures { Some result.now ≡ second_id entry.now }
{
    match entry {
        HubRecord::Routed(r) => r.relay.as_str(),
        _ => unreachable!(),
    }
}

/// The Backed of which a login is made.
pub fn backed(entry: &HubRecord) -> &Backed
    requires { IsSome (backed_in entry.now) }
    ensures { Some result.now ≡ backed_in entry.now }
{
    match entry {
        HubRecord::Backed(r) => r,
        _ => unreachable!(),
    }
}
