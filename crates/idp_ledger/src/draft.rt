//! A record that can be committed, and what it says.
ghost use Rattle.std.specs.Prelude.{◌≡◌, IsSome, Some};
ghost use Rattle.idp_ledger.specs.Draft.{first_id, second_id, issued_in, peer_in, partial_in};

use crate::standing::IdpStanding;
use ledger_records::IdpRecord;
use ledger_records::idp_record::Issued;
use record_ledger::DraftedRecord;

/// A record that was drafted. Contracts see it as the record.
pub type Draft = DraftedRecord<IdpStanding>;

/// The ID of a record that goes out first: of the login of a Pending, of the answer of an Issued, an Ended or a Spoke, of
/// the request of a Left or a Round, of the next request of a Told.
pub fn first_id(entry: &IdpRecord) -> &str
    requires { IsSome (first_id entry.now) }
    ensures { Some result.now ≡ first_id entry.now }
{
    match entry {
        IdpRecord::Pending(r) => r.pending.as_str(),
        IdpRecord::Issued(r) => r.message.as_str(),
        IdpRecord::Ended(r) => r.message.as_str(),
        IdpRecord::Left(r) => r.request.as_str(),
        IdpRecord::Spoke(r) => r.message.as_str(),
        IdpRecord::Round(r) => r.request.as_str(),
        IdpRecord::Told(r) => match &r.next {
            Some(next) => next.as_str(),
            None => unreachable!(),
        },
        IdpRecord::Confirmed(_) => unreachable!(),
    }
}

/// The cookie that an Issued draws where a login was pending, and the ID of the answer of a Round.
pub fn second_id(entry: &IdpRecord) -> &str
    requires { IsSome (second_id entry.now) }
    ensures { Some result.now ≡ second_id entry.now }
{
    match entry {
        IdpRecord::Issued(r) => match r.pending {
            Some(_) => r.cookie.as_str(),
            None => unreachable!(),
        },
        IdpRecord::Round(r) => r.message.as_str(),
        _ => unreachable!(),
    }
}

/// The Issued that a record is, of which a login is made.
pub fn issued(entry: &IdpRecord) -> &Issued
    requires { IsSome (issued_in entry.now) }
    ensures { Some result.now ≡ issued_in entry.now }
{
    match entry {
        IdpRecord::Issued(r) => r,
        _ => unreachable!(),
    }
}

/// The peer to which the request of a Left goes.
pub fn peer(entry: &IdpRecord) -> &str
    requires { IsSome (peer_in entry.now) }
    ensures { Some result.now ≡ peer_in entry.now }
{
    match entry {
        IdpRecord::Left(r) => r.peer.as_str(),
        _ => unreachable!(),
    }
}

/// Whether an Ended is partial: in one of its sessions an assertion was issued to another peer too.
pub fn is_partial(entry: &IdpRecord) -> bool
    requires { IsSome (partial_in entry.now) }
    ensures { Some result ≡ partial_in entry.now }
{
    match entry {
        IdpRecord::Ended(r) => r.partial,
        _ => unreachable!(),
    }
}
