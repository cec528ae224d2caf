//! The IDs that records draw.
ghost use Rattle.hub_ledger.specs.Ids.{AreLoginIds, AreRequestIds};

use saml_ids::{Id, Kind, id_of};

/// The IDs that a request upwards draws, in the order of their numbers.
#[derive(Drop)]
pub(crate) struct RequestIds {
    pub(crate) request: Id,
    pub(crate) relay: Id,
}

/// The IDs that a login draws which is passed on, in the order of their numbers.
#[derive(Drop)]
pub(crate) struct LoginIds {
    pub(crate) assertion: Id,
    pub(crate) message: Id,
    pub(crate) index: Id,
}

/// The IDs of the next two numbers.
pub(crate) fn request_ids(key: &[u8; 32], first: u64) -> RequestIds
    ensures { AreRequestIds key.now first result }
{
    RequestIds {
        request: id_of(key, Kind::Request, first),
        relay: id_of(key, Kind::Relay, first.wrapping_add(1)),
    }
}

/// The IDs of the next three numbers.
pub(crate) fn login_ids(key: &[u8; 32], first: u64) -> LoginIds
    ensures { AreLoginIds key.now first result }
{
    LoginIds {
        assertion: id_of(key, Kind::Assertion, first),
        message: id_of(key, Kind::Message, first.wrapping_add(1)),
        index: id_of(key, Kind::Index, first.wrapping_add(2)),
    }
}
