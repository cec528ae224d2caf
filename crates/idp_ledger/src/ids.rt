//! The IDs of assertions and of rounds.
ghost use Rattle.idp_ledger.specs.Ids.{AreLoginIds, AreRoundIds};

use saml_ids::{Id, Kind, id_of};

/// The IDs that an assertion for a pending login draws, in the order of their numbers. The first two are those of an
/// assertion in a session.
#[derive(Drop)]
pub(crate) struct LoginIds {
    pub(crate) assertion: Id,
    pub(crate) message: Id,
    pub(crate) cookie: Id,
    pub(crate) index: Id,
}

/// The IDs of the next four numbers.
pub(crate) fn login_ids(key: &[u8; 32], first: u64) -> LoginIds
    ensures { AreLoginIds key.now first result }
{
    LoginIds {
        assertion: id_of(key, Kind::Assertion, first),
        message: id_of(key, Kind::Message, first.wrapping_add(1)),
        cookie: id_of(key, Kind::Cookie, first.wrapping_add(2)),
        index: id_of(key, Kind::Index, first.wrapping_add(3)),
    }
}

/// The IDs that a round draws, in the order of their numbers.
#[derive(Drop)]
pub(crate) struct RoundIds {
    pub(crate) message: Id,
    pub(crate) request: Id,
}

/// The IDs of the next two numbers.
pub(crate) fn round_ids(key: &[u8; 32], first: u64) -> RoundIds
    ensures { AreRoundIds key.now first result }
{
    RoundIds {
        message: id_of(key, Kind::Message, first),
        request: id_of(key, Kind::Request, first.wrapping_add(1)),
    }
}
