// The parts of a login, as its assertion says them.

use crate::audiences::Audiences;
use owned_values::Text;

/// What the attributes of the Assertion say (SAML Core, 2.3.3).
#[derive(Drop)]
pub(crate) struct Head {
    pub(crate) id: Text,
    pub(crate) issued: u64,
}

/// What the SubjectConfirmationData of the consumed confirmation says (SAML Profiles, 4.1.4.2).
#[derive(Drop)]
pub(crate) struct Confirmed {
    pub(crate) recipient: Text,
    pub(crate) request: Text,
    pub(crate) until: u64,
}

/// When the assertion is valid, and for whom (SAML Core, 2.5.1).
#[derive(Drop)]
pub(crate) struct Valid {
    pub(crate) not_before: Option<u64>,
    pub(crate) not_on_or_after: Option<u64>,
    pub(crate) audiences: Audiences,
}

/// The session that the first AuthnStatement says (SAML Core, 2.7.2).
#[derive(Drop)]
pub(crate) struct Session {
    pub(crate) index: Option<Text>,
    pub(crate) until: Option<u64>,
}
