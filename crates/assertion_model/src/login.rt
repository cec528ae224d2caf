// A login.

use crate::audiences::Audiences;
use owned_values::{Attributes, Text};

/// What an assertion says of a user who has logged in (SAML Core, 2.3.3; SAML Profiles, 4.1.4.2). A moment is a count of
/// milliseconds since 1970-01-01T00:00:00Z.
#[derive(Debug, Drop)]
pub struct Login {
    /// The ID of the assertion.
    pub id: Text,
    /// Who made it.
    pub issuer: Text,
    /// When it was made.
    pub issued: u64,
    /// For whom it is meant: a list for each AudienceRestriction.
    pub audiences: Audiences,
    /// Where the consumed confirmation may be presented.
    pub recipient: Text,
    /// The ID of the request that it answers.
    pub request: Text,
    /// Before which moment it may be presented.
    pub confirm_until: u64,
    /// From when on it is valid, where it says so.
    pub not_before: Option<u64>,
    /// Until when it is valid, where it says so.
    pub not_on_or_after: Option<u64>,
    /// The name of the user.
    pub name: Text,
    /// The index of the session, where there is one.
    pub index: Option<Text>,
    /// When the session ends, where it says so.
    pub session_until: Option<u64>,
    /// The attributes of the user, in order.
    pub attributes: Attributes,
}
