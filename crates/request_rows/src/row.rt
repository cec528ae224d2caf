//! A row of each kind.
use owned_values::{Attributes, Text};

/// A request for a login that was sent to the identity provider (SAML Core, 3.4.1).
#[derive(Debug, Drop)]
pub struct AskedRow {
    /// The ID of the request.
    pub request: Text,
    /// The relay state that was sent with it (SAML Bindings, 3.5.3).
    pub relay: Text,
    /// The path to which the user goes after the login.
    pub target: Text,
    /// The moment until which an answer is accepted, in milliseconds since 1970-01-01T00:00:00Z.
    pub until: u64,
}

/// A session that was opened for an accepted login (SAML Profiles, 4.1.4.3).
#[derive(Debug, Drop)]
pub struct OpenedRow {
    /// The ID of the request that was answered.
    pub request: Text,
    /// The entity that issued the assertion.
    pub issuer: Text,
    /// The ID of the assertion.
    pub assertion: Text,
    /// The moment until which the assertion may not come again, in milliseconds since 1970-01-01T00:00:00Z.
    pub assertion_until: u64,
    /// The token of the session, which its cookie holds.
    pub token: Text,
    /// The name of the user.
    pub name: Text,
    /// The index of the session at the issuer, where it gave one (SAML Core, 2.7.2).
    pub index: Option<Text>,
    /// What the issuer states of the user (SAML Core, 2.7.3).
    pub attributes: Attributes,
    /// The moment until which the session lives, in milliseconds since 1970-01-01T00:00:00Z.
    pub until: u64,
    /// Whether it was closed before.
    pub closed: bool,
    /// The number of the key by which the login was verified, 1 or 2.
    pub key: u8,
}

/// A request for a logout that was sent to the identity provider (SAML Core, 3.7.1).
#[derive(Debug, Drop)]
pub struct LeftRow {
    /// The ID of the request.
    pub request: Text,
    /// The moment until which an answer is accepted, in milliseconds since 1970-01-01T00:00:00Z.
    pub until: u64,
    /// Whether it was answered.
    pub confirmed: bool,
}

/// What an accepted login says of the session that it is to open. It has no token yet.
#[derive(Debug, Drop)]
pub struct NewSession {
    /// The ID of the request that is answered.
    pub request: Text,
    /// The entity that issued the assertion.
    pub issuer: Text,
    /// The ID of the assertion.
    pub assertion: Text,
    /// The moment until which the assertion may not come again, in milliseconds since 1970-01-01T00:00:00Z.
    pub assertion_until: u64,
    /// The name of the user.
    pub name: Text,
    /// The index of the session at the issuer, where it gave one (SAML Core, 2.7.2).
    pub index: Option<Text>,
    /// The moment until which the session is to live, in milliseconds since 1970-01-01T00:00:00Z.
    pub until: u64,
    /// What the issuer states of the user (SAML Core, 2.7.3).
    pub attributes: Attributes,
    /// The number of the key by which the login was verified, 1 or 2.
    pub key: u8,
}
