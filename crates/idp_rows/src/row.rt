//! A row of each kind. A moment is the milliseconds since 1970-01-01T00:00:00Z.
use owned_values::{Attributes, Text};

/// A request for a login that came, for which the user is asked for a password (SAML Core, 3.4.1).
#[derive(Debug, Drop)]
pub struct PendingRow {
    /// The moment until which the password is accepted.
    pub until: u64,
    /// The ID of this login, which its page holds.
    pub pending: Text,
    /// The ID of the request.
    pub request: Text,
    /// The entity that asked.
    pub peer: Text,
    /// The address to which the answer goes.
    pub consumer: Text,
    /// The relay state of the request, where it has one (SAML Bindings, 3.5.3).
    pub relay: Option<Text>,
    /// Whether an assertion was issued for it.
    pub used: bool,
}

/// An assertion that was issued (SAML Profiles, 4.1.3.5).
#[derive(Debug, Drop)]
pub struct IssuedRow {
    /// The login that was pending; none where the user had a session.
    pub pending: Option<Text>,
    /// The cookie of the session.
    pub cookie: Text,
    /// The index of the session (SAML Core, 2.7.2).
    pub index: Text,
    /// The moment until which the session lives.
    pub session_end: u64,
    /// The ID of the assertion.
    pub assertion: Text,
    /// The ID of the answer in which it went.
    pub message: Text,
    /// The name of the user.
    pub user: Text,
    /// The entity that asked.
    pub peer: Text,
    /// The address to which the answer went.
    pub consumer: Text,
    /// The ID of the request.
    pub request: Text,
    /// The relay state of the request, where it has one (SAML Bindings, 3.5.3).
    pub relay: Option<Text>,
    /// The moment until which the assertion is accepted.
    pub until: u64,
    /// What the assertion states of the user (SAML Core, 2.7.3).
    pub attributes: Attributes,
}

/// A session of a user, which began with the login whose cookie it has.
#[derive(Debug, Drop)]
pub struct SessionRow {
    /// The cookie of the session.
    pub cookie: Text,
    /// The index of the session (SAML Core, 2.7.2).
    pub index: Text,
    /// The name of the user.
    pub user: Text,
    /// What is stated of the user (SAML Core, 2.7.3).
    pub attributes: Attributes,
    /// The moment until which the session lives.
    pub until: u64,
    /// Whether it was ended before.
    pub ended: bool,
}

/// A request for a logout that was sent to a service provider (SAML Core, 3.7.1).
#[derive(Debug, Drop)]
pub struct LeftRow {
    /// The ID of the request.
    pub request: Text,
    /// The moment until which an answer is accepted.
    pub until: u64,
    /// Whether it was answered.
    pub confirmed: bool,
}
