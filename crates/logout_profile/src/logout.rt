// What a form asks or replies of a logout.

use owned_values::Text;
use protocol_messages::{LogoutRequest, LogoutResponse};

/// What a peer asks or replies of a logout.
#[derive(Debug, Drop)]
pub enum Logout {
    /// It asks to end sessions of a user (SAML Core, 3.7.1).
    Ask {
        /// What it asks.
        request: LogoutRequest,
        /// The place of the peer among those that were given, from 0.
        peer: usize,
        /// The RelayState that the response has to repeat, where there was one (SAML Bindings, 3.5.3).
        relay: Option<Text>,
    },
    /// It replies what became of a logout that it was asked for (SAML Core, 3.7.2).
    Reply {
        /// What it replies.
        response: LogoutResponse,
        /// The place of the peer among those that were given, from 0.
        peer: usize,
    },
}
