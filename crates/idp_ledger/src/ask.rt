//! What a request for a login asks for.
use owned_values::Text;

/// What a request for a login asks for (SAML Core, 3.4.1).
#[derive(Debug, Drop)]
pub struct Ask {
    /// The ID of the request.
    pub request: Text,
    /// The entity that asks.
    pub peer: Text,
    /// The address to which the answer goes.
    pub consumer: Text,
    /// The relay state of the request, where it has one (SAML Bindings, 3.5.3).
    pub relay: Option<Text>,
}
