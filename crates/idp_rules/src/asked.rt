// What is asked for.

use owned_values::Text;

/// A login that a peer asks for (SAML Core, 3.4.1).
#[derive(Debug, Drop)]
pub struct Asked {
    /// The place of the peer among the provider's peers, from 0.
    pub peer: usize,
    /// The ID of the request.
    pub request: Text,
    /// Where the Response goes.
    pub consumer: Text,
    /// The relay state of the request, where it has one (SAML Bindings, 3.5.3).
    pub relay: Option<Text>,
    /// Whether the user has to be authenticated anew: ForceAuthn.
    pub force: bool,
    /// Whether the user may not be asked: IsPassive.
    pub passive: bool,
}
