//! What a hub is set up with.

use peer_keys::Peers;
use sp_rules::SpConfig;

/// What a hub is set up with: its own name and addresses, and what it shares with the identity provider above it, as a
/// service provider has them; and the providers below that it answers.
#[derive(Debug, Drop)]
pub struct HubConfig {
    /// The hub as a service provider of the identity provider above.
    pub upstream: SpConfig,
    /// The providers below.
    pub peers: Peers,
}
