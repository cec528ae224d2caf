// What an identity provider is set up with.

ghost use Rattle.std.specs.Prelude.{◌≡◌, IfOk};
ghost use Rattle.idp_rules.specs.Config as spec;

use owned_values::{NoMemory, Text};
use peer_keys::Peers;
use provider_config::SignMode;
use std::alloc::Global;
use user_store::Users;

/// What an identity provider is set up with.
#[derive(Debug, Drop)]
pub struct IdpConfig {
    /// Its name.
    pub entity: Text,
    /// What its addresses begin with.
    pub base: Text,
    /// Where it listens.
    pub listen: Text,
    /// The service providers that it answers.
    pub peers: Peers,
    /// Who can log in.
    pub users: Users,
    /// The key from which IDs are made.
    pub id_key: [u8; 32],
    /// By how much clocks may differ, in milliseconds.
    pub skew: u64,
    /// What is signed of a login.
    pub mode: SignMode,
    /// Whether its config has the line `fanout`.
    pub fanout: bool,
}

/// The address to which requests for a login are posted (SAML Metadata, 2.4.3, SingleSignOnService).
pub fn sign_on_address(alloc: Global, config: &IdpConfig) -> Result<Text, NoMemory>
    ensures { IfOk result (λ address. address ≡ spec.sign_on config.now) }
{
    let mut address = Text::of(alloc, config.base.as_str())?;
    address.push("/sso")?;
    Ok(address)
}
