// What a service provider is set up with.

use metadata::Peer;
use owned_values::{Blob, Text};

/// How long a session lives at most, in milliseconds: eight hours.
pub const SESSION_LENGTH: u64 = 28_800_000;

/// The number of the key that a provider is set up with.
pub const FIRST: u8 = 1;

/// The number of the key that takes over from it.
pub const SECOND: u8 = 2;

/// The key that takes over from another one.
#[derive(Debug, Drop)]
pub struct NextKey {
    /// Its bytes.
    pub key: Blob,
    /// From which moment on it counts, in milliseconds since 1970-01-01T00:00:00Z.
    pub from: u64,
    /// From which moment on it alone counts.
    pub until: u64,
}

/// What a service provider is set up with.
#[derive(Debug, Drop)]
pub struct SpConfig {
    /// Its own name.
    pub entity: Text,
    /// What the addresses of its services begin with: responses go to `/acs` below it, logout messages to `/slo`.
    pub base: Text,
    /// The address that it listens on.
    pub listen: Text,
    /// The identity provider.
    pub idp: Peer,
    /// The key of the messages of the identity provider.
    pub key_in: Blob,
    /// The key that takes over from `key_in`, where there is one.
    pub next_in: Option<NextKey>,
    /// The key of its own messages.
    pub key_out: Blob,
    /// The key from which its IDs are made.
    pub id_key: [u8; 32],
    /// How far the clocks of the providers may differ, in milliseconds.
    pub skew: u64,
}
