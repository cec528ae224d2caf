//! What a config says.

use owned_values::Text;

/// The most bytes that a config may have.
pub const MAX_CONFIG_LENGTH: usize = 262_144;

/// What a named file holds.
#[derive(Clone, Copy, Debug, PartialEq, Eq)]
pub enum FileRole {
    /// The metadata of the identity provider.
    Idp,
    /// The key that signs what the peer sends.
    KeyIn,
    /// The key that signs what is sent to the peer.
    KeyOut,
    /// The key that IDs are made with.
    IdKey,
    /// The key of the peer beside the first, for a time.
    NextIn,
    /// The rules that say who may see which page.
    Policy,
}

/// A file that a config names.
#[derive(Debug, Drop)]
pub struct NamedFile {
    /// What the file holds.
    pub role: FileRole,
    /// The name of the file, as the line has it.
    pub name: Text,
}

/// A registry of metadata, which stands in place of the metadata of the identity provider.
#[derive(Debug, Drop)]
pub struct RegistryLine {
    /// The file of the signed aggregate.
    pub file: Text,
    /// The file of the key that signs it.
    pub key: Text,
    /// The name of the identity provider in it, as the line has it.
    pub entity: Text,
}

/// What a line of a service provider's config names.
#[derive(Debug, Drop)]
pub enum SpFile {
    /// One file.
    One(NamedFile),
    /// The two files of a registry.
    Registry(RegistryLine),
}

/// From when a key counts, and until when the key before it does: moments in milliseconds since 1970.
#[derive(Clone, Copy, Debug, PartialEq, Eq)]
pub struct Times {
    /// From when on the key counts.
    pub from: u64,
    /// Until when the key before it counts.
    pub until: u64,
}

/// A request that was asked.
#[derive(Debug, Drop)]
pub struct AskedLine {
    /// The ID of the request.
    pub request: Text,
    /// The RelayState that went with it.
    pub relay: Text,
    /// The path that the user was on the way to.
    pub target: Text,
    /// Until when it can be answered, in milliseconds since 1970.
    pub until: u64,
}

/// A request that was answered.
#[derive(Debug, Drop)]
pub struct OpenedLine {
    /// The ID of the request.
    pub request: Text,
    /// The name of the identity provider that answered.
    pub issuer: Text,
    /// The ID of the assertion that answered.
    pub assertion: Text,
    /// Until when the assertion is remembered, in milliseconds since 1970.
    pub until: u64,
}

/// The lines of a service provider's config.
#[derive(Debug, Drop)]
pub struct SpLines {
    /// The name of the provider.
    pub entity: Text,
    /// The address that the provider's own addresses begin with.
    pub base: Text,
    /// Where the provider listens.
    pub listen: Text,
    /// By how much clocks may differ, in milliseconds.
    pub skew: u64,
    /// The named files, in the order of their lines.
    pub files: Vec<SpFile>,
    /// When the second key of the identity provider counts, where there is one.
    pub next_in: Option<Times>,
    /// Whether the provider tells a proxy who a request comes from.
    pub guard: bool,
    /// What was asked, in the order of the lines.
    pub asked: Vec<AskedLine>,
    /// What was answered, in the order of the lines.
    pub opened: Vec<OpenedLine>,
}
