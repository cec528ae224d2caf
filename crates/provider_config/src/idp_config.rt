//! What the config of an identity provider says.

use owned_values::Text;

/// The most peers that a config may have.
pub const MAX_PEERS: usize = 16;

/// What an identity provider signs of a login.
#[derive(Clone, Copy, Debug, PartialEq, Eq)]
pub enum SignMode {
    /// The Assertion, which is so where no line says it.
    Assertion,
    /// The Response.
    Response,
    /// The Assertion, and then the Response.
    Both,
}

/// The files of a service provider, in the order in which its line names them.
#[derive(Debug, Drop)]
pub struct PeerFiles {
    /// The number of the line, from 1.
    pub line: u32,
    /// The metadata of the peer.
    pub metadata: Text,
    /// The key that signs what the peer sends.
    pub key_in: Text,
    /// The key that signs what is sent to the peer.
    pub key_out: Text,
}

/// Files that a line of an identity provider's config names.
#[derive(Debug, Drop)]
pub enum IdpFile {
    /// The users.
    Users(Text),
    /// The key that IDs are made with.
    IdKey(Text),
    /// The three files of a peer.
    Peer(PeerFiles),
}

/// The lines of an identity provider's config.
#[derive(Debug, Drop)]
pub struct IdpLines {
    /// The name of the provider.
    pub entity: Text,
    /// The address that the provider's own addresses begin with.
    pub base: Text,
    /// Where the provider listens.
    pub listen: Text,
    /// By how much clocks may differ, in milliseconds.
    pub skew: u64,
    /// The named files, in the order of their lines.
    pub files: Vec<IdpFile>,
    /// What is signed of a login.
    pub sign: SignMode,
    /// Whether the line `fanout` stands.
    pub fanout: bool,
}
