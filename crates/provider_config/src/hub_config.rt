//! What the config of a hub says.

use crate::config::{SpFile, Times};
use crate::idp_config::PeerFiles;
use owned_values::Text;

/// Files that a line of a hub's config names.
#[derive(Debug, Drop)]
pub enum HubFile {
    /// A file as a service provider's config names it.
    Above(SpFile),
    /// The three files of a provider below.
    Peer(PeerFiles),
}

/// The lines of a hub's config.
#[derive(Debug, Drop)]
pub struct HubLines {
    /// The name of the hub.
    pub entity: Text,
    /// The address that the hub's own addresses begin with.
    pub base: Text,
    /// Where the hub listens.
    pub listen: Text,
    /// By how much clocks may differ, in milliseconds.
    pub skew: u64,
    /// The named files, in the order of their lines.
    pub files: Vec<HubFile>,
    /// When the second key of the identity provider above counts, where there is one.
    pub next_in: Option<Times>,
}
