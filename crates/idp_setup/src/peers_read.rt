// The peers that a config names, as far as their files were read.

ghost use Rattle.std.specs.Prelude.{◌≡◌, OnOk};
ghost use Rattle.idp_setup.specs.Setup.{no_peers, with_peer};

use peer_keys::{LogoutPeer, Peers};
use saml_outside::NoMemory;
use std::alloc::Global;

/// The peers whose files were read, and whether two of them have one name.
#[derive(Debug, Drop)]
pub struct PeersRead {
    /// The peers, in the order of their lines.
    pub peers: Peers,
    /// The line of the first peer that has the name of one before it.
    pub doubled: Option<u32>,
}

impl PeersRead {
    /// None is read yet. It takes no memory.
    pub fn nothing(alloc: Global) -> PeersRead
        ensures { result ≡ no_peers }
    {
        PeersRead {
            peers: Peers::new(alloc),
            doubled: None,
        }
    }

    /// Takes the peer of this line.
    ///
    /// # Errors
    ///
    /// `NoMemory`, where there is no memory for one more.
    pub fn take(&mut self, line: u32, peer: LogoutPeer) -> Result<(), NoMemory>
        ensures { OnOk result (self.new ≡ with_peer line peer self.old) }
    {
        if self.doubled.is_none() && self.peers.place_of(peer.peer.entity.as_str()).is_some() {
            self.doubled = Some(line);
        }
        self.peers.push(peer)
    }
}
