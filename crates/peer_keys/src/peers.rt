// Peers.
ghost use Rattle.std.specs.Prelude.{◌≡◌, ◌<◌, [], ◌∷◌, ◌++◌, length, slice_get, OnOk, OnErr, IsTrue, IfSome, ◌↔◌, Some};
ghost use Rattle.peer_keys.specs.Peers.{place_of};

use metadata::Peer;
use owned_values::{Blob, NoMemory};
use std::alloc::Global;
use std::marker::Model;

/// A provider that this one answers, and the keys that both share, one for each direction.
#[derive(Debug, Drop)]
pub struct LogoutPeer {
    /// What its metadata says of it.
    pub peer: Peer,
    /// The key that signs what it sends.
    pub key_in: Blob,
    /// The key that signs what is sent to it.
    pub key_out: Blob,
}

impl LogoutPeer {
    ghost use Rattle.std.specs.Str.{bytes_eq};

    /// Whether this is the peer's name.
    fn has_name(&self, entity: &str) -> bool
        ensures { result ≡ bytes_eq self.now.peer.entity entity.now }
    {
        self.peer.entity.as_str() == entity
    }
}

/// The peers of a provider.
#[derive(Debug, Drop)]
pub struct Peers {
    items: Vec<LogoutPeer>,
}

impl Model for Peers {
    ghost use Rattle.std.specs.Prelude.{List};
    ghost use Rattle.peer_keys.specs.declared.peers.LogoutPeer.{LogoutPeer};

    ghost Value = { List LogoutPeer };

    ghost view = { λ p. p.items.items };
}

impl Peers {
    /// No peers. It takes no memory.
    pub fn new(alloc: Global) -> Peers
        ensures { result ≡ [] }
    {
        Peers {
            items: Vec::new(alloc),
        }
    }

    /// How many there are.
    pub fn len(&self) -> usize
        ensures { result ≡ length self.now }
    {
        self.items.len()
    }

    /// Whether there is none.
    pub fn is_empty(&self) -> bool
        ensures { IsTrue result ↔ (self.now ≡ []) }
    {
        self.items.is_empty()
    }

    /// The peer at place `i`, counted from 0.
    pub fn at(&self, i: usize) -> &LogoutPeer
        requires { i < length self.now }
        ensures { slice_get self.now i ≡ Some result.now }
    {
        &self.items[i]
    }

    /// The peers themselves, in order.
    pub fn as_slice(&self) -> &[LogoutPeer]
        ensures { result.now ≡ self.now }
    {
        self.items.as_slice()
    }

    /// Puts a peer at the end. Where there is no memory the list is as it was, and `peer` is let go.
    pub fn push(&mut self, peer: LogoutPeer) -> Result<(), NoMemory>
        ensures ok { OnOk result (self.new ≡ self.old ++ peer ∷ []) }
        ensures err { OnErr result (self.new ≡ self.old) }
    {
        self.items.push(peer)?;
        Ok(())
    }

    /// The place of the first peer with this name; none where there is none.
    pub fn place_of(&self, entity: &str) -> Option<usize>
        ensures place { result ≡ place_of entity.now self.now }
        ensures there { IfSome result (λ place. place < length self.now) }
    {
        place_of(self.items.as_slice(), entity)
    }
}

/// The place of the first of these peers with a name; none where there is none.
pub fn place_of(peers: &[LogoutPeer], entity: &str) -> Option<usize>
    ensures place { result ≡ place_of entity.now peers.now }
    ensures there { IfSome result (λ place. place < length peers.now) }
{
    for (place, peer) in peers.iter().enumerate() {
        if peer.has_name(entity) {
            return Some(place);
        }
    }
    None
}
