//! The peers of a provider, and the keys that it shares with each of them.
//!
//! ```
//! let mut peers = Peers::new(alloc);
//! peers.push(LogoutPeer { peer, key_in, key_out })?;
//! let place = peers.place_of("urn:example:sp")?;                // where the first peer of that name stands
//! let key = peers.at(place).key_out.as_slice();                 // signs what is sent to it
//! ```
//!
//! A contract sees the peers as a list. A provider with a name is looked up by `place_of` of `specs/Peers.antt`.
//!
//! # What is proved
//!
//! The peers of a provider, each with the keys that both share: a list, and the place of the first peer of a name
//! (`Peers::place_of`, `place_of`).
#![tactic(auto)]

mod peers;

pub use peers::{LogoutPeer, Peers, place_of};
