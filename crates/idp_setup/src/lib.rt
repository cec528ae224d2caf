//! An identity provider is set up by its config and by the files that the config names.
//!
//! ```
//! match set_up(alloc, files, "idp.conf") {
//!     Ok(config) => { /* a provider can be started with it */ }
//!     Err(SetupFault::BadFile { file, line }) => { /* this file, or its line, can't be used */ }
//!     Err(SetupFault::ReadFault | SetupFault::NoMemory) => { /* nothing is known */ }
//! }
//! ```
//!
//! The config is read first, and then the files that it names, in the order of its lines; the first that can't be used is
//! told (`IsBadSetUp` of `specs/Setup.antt`). Where all of them are good, no two peers may have one name: the line of the
//! later one is told. Where it is told what files there are, a config has one outcome ([`laws`]). What is set up can be
//! used: its texts are such that a document may hold them, and its peers are few and differ in their names (`IsUsable`).
//!
//! # What is proved
//!
//! `set_up`: an identity provider exactly as its config and the files that it names say (`ok`), or the first file that
//! can't be used and its line, or the line of the first peer whose name stands before it, unless a reading failed or
//! memory ran out (`err`); a provider can be started with what is set up (`usable`). A config has one outcome
//! (`laws::a_config_has_one_outcome`).
#![tactic(auto)]

pub mod laws;
mod loaded;
mod peers_read;
mod reading;
mod setup;

pub use peers_read::PeersRead;
pub use reading::read_peer_files;
pub use setup::set_up;
pub use sp_setup::SetupFault;
