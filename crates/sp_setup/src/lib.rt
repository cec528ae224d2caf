//! A service provider is set up by its config and by the files that the config names.
//!
//! ```
//! match set_up(alloc, files, "sp.conf", Purpose::Check) {
//!     Ok(setup) => { /* judge by setup.config; setup.asked and setup.opened are the rows that the config names,
//!                       setup.policy and setup.expiry what it serves by beside */ }
//!     Err(SetupFault::BadFile { file, line }) => { /* this file, or its line, can't be used */ }
//!     Err(SetupFault::ReadFault | SetupFault::NoMemory) => { /* nothing is known */ }
//! }
//! ```
//!
//! The config is read first, and then the files that it names, in the order of its lines; the first that can't be used is
//! told (`IsBadSetUp` of `specs/Setup.antt`). Nothing that a file holds is used before the whole config is good. Where it is
//! told what files there are, a config has one outcome ([`laws`]).
//!
//! # What is proved
//!
//! `set_up`: a service provider exactly as its config and the files that it names say, with its policy and the end of
//! its registry (`ok`), or the first file that can't be used and its line, unless a reading failed or memory ran out
//! (`err`); within the bounds that judging asks for (`bounds`), and with names and addresses that a document may hold
//! (`texts`). `read_whole`: a file that has to be there, in the same way. A config has one outcome (`laws::a_config_has_one_outcome`); with a registry the identity provider is
//! what the covered aggregate lists (`laws::a_registry_tells_the_provider`).
#![tactic(auto)]

mod fault;
pub mod laws;
mod limits;
mod loaded;
mod setup;
mod source;

pub use fault::SetupFault;
pub use limits::{GREATEST_KEY, ID_KEY, LEAST_KEY};
pub use loaded::{Loaded, read_whole};
pub use provider_config::{AskedLine, OpenedLine, Purpose};
pub use setup::{SetUp, config_of, set_up};
