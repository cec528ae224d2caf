//! The configs of providers: files of lines, each a key and its words.
//!
//! ```
//! let lines = read_sp_config(alloc, text, Purpose::Serve)?;
//! for file in &lines.files {
//!     match file {
//!         SpFile::One(named) => { /* `named.name` has what `named.role` says */ }
//!         SpFile::Registry(line) => { /* `line.file` lists `line.entity`, signed with the key in `line.key` */ }
//!     }
//! }
//! ```
//!
//! A config is a text of lines ([`text_lines`]). A key stands at most once, but for `peer`, `asked` and `opened`, and
//! the keys stand in any order; words are separated by one space. A service provider has its identity provider either
//! from metadata (`idp`) or from a registry of metadata (`registry`), and may have a policy.
//! [`read_sp_config`] gives what the definition `sp_config` gives, [`read_idp_config`] what `idp_config` gives, and
//! [`read_hub_config`] what `hub_config` gives: the values of the keys and the named files in the order of their lines, or
//! the number of the first line that is bad ([`ConfigFault`]). All are linear in the text. What the named files hold is not
//! looked at here. A hub's lines are those of a service provider, but for its policy, registry and guard, and the peers of
//! an identity provider.
//!
//! What is read keeps the bounds that callers need: the skew is at most [`MOST_SKEW`] seconds, moments are in order, the
//! name and the addresses are texts that XML allows, and each file that a config needs is named.
//!
//! # What is proved
//!
//! `read_sp_config`: unless memory ran out, the config that a file's lines say, exactly, or the number of the first
//! line that is bad, or 0 where a key is missing (`value`); what it gives is within the bounds that callers need
//! (`skew`, `times`, `texts`, `files`). A service provider's config has metadata or a registry, and no two of its files
//! have one role (`laws::no_role_is_named_twice`). `read_idp_config` the same for an identity provider, and
//! `read_hub_config` for a hub: the peers of either are at most [`MAX_PEERS`] (`few`).
#![tactic(auto)]

mod config;
mod draft;
mod fault;
mod hub_config;
mod hub_draft;
mod hub_line;
mod hub_read;
mod idp_config;
mod idp_draft;
mod idp_line;
mod idp_read;
pub mod laws;
mod line;
mod read;

pub use config::{
    AskedLine, FileRole, MAX_CONFIG_LENGTH, NamedFile, OpenedLine, RegistryLine, SpFile, SpLines,
    Times,
};
pub use fault::ConfigFault;
pub use hub_config::{HubFile, HubLines};
pub use hub_read::read_hub_config;
pub use idp_config::{IdpFile, IdpLines, MAX_PEERS, PeerFiles, SignMode};
pub use idp_read::read_idp_config;
pub use line::{MILLIS, MOST_SKEW, Purpose};
pub use read::read_sp_config;
