//! Metadata of providers (SAML Metadata, 2): what a peer is called, and where messages to it go.
//!
//! ```
//! let peer = read_peer(alloc, text, Role::Idp)?;
//! let own = put_metadata(alloc, Role::Sp, "urn:example:sp", "http://127.0.0.1:8081")?;
//! ```
//!
//! A contract sees what an element says of a provider as a function of the tree and the number of the element
//! (`Metadata.antt`), and what is written as the bytes of a made element (`Making.antt`). What is written for a role is
//! read as the provider in that role, where its name is not empty (`laws`). Want of memory may come in place of any other answer.
//!
//! # What is proved
//!
//! `read_peer_at`: the provider that an element describes in a role, or the first of WrongShape and NoPostService,
//! exactly (`Gives`); `read_peer` the same for the root of a document, with the reader's fault where the text is none.
//! `put_metadata` and `put_plain_metadata` write exactly the elements of the definitions. What is written for a role is
//! read as the provider in that role with its addresses, where its name is not empty, and what `put_metadata` writes as
//! WrongShape in the other (`laws::written_metadata_is_read`).
#![tactic(auto)]

mod fault;
pub mod laws;
mod make;
mod peer;
mod read;

pub use fault::MetaFault;
pub use make::{put_metadata, put_plain_metadata};
pub use peer::{Peer, Role};
pub use read::{read_peer, read_peer_at};
