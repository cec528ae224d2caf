//! Signed aggregates of metadata (SAML Metadata, 2.3.1): one signature covers the metadata of many providers.
//!
//! ```
//! let registry = read_registry(alloc, text, key)?;
//! if now < registry.valid_until() {
//!     let peer = registry.peer(alloc, "urn:example:idp", Role::Idp)?;
//! }
//! ```
//!
//! An aggregate is read only where its root is signed under the key, and what is kept of it is what that root lists: the
//! EntityDescriptor children, each with its name and with what it says in either role. Nested aggregates and all other
//! children are passed over. A contract sees a registry as these entries and the moment until which they are valid
//! (`Aggregate.antt`); `IsRead` and `IsRefused` of `Faults.antt` say what the text is of which it was read, or why none was.
//! That a provider comes from inside the covered element, and that it depends on nothing but the content of that element,
//! are [`laws`]. Want of memory may come in place of any other answer. Reading is linear in the text and in the canonical
//! forms that are signed, in which declarations of namespaces are repeated; asking for a provider is linear in what is kept.
//!
//! # What is proved
//!
//! `read_registry`: a registry exactly of a text whose root is an aggregate with a moment until which it is valid, for
//! which the signature in front vouches under the key (`IsRead`); else the first of the reader's fault, WrongShape and
//! the signature's fault (`IsRefused`). `Registry::peer`: what the one descriptor of that name that the root lists says
//! in the role; NotListed with the exact count where there is not one (`Gives`). A provider that it gives is read from
//! inside the element that the signature covers, and outside of the signature
//! (`laws::a_peer_is_read_from_a_listed_descriptor`); two texts whose roots have equal canonical forms without their
//! Signature give one registry (`laws::equal_forms_give_one_registry`); a text has one outcome, and each refusal has
//! one cause (`laws::a_text_has_one_outcome`).
#![tactic(auto)]

mod entry;
mod fault;
pub mod laws;
mod registry;

pub use fault::{PeerFault, RegistryFault};
pub use registry::{Registry, read_registry};
