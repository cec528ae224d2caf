//! Places that take bytes piece by piece, and the tags, texts and values of the canonical form of XML, put into one of
//! them (Canonical XML 1.0, 2.3).
//!
//! ```
//! let mut hash = HashOctets::within(1024);
//! put_start(QualifiedName { prefix: "p", local: "a" }, &mut hash)?;
//! put_declaration("p", "urn:u", &mut hash)?;
//! hash.put(b">")?;
//! put_end(QualifiedName { prefix: "p", local: "a" }, &mut hash)?;
//! let digest = hash.finish();
//! ```
//!
//! No call takes memory but a `put` into a [`ByteList`] or a `Vec`, and no piece is longer than 64 bytes or than what
//! it comes from. Contracts see which bytes were appended from one state of a place to the next: all that a call says,
//! or, where the place refuses a piece, a part of them from the first on. The places that keep a hash take so many
//! bytes and no more: a piece that passes the limit is counted and refused, and not hashed; then [`HashOctets::finish`]
//! gives nothing.
//!
//! # What is proved
//!
//! Places that take bytes piece by piece: a list of bytes, SHA-256 (`HashOctets::finish`) and HMAC
//! (`MacOctets::finish`) of what was put, which take so many bytes and no more: a piece that passes the limit is
//! counted and refused, and then there is no hash (`within`, `put`). Escapes, attributes, declarations, start and end
//! tags and instructions as Canonical XML writes them.
#![tactic(auto)]

mod escape;
mod hash;
mod octets;
mod room;
mod tags;

pub use escape::{escape_text, escape_value};
pub use hash::{HashOctets, MacOctets};
pub use octets::{ByteList, Octets};
pub use tags::{
    QualifiedName, put_attribute, put_declaration, put_end, put_instruction, put_start,
};
