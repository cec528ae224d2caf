//! The canonical form of elements: Exclusive XML Canonicalization 1.0, without comments.
//!
//! ```
//! let mut hash = HashOctets::within(1024);
//! canon_into(alloc, &doc, doc.root(), None, &Texts::new(alloc), &mut hash)?;
//! let digest = hash.finish();
//! ```
//!
//! The form is put piece by piece into any [`Octets`], so that a hash of it gathers no more than one text or value: no
//! piece is longer than 64 bytes or than what it comes from in the document.
//!
//! # What is proved
//!
//! `canon_into` appends the exclusive canonical form of an element of a document that was read, without the element
//! that is left out and with a prefix list, to any place that takes bytes, piece by piece; where memory runs out, or
//! the place refuses a piece, a part of it from its first byte on. `laws` offers that equal forms have equal contents.
#![tactic(auto)]

mod laws;
mod listed;
mod names;
mod order;
mod placed;
mod rendered;
mod walk;
mod wanted;

pub use canon_octets::{ByteList, HashOctets, MacOctets, Octets};
pub use laws::equal_forms_have_equal_contents;
pub use walk::canon_into;
