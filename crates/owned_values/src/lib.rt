//! Values that the program owns: texts, bytes, and lists of them.
//!
//! ```
//! let mut roles = Texts::new(alloc);
//! roles.push(Text::of(alloc, "reader")?)?;
//! attributes.push(Attribute { name: Text::of(alloc, "role")?, values: roles })?;
//! ```
//!
//! A contract sees a text and a `Blob` as their bytes, a list as the list of what it holds, and an attribute as its name
//! and its values. `new` takes no memory; each call that does answers `NoMemory` where there is none, and what it was
//! lent is then as before.
//!
//! # What is proved
//!
//! Texts, bytes, lists of texts and attributes as contracts see them: each call exact, and what it was lent unchanged
//! where memory runs out; so are the calls on a text that may be absent (`copy_if_any`, `chars_if_any`). What a call may
//! return is fixed by what the definition gives (`laws::what_is_given_is_one_answer`).
#![tactic(auto)]

mod attributes;
pub mod laws;
mod memory;
mod optional;
mod owned;

pub use attributes::{Attribute, Attributes};
pub use memory::NoMemory;
pub use optional::{chars_if_any, copy_if_any};
pub use owned::{Blob, Text, Texts};
