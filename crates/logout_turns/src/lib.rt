//! Whom a logout tells: one turn for each provider that has to be asked (SAML Profiles, 4.4.3.3).
//!
//! ```
//! let mut turns = Turns::new(alloc);
//! turns.push(Turn { peer, name, indexes })?;                    // a LogoutRequest to `peer` with these indexes
//! ```
//!
//! A contract sees a list of turns as the list of what it holds. `new` takes no memory; each call that does answers
//! `NoMemory` where there is none, and what it was lent is then as before.
//!
//! # What is proved
//!
//! Parts of sessions, askers and turns as contracts see them: each call on a list of turns is exact on the list of what it
//! holds, and leaves it as it was where memory runs out. A copy of an asker is that asker (`copy_of_asker`).
#![tactic(auto)]

mod part;
mod turns;

pub use part::{Asker, Part, copy_of_asker};
pub use turns::{Turn, Turns};
