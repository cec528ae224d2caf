//! Elements that are made: each is written as its exclusive canonical form.
//!
//! # What is proved
//!
//! Elements that are made: each call gives exactly the element that it says (`Made::new` to `attr_value`), and what is
//! written is its exclusive canonical form (`Made::put`, `Made::put_into`, `Made::written`), which spells its tree with good names
//! (`a_made_element_spells_its_tree`).
#![tactic(auto)]

mod element;
mod laws;
mod names;
mod piece;
mod scope;
mod tag;
mod writing;

pub use element::Made;
pub use laws::a_made_element_spells_its_tree;
pub use names::Ns;
