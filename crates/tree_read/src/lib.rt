//! Children and texts of the elements of a document.
//!
//! An `At` is an element of a document. `only_child`, `first_child` and `at_most_one` give a child of a name,
//! `ElementChildren` takes the element children one after the other by their names, the iterators `Elements` and
//! `AttributeNames` give them all and the names of the attributes, and `text_of`, `trimmed`, `attr_text` and `attr_equals`
//! read what an element holds. A contract sees the element children of element k as a list of numbers and
//! names (`element_children`), and those of a name as the list of their numbers (`children`).
//!
//! # What is proved
//!
//! The element children of an element one after the other (`ElementChildren::take` to `end_or`; the iterator
//! `Elements`) and by name (`children`, `first_child`, `at_most_one`; `only_child` with the exact count where it is not
//! one); the text of an element, also without white space at its ends (`text_of`, `trimmed`); the names of its
//! attributes (the iterator `AttributeNames`), and the value of one without a prefix (`attr_text`, `attr_equals`,
//! `has_attr`). An `At` is an element by its type.
#![tactic(auto)]

mod at;
mod attribute_names;
mod fault;
mod named;
mod nodes;
mod texts;
mod values;
mod walk;

pub use at::At;
pub use attribute_names::AttributeNames;
pub use fault::{OtherShape, ShapeFault};
pub use named::{ChildFault, at_most_one, children, first_child, only_child};
pub use nodes::Nodes;
pub use texts::{text_of, trimmed};
pub use values::{attr_equals, attr_text, has_attr};
pub use walk::{ElementChildren, Elements};
