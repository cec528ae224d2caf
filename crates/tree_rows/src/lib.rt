//! The nodes of a document as rows: in document order, each with how deep it stands and where it stands among the others.
//!
//! ```text
//! let mut rows = Rows::new(alloc);
//! let (markup, behind) = rows.next_token("<a b='c'>d")?;   // Start { name: "a" }, and its attributes are kept
//! rows.push_element(place, WrittenName::new("a"))?;        // row 0, with the attribute b
//! rows.shape(0)                                            // Shape::Element { name, attributes }
//! ```
//!
//! Names, values and texts are slices of the document's text, and the attributes of all elements stand in one list, so that
//! a row takes no memory of its own.
//!
//! Contracts see [`Rows`] as a list of rows, a list of their links, and the attributes of the tag that was read last and is no
//! row so far (`specs/Views.antt`).
//!
//! # What is proved
//!
//! The nodes of a document as rows in document order, with the attributes of all elements in one list: `next_token`
//! keeps the attributes of the tag that it read, `push_element` and `push_leaf` add a row, `end_row` ends one, and
//! `depth`, `link`, `span` and `shape` show one; each is exact on the list of rows, of links, and of the attributes
//! that are no row's yet.
#![tactic(auto)]

mod node;
mod rows;

pub use node::{Leaf, Link, Place, Shape};
pub use rows::Rows;
