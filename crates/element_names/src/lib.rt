//! The names of an element (Namespaces in XML 1.0): whether they keep the rules, and which namespace each is in.
//!
//! ```text
//! let mut spaces = Spaces::new(alloc)?;               // outside a document's root
//! spaces.enter(alloc, attributes)?;                   // what an element declares is in force
//! let names = element_names(alloc, &spaces, name, attributes, &mut room, &mut numbers)?;
//! spaces.table.text(names.element)                    // the namespace of its name
//! spaces.leave(depth);                                // behind the elements that are deeper
//! ```
//!
//! Each namespace has a number in a table, so that two names are in one namespace where their numbers are the same. The
//! numbers of all attributes stand in one list. Once a document is read its table gets the rank of each namespace, so that
//! two are put in order in a time that does not grow with their names.
//!
//! # What is proved
//!
//! The names of an element by Namespaces in XML 1.0: `Spaces::enter` and `leave` keep which prefix is bound to which
//! namespace; `element_names` gives the number of the namespace of each name exactly where the names keep the rules
//! (`named`, `resolved`), else BadNames (`err`). `Table::is_same` says whether two numbers have one namespace, and
//! `RankedTable::order` gives the order of their bytes.
#![tactic(auto)]

mod distinct;
mod fault;
mod names;
mod qualified;
mod ranked;
mod spaces;
mod table;

pub use fault::NameFault;
pub use names::{Room, RowNames, element_names};
pub use qualified::is_declaration;
pub use ranked::RankedTable;
pub use spaces::{NONE, Spaces, XMLNS};
pub use table::Table;
