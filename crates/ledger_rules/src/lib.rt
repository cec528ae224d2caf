//! What the ledgers of all providers have in common: numbers and the IDs that have them, what is checked of each record, which
//! records are kept where others are left out, and why no record was drafted.
//!
//! ```
//! let mut numbers = Numbers::new(alloc);
//! numbers.reserve()?;
//! numbers.put(4);                                     // the row at place 0 has an ID of number 4
//! numbers.place_of("_0000000000000004af..");          // Some(0): no other place can have this ID
//! let flags = keep(alloc, &[Some(1), None, None], &[true, false, false])?;   // [true, true, false]
//! let set = TextSet::of(alloc, &texts)?;
//! set.holds("_a");                                    // whether one of the texts is `_a`
//! ```
//!
//! An ID begins with its number, so IDs of different numbers differ, and a list of rows whose numbers ascend needs no
//! index: [`Numbers`] finds the place of an ID by halving. [`keep`] follows links between records, however far they lead, in
//! linear time.
//!
//! The IDs of lesser numbers are less by bytes too, so the order of such rows by their IDs is that of their places:
//! [`RowPlaces`] shows it. [`TextSet`] says whether a text is among others without going over all of them.
//!
//! Contracts see [`Numbers`] as the list of its numbers and how many more fit in without memory, [`RowPlaces`] as how many
//! places there are and how many more fit in, and [`TextSet`] as its texts.
//!
//! # What is proved
//!
//! `has_number`, `is_xml_text` are exact, and what the latter lets through is a text that a document may hold
//! (`laws::an_allowed_text_may_stand`); `Numbers` are numbers that ascend, and give the only row whose ID a text may be
//! (`place_of`); `RowPlaces` shows the places of such rows; `TextSet` says whether a text is among those of a list;
//! the checks that the readings of all ledgers share; `keep` sets the flags of exactly those records from which steps
//! between records that name one another lead to one that is seen (`AreFlagsOf`).
#![tactic(auto)]

mod checks;
mod fault;
mod kept;
pub mod laws;
mod numbers;
mod row_places;
mod text_set;

pub use checks::{
    ASSERTION_LIFE, END_OF_NUMBERS, LAST, LIFE, are_allowed, are_allowed_attributes, is_allowed,
    is_fresh,
};
pub use fault::DraftFault;
pub use kept::keep;
pub use numbers::{Numbers, has_number, is_xml_text};
pub use row_places::RowPlaces;
pub use text_set::TextSet;
