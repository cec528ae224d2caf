//! The rounds of an identity provider: logouts that ask one provider after the other (SAML Profiles, 4.4.3.3).
//!
//! ```
//! let mut rounds = RoundRows::new(alloc);
//! rounds.reserve()?;
//! rounds.put(row, 12);                                // its first request begins with the number 12
//! let row = rounds.waiting(request);                  // the round that waits for the answer to a request
//! rounds.reserve()?;
//! rounds.tell(request, true, Some(next));             // an answer came, and the next provider is asked
//! ```
//!
//! A round waits for the answer to one request at a time: first to that of its first turn, and behind each answer to the next
//! request, while a turn is left. Behind the answer of its last turn it is done, and waits for none.
//!
//! Contracts see [`RoundRows`] as the list of rows in the order in which they came, the numbers of all requests that were made,
//! and how many more fit in without memory. The numbers ascend, so the round of a request is found by halving.
//!
//! # What is proved
//!
//! The rounds of an identity provider: `waiting` finds the round that waits for an answer, and no other row has its
//! request (`only`); `tell` counts an answer in that row, gives it its next request, and changes no other row (`rows`,
//! `only`); `put` puts a row at the end. `reserve` may want memory, and changes nothing else; the other calls can't fail.
#![tactic(auto)]

mod row;
mod rows;

pub use row::{NextRequest, RoundRow};
pub use rows::RoundRows;
