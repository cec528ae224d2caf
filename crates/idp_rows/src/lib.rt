//! The rows of an identity provider: what its records stand for, kept in memory.
//!
//! ```
//! let mut rows = KeptRows::new(alloc);
//! let noted = Noted::new(record)?;                    // a record, with the session that it begins
//! if rows.comes_next(noted.entry()) {                 // it may come behind those that stand here
//!     rows.make_room(noted.entry())?;
//!     rows.put_entry(noted);
//! }
//! rows.pending(id, now, horizon);                     // a login that is visible and not used
//! rows.session(cookie, now, horizon);                 // a session that is visible and not ended
//! ```
//!
//! Contracts see [`KeptRows`] as the lists of its rows, each in the order of its records, as the least number above all that
//! these drew, and as how many rows of each kind more fit in without memory. Which rows records stand for is said in
//! `specs/RowsOf.antt` and `specs/RoundsOf.antt`, what is looked up in these in `specs/Finding.antt`, and which record may come
//! next in `specs/Record.antt`. Nothing here knows of a journal or a disk.
//!
//! A row is found by the number with which its ID begins, by halving; the assertions of a session are found from the last one
//! back. A record is put in two steps: `make_room`, which may want memory, and `put_entry`, which can't fail.
//!
//! # What is proved
//!
//! The rows of an identity provider: `comes_next` says exactly which record may come behind those that stand here
//! (`is_next`): the rows that it names are there and free, its IDs begin with its numbers, which are greater than all
//! before and below 2^63, a document may hold its texts but a relay state, and it is dated; `put_entry` makes of the
//! rows what they are after that record (`rows_after`). `pending`, `session`, `is_waiting`, `waiting_round`,
//! `last_peer` and `has_issued` give what their definitions give over the lists; `order` is each place once, by key and
//! place. `Noted::new` and `make_room` may want memory, and change nothing else; the other calls can't fail.
#![tactic(auto)]

mod checks;
mod issues;
mod kept;
mod key;
mod lefts;
mod noted;
mod pendings;
mod row;
mod sessions;

pub use kept::KeptRows;
pub use key::IdpKey;
pub use noted::Noted;
pub use row::{IssuedRow, LeftRow, PendingRow, SessionRow};
