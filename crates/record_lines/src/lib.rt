//! The records of a ledger as lines that a person can read and search.
//!
//! ```
//! let zero = read_text(&journal_0)?;                            // of `gate_journal`: what each file holds
//! let one = read_text(&journal_1)?;
//! if let Judged::Records(file) = judge::<SpRows>(alloc, zero, one)? {   // each payload is a record of the ledger
//!     put_lines::<SpRows, _>(alloc, &file, &mut place)?;        // a line for each of them
//! }
//! ```
//!
//! A line is the moment of a record as an instant, its kind, and its fields as `name=value`, each behind a space
//! (`specs/Lines.antt`). Bytes that are no visible characters of ASCII are printed as `\` and two digits of base 16, so no
//! byte of a record ends a line, begins a field or stands for a second record ([`laws`]). Of a secret (a cookie, a token, the
//! ID of a pending login) only the number is printed, and relay states are left out.
//!
//! Nothing is printed before all records were judged, so of a journal that is foreign no line is seen. While they are judged
//! their rows are kept; while they are printed there is one record and one line at a time.
//!
//! [`judge`] answers for every pair of files. `NoMemory` may come from each call that takes an allocator or a place.
//!
//! # What is proved
//!
//! `judge`: what two files stand for as the journal of a ledger, nothing, a file each of whose payloads is a record, or
//! the first place that is wrong, exactly (`IsJudged`). `put_lines` puts the line of each record, in their order, each
//! once. Whatever a record holds, its line is one line, and a space stands nowhere but in front of a piece
//! (`laws::a_record_is_one_line`); a text that is printed whole is told by its piece
//! (`laws::a_text_is_told_by_its_piece`). Of a secret no more than its number is printed, and of a relay state nothing: a
//! line is that of the record without them (`laws::a_line_tells_no_secret`).
#![tactic(auto)]

mod escaping;
mod field;
mod hub_lines;
mod idp_lines;
mod judging;
pub mod laws;
mod listing;
mod lists;
mod moments;
mod sp_lines;
mod turns;

pub use escaping::{put_escaped, put_escaped_name};
pub use judging::{Judged, judge};
pub use listing::put_lines;
pub use lists::Lines;

/// The rows of a service provider's records.
pub use request_ledger::Marked as SpRows;

/// The rows of an identity provider's records.
pub use idp_ledger::IdpStanding;

/// The rows of a hub's records.
pub use hub_ledger::HubStanding;
