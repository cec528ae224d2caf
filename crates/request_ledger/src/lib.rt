//! The ledger of a service provider: the records of what it asked, opened and ended, in a journal that a crash at any moment
//! leaves as it was or with the change.
//!
//! ```
//! let mut ledger = Ledger::start(alloc, &mut disk, key)?;          // the records of the disk's journal
//! let draft = draft_ask(&mut ledger, now, "/app")?;                // takes all the memory that is needed
//! let request = Text::of(alloc, first_id(draft.entry()))?;         // the ID that its record draws
//! ledger.commit(&mut disk, draft)?;                                // in every image that a crash may leave from now on
//! session(&ledger, token, now);                                    // the live session of a token
//! ledger.compact(&mut disk, now)?;                                 // leaves out what no one can ask for any more
//! ```
//!
//! It is the ledger of `record_ledger` over these records and rows ([`Marked`]), which start, reopen, commit and compact it.
//! Which payloads are records of a ledger is said in `specs/Record.antt`, for what rows they stand in `specs/RowsOf.antt`, and
//! what is drafted in `specs/Drafts.antt`. A record is drafted first, which takes all the memory that it needs and is refused by
//! name ([`DraftFault`]); to commit it takes none, and only the disk can refuse it ([`Failed`]). After that the ledger is
//! broken, and is opened again by `reopen`.
//!
//! No request opens two sessions: not in any list that a disk may hold, nor over a whole run, what was left out since
//! included ([`laws`]).
//!
//! # What is proved
//!
//! A service provider's ledger: the one of `record_ledger` for its records, with what is proved there of `Ledger::start`,
//! `reopen`, `commit` and `compact`. The five drafts answer the record of their definition with all the memory that it
//! needs (`Drafts`, `DraftsSome`), LedgerFull and JournalFull exactly by their causes, and change nothing but spare
//! memory (`same`, `spare`). `rows` are those of the records, `session` is the live session of a token, `first_id` and
//! `second_id` are the IDs that a record draws. Laws: what an image stands for are records of a ledger
//! (`images_hold_records`), and so is what is kept of them (`kept_are_records`); from the moment of a compaction on it
//! changes no answer to what is asked of rows (`compactions_change_no_answer`); no ledger has two sessions of one
//! request (`no_request_opens_twice`), nor has a whole run of additions, compactions and openings, what was left out
//! since included (`no_request_opens_twice_in_a_run`). A session that ends behind each moment at which a run compacts
//! the ledger has a row to the end of the run, open or closed as it was left (`laws::sessions_stay`).
#![tactic(auto)]

mod checks;
mod draft;
mod drafting;
pub mod laws;
mod ledger;
mod marked;
mod naming;
mod rules;
mod standing;

pub use draft::{Draft, first_id, second_id};
pub use drafting::{draft_ask, draft_confirm, draft_end, draft_leave, draft_session};
pub use gate_journal::{Disk, Failed, FileNo, Header, OpenFault};
pub use ledger::{Ledger, rows, session};
pub use ledger_rules::DraftFault;
pub use marked::Marked;
pub use record_ledger::MOST_ROWS;
