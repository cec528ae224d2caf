//! A ledger of records of any kind: a list of records in a journal that a crash at any moment leaves as it was or with the
//! change, and the rows that these records stand for.
//!
//! ```
//! let mut ledger: RecordLedger<Rows> = RecordLedger::start(alloc, &mut disk, key)?;   // the records of the disk's journal
//! let draft = ledger.draft(record)?;                                 // takes all the memory that is needed
//! ledger.commit(&mut disk, draft)?;                                  // in every image that a crash may leave from now on
//! ledger.standing();                                                 // the rows of the records
//! ledger.compact(&mut disk, now)?;                                   // leaves out what no one can ask for any more
//! ```
//!
//! What records there are, how they are spelled, which may follow which, what rows they have and which rows they name, says
//! the caller by a type of rows that implements [`Standing`]: in three values, `RecordRules`, `RowRules` and `LinkRules`, and
//! the laws that hold of them. All else is said here once, of any such values: what two files stand for
//! (`specs/Ledger.antt`), why a record is not drafted (`specs/Drafts.antt`), and what a compaction keeps
//! (`specs/Compacting.antt`).
//!
//! A contract sees a ledger as its records, the header of its journal, the key of its IDs, whether a call failed, and the
//! memory that is ready. A record is drafted first, which takes all the memory that it needs and is refused by name
//! ([`DraftFault`]); to commit it takes none, and only the disk can refuse it ([`Failed`]). After that the ledger is broken,
//! and is opened again by `reopen`.
//!
//! # What is proved
//!
//! A ledger of records of any kind. What records are, how they are spelled, which may follow which, which rows they
//! have and which rows they name is given by a type that implements `Standing`, in three values (`RecordRules`,
//! `RowRules`, `LinkRules`) and the laws that hold of them (`Standing::laws_hold`). Over each such type:
//! `RecordLedger::start` and `reopen` give what the two files stand for, made anew in version 2 where they have version
//! 1, the first ledger where there is none yet, or Foreign with file and place exactly where they hold a fault, unless
//! the disk fails or memory runs out; `draft` takes all memory, and refuses exactly where there are as many rows as may
//! be or the record does not fit; `commit` takes none; `compact` leaves exactly the records with a visible row and
//! those that are linked to them, at the last generation all; at every moment of a call each image that a crash may
//! leave stands for the records before or after it; where a call failed each image still holds a ledger, or no journal
//! yet (`own`). A record that was added is in each history from there on (`specs/Runs.antt`). The ledgers of all roles
//! are this one, each with its own records and rows. Which changing calls of the disk `start`, `reopen`, `commit` and
//! `compact` make is said as at the journal (`calls`; a compaction makes those of one ledger made anew, and at the last
//! generation none). A record that is visible at each moment at which a run compacts the ledger stays in it to the end
//! of the run, with the records that name it (`laws::visible_records_stay`).
#![tactic(auto)]

mod compacting;
mod drafting;
pub mod laws;
mod ledger;
mod links;
mod opening;
mod standing;

pub use drafting::{DraftedRecord, MOST_ROWS};
pub use gate_journal::{Disk, Failed, FileNo, Header, OpenFault};
pub use ledger::RecordLedger;
pub use ledger_rules::DraftFault;
pub use standing::Standing;
