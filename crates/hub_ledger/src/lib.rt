//! The ledger of a hub: the records of the requests that it passed upwards, and of the logins that it passed on, in a journal that a crash
//! at any moment leaves as it was or with the change.
//!
//! ```
//! let mut ledger = HubLedger::start(alloc, &mut disk, key)?;       // the records of the disk's journal
//! let draft = draft_route(&mut ledger, now, &below)?;              // takes all the memory that is needed
//! first_id(draft.entry());                                         // the ID of the request upwards
//! ledger.commit(&mut disk, draft)?;                                // in every image that a crash may leave from now on
//! routed(&ledger, "_0000000000000001..", now);                     // the request below for which that one was sent
//! ledger.compact(&mut disk, now)?;                                 // leaves out what no one can ask for any more
//! ```
//!
//! A hub is an identity provider to those below it, and a service provider to one above it. Its ledger is a `RecordLedger` of
//! its records and rows: `start`, `reopen`, `commit` and `compact` are that one's. Which payloads are records of a ledger is
//! said in `specs/Record.antt`, and for what rows they stand in `specs/RowsOf.antt`.
//!
//! No request upwards backs two logins: not in any list that a disk may hold, nor over a whole run, what was left out since
//! included ([`laws`]).
//!
//! # What is proved
//!
//! A hub's ledger is one of `record_ledger` (`HubLedger` is `RecordLedger<HubStanding>`), as the other two are. Of its own
//! it has drafts of a request that is passed upwards (`draft_route`), of a login that is passed on (`draft_back`), and of
//! an answer without an assertion (`draft_speak`); `routed` finds the request below for which the one above was sent,
//! while it counts. What an image stands for are records of a ledger, and so is what is kept of them
//! (`laws::images_hold_records`, `laws::kept_are_records`); from the moment of a compaction on it changes no answer
//! (`laws::compactions_change_no_answer`). No ledger has two logins that one request backs, nor has a whole run of
//! additions, compactions and openings, what was left out since included (`laws::no_request_backs_twice`,
//! `laws::no_request_backs_twice_in_a_run`). Each login that was passed on has its request upwards, and goes to the
//! request below for which that was sent (`laws::each_login_has_its_request`), whose texts but a relay state a
//! document may hold (`laws::the_texts_of_a_routed_request_may_stand`).
#![tactic(auto)]

mod checks;
mod draft;
mod drafting;
mod ids;
pub mod laws;
mod ledger;
mod naming;
mod row;
mod rules;
mod standing;

pub use draft::{Draft, backed, first_id, second_id};
pub use drafting::{draft_back, draft_route, draft_speak};
pub use gate_journal::{Disk, Failed, FileNo, Header, OpenFault};
pub use ledger::{HubLedger, routed, rows};
pub use ledger_rules::DraftFault;
pub use row::{BelowRow, RoutedRow};
pub use standing::HubStanding;
