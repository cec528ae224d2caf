//! The ledger of an identity provider: the records of what was asked of it, what it issued and ended, in a journal that a
//! crash at any moment leaves as it was or with the change.
//!
//! ```
//! let mut ledger = IdpLedger::start(alloc, &mut disk, key)?;          // the records of the disk's journal
//! let draft = draft_pending(&mut ledger, now, &ask)?;                 // takes all the memory that is needed
//! let id = Text::of(alloc, first_id(draft.entry().entry()))?;
//! ledger.commit(&mut disk, draft)?;                                   // in every image that a crash may leave from now on
//! let draft = draft_login(&mut ledger, now, id.as_str(), user, &attributes)?;
//! let cookie = Text::of(alloc, second_id(draft.entry().entry()))?;
//! ledger.commit(&mut disk, draft)?;
//! session(&ledger, cookie.as_str(), now);                             // the live session of a cookie
//! let draft = draft_round(&mut ledger, now, &cookies, Some(&asker), plan.turns.as_slice(), plan.skipped)?;   // a logout of all providers
//! let request = Text::of(alloc, first_id(draft.entry().entry()))?;
//! ledger.commit(&mut disk, draft)?;
//! draft_told(&mut ledger, now, request.as_str(), peer, true)?;        // the answer of the first, and a request to the next
//! ledger.compact(&mut disk, now)?;                                    // leaves out what no one can ask for any more
//! ```
//!
//! [`IdpLedger`] is the ledger of `record_ledger` over the rows [`IdpStanding`]: there `start`, `reopen`, `commit` and
//! `compact` are said once, over the values `idp_rules`, `idp_row_rules` and `idp_links` of this crate. Which payloads are
//! records of a ledger is said in `specs/Record.antt`; for what rows records stand, and what is looked up in these, is said
//! below, in `idp_rows`. A record is drafted first, which takes all the memory that it needs and is refused by name
//! ([`DraftFault`]); to commit it takes none, and only the disk can refuse it ([`Failed`]). After that the ledger is
//! broken, and is opened again by `reopen`.
//!
//! # What is proved
//!
//! That the records of an identity provider keep what `record_ledger` asks of each kind of records, so all that is proved
//! there holds of `IdpLedger::start`, `reopen`, `commit` and `compact`; drafts of a pending login, a login, an issue in a
//! session, an answer without an assertion, a logout and its answers, a round of logouts that asks one provider after the
//! other and each answer to it (`Drafts`, `DraftsSome`); `pending`, `session` and `turn` find what is visible, unused, not
//! ended and not done; `parts` are the providers to which assertions were issued in sessions, `ending` the sessions that a
//! logout would end.
//! Laws: what an image stands for are records of a ledger, and so is what is kept of them; from the moment of a
//! compaction on it changes no answer; each Issued names a login that was pending and unused, or lies in a session that
//! was not ended (`each_issue_has_its_cause`); each row of a round is that of a record that began it, with the answers that
//! came later (`each_round_has_its_record`), and what it counts says whether all providers confirmed
//! (`rounds_are_counted`); the answers of a round are to its requests, in order, and a request more follows one exactly
//! where a turn is left, so no turn is asked twice (`rounds_ask_in_turn`). A session that ends behind each moment at
//! which a run compacts the ledger has a row to the end of the run, open or ended as it was left
//! (`laws::sessions_stay`).
#![tactic(auto)]

mod ask;
mod checks;
mod draft;
mod drafting;
mod drafts;
mod ids;
pub mod laws;
mod ledger;
mod logins;
mod naming;
mod rounds;
mod rules;
mod standing;

pub use ask::Ask;
pub use draft::{Draft, first_id, is_partial, issued, peer, second_id};
pub use drafts::{draft_confirm, draft_end, draft_leave, draft_pending, draft_speak, ending};
pub use gate_journal::{Disk, Failed, FileNo, Header, OpenFault};
pub use idp_rows::{IdpKey, IssuedRow, LeftRow, Noted, PendingRow, SessionRow};
pub use ledger::{IdpLedger, pending, rows, session};
pub use ledger_rules::DraftFault;
pub use logins::{SESSION_LIFE, draft_issue, draft_login};
pub use record_ledger::MOST_ROWS;
pub use round_rows::RoundRow;
pub use rounds::{draft_round, draft_told, parts, turn};
pub use standing::IdpStanding;
