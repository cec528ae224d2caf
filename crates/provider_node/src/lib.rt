//! One step of a provider that keeps a ledger, in the words that all providers share.
//!
//! ```
//! if let Err(fault) = ledger.reopen(disk) {
//!     return Answer::Fixed(code_of(fault));           // 50, 53 or 52
//! }
//! ```
//!
//! A provider of any role is one struct, [`ProviderNode`], over its ledger on a disk, which is a
//! [`RecordLedger`](record_ledger::RecordLedger). Its [`Role`] says for which rows the records of this stand, where a
//! request goes and what is replied to it ([`Replied`]), how a reply is drafted ([`DraftOutcome`]), and how it is
//! shown.
//!
//! What a provider answers to a request, and which record it adds with an answer, is a definition of its own
//! (`AnswersBy`). What comes of it is one definition, `Steps` of `specs/Step.antt`, by named cases: nothing is
//! recorded; a record is added; it is added after one compaction that made room; there is no room (code 51); the disk
//! failed (50); it holds no ledger (53); there was no memory (52). An answer that stands for a record is sent only
//! where the record is in every image that a crash may leave: its page is made before the record is written, so from
//! then on only the disk can refuse.
//!
//! In the same case a step says which changing calls it makes on its disk (`StepsOnDisk`; `specs/Calls.antt`): none
//! where nothing is recorded; those of the opening of a broken ledger, of one compaction that made room and of one
//! commit, in this order, all of them or, where the disk failed, a beginning. `StepLeaves` says what a crash inside may
//! leave: no more than one amid these calls. `specs/Node.antt` says the same of a restart and a compaction, and
//! `specs/Replies.antt` what a role says.
//!
//! `specs/Histories.antt` says what was acknowledged over a service, and how its ledger came from the one at the start,
//! with compactions at the moments of its requests alone; `specs/Lasting.antt` that it is kept since then, inside later
//! answers too; `specs/Staying.antt` what happened since a record was added, and that the session which it opened is
//! found as it was left, and so is each row; `specs/Added.antt` that what stands anew is of the request, and
//! `specs/Origins.antt` of which request each record is that stands behind starts; `specs/Changes.antt` what a request
//! may do to a ledger; `specs/Room.antt` where there is room for a record, at once or behind one compaction;
//! `specs/Recorded.antt` that the record of an answer is kept; `specs/Starving.antt` that nothing visible is lost where
//! there was no memory; `specs/Causes.antt` what the codes that a provider answers for itself stand for; and
//! `specs/Joining.antt` that a later start goes on from whatever a run left where a crash cut it, its process was
//! killed, or it ended. The laws of any role are in [`laws`].
//!
//! # What is proved
//!
//! A provider of any role, as a `Node` (`ProviderNode`): its step over its ledger stands once. A role says how a
//! request is replied to or with which verdict it is refused, how a reply is drafted and which page shows it
//! (`Role::reply`, `draft`, `page`), and for which rows its records stand (`Role::Rows`); what it answers to a request
//! and records with it is a parameter (`AnswersBy`), of which it says that a record draws only numbers that were not
//! drawn before (`Role::numbers_are_new`). `Steps` has a case for each thing that may come of a request: nothing is
//! recorded; a record is added; it is added after one compaction, which comes only where it had no place, and in a
//! ledger of records; there is no room (51); the disk failed (50); it holds no ledger (53); there was no memory (52).
//! In the same case it says which calls are made on the disk (`StepCalls`): none where nothing is recorded, those of
//! the opening of a ledger that had failed, of one compaction, of one commit, all or a beginning; `StepLeaves` is what
//! a crash inside may leave, amid these calls. A record that stands in an image that a crash may leave, and stood
//! nowhere before, is one that this request adds, whatever was answered, over the ledger that it finds or what the one
//! compaction makes of this (`laws::what_is_new_is_of_the_request`), and each record behind starts stood there at first
//! or is one that a request of theirs adds (`laws::each_record_has_its_request`); where there was no memory and the
//! ledger was not broken what was visible stays visible (`laws::what_is_visible_stays`); and each row of an
//! acknowledged record is as it was left, while it is visible at each moment of the runs (`laws::each_row_stays`),
//! behind a service and over starts (`laws::each_row_stays_over_starts`). Over them: what was acknowledged in a service
//! and how its ledger came from the one at the start (`specs/Histories.antt`), the worlds between requests
//! (`specs/Points.antt`), lists of starts with crashes between, each of which opens what one may have left
//! (`specs/Starts.antt`), and that runs which were stopped at any moment, or ended, join into one service, with the
//! moments of their requests (`specs/Joining.antt`). A compaction in a history is bound to a moment of the run. A page
//! is made before its record is written, and a second try comes only behind a compaction that ended; `start`, `restart`
//! and `compact` give what the disk stands for, or a fault by its cause. In a request that is not answered by 50 the
//! disk's count of faults stays as it was (`CountsAnswer`). The laws of each provider say these of its own answers;
//! `code_of` gives the code of a fault. Where no answer of a role is one of the codes that a provider answers for
//! itself, 50 is answered only where the disk's count of faults rose, 51 only where there was no place for a record, at
//! once and behind one compaction, and 53 only where the ledger was broken and, as far as the disk tells, this stands
//! for none (`laws::each_code_has_its_cause`).
#![tactic(auto)]

mod answering;
mod codes;
mod drafted;
pub mod laws;
mod provider;
mod replied;
mod role;
mod steps;

pub use codes::{DISK_FAULT, FOREIGN, FULL, NO_MEMORY, code_of};
pub use drafted::DraftOutcome;
pub use provider::ProviderNode;
pub use replied::Replied;
pub use role::Role;
