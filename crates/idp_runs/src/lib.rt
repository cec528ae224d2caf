//! An identity provider runs: it is set up by its config, opens its ledger, listens, and serves.
//!
//! ```
//! match run::<IdentityProvider, _, _, _, _>(alloc, &mut files, "idp.conf", &mut link, &mut disk, &mut clock, 1_000_000)? {
//!     Ended::Served(served) => { /* served.events were taken; served.stopped says whether the link gave Stop */ }
//!     Ended::BadFile { file, line } => { /* this file, or its line, can't be used */ }
//!     Ended::Foreign { file, place } => { /* what this file of the disk holds at this place is no ledger */ }
//! }
//! ```
//!
//! A contract sees how a run goes as one of the five cases of `provider_run` (`Runs` of its `specs/Providers.antt`),
//! with the provider's own setup, ledger and steps. It carries the headline ([`laws`]): each Assertion is issued to a
//! user with a password or a session, each signed element is one of a record, and no form is sent before its record is
//! durable. A session is ended exactly where its user leaves it or a peer asks for it, and never lives again. A crash
//! at any moment of a run leaves of a disk that tells what one inside the opening may leave, or what one inside an
//! answer may.
//!
//! # What is proved
//!
//! [`run`] over [`IdentityProvider`]: a run of an identity provider goes by the five cases, with its own setup, ledger
//! and steps, and carries its headline (`runs`, by `Runs` and `Headline`): at each request, all of them served by what
//! the provider was set up with, an Assertion is issued to a user with a password or a session alone, each signed
//! element is one that its record stands for, and the answer is of the record's kind, a user is asked for a password
//! only where a peer asked by a form, a page without a record is the metadata, the record is durable, and each session
//! that it ends is ended, before the answer is sent (`IssuesOnlyToUsers`, `EndsExactly`), and sessions are ended
//! exactly where their users leave them or a peer ends them, where there is room, at once or behind one compaction, the
//! disk does not fail and memory is found; and where the disk tells, what was acknowledged is kept, and a session that
//! was ended is live at no later request and behind the run; a logout that asks all others asks each in its turn and
//! once, and says Success exactly where each confirmed and none was skipped (`AsksInTurn`); and each image that a crash
//! might leave since a point of the run, also inside later requests, has in its history the records for which the
//! answers up to that point stand (`AreKeptSince`). A run that served is a start, over which the laws of starts go
//! (`laws::a_run_is_a_start`), and from each disk that a run leaves where a crash cuts it, its process is killed, or it
//! ends, a later start goes on (`laws::each_disk_of_a_run_goes_on`). Each fault comes only where its count rose; where
//! a provider can be run and nothing failed it served, or memory ran out (`complete`). 50, 51 and 53 are answered for
//! their causes alone (`AnswersForACause`).
#![tactic(auto)]

pub mod laws;
mod provider;

pub use provider::IdentityProvider;
pub use provider_run::{Ended, RunFault, run};
