//! The run of a provider: it is set up, its ledger is opened, it listens, and it serves.
//!
//! ```
//! match run::<P, _, _, _, _>(alloc, files, "sp.conf", link, disk, clock, 1_000_000)? {
//!     Ended::Served(served) => { /* served.events were taken; served.stopped says whether the link gave Stop */ }
//!     Ended::BadFile { file, line } => { /* this file, or its line, can't be used */ }
//!     Ended::Foreign { file, place } => { /* what this file of the disk holds at this place is no ledger */ }
//! }
//! ```
//!
//! What runs says by [`RunsProvider`] how its role is set up by a config, at which address it listens, and what its
//! headline is. A contract sees how a run goes as one of five cases (`RunsBy` of `specs/Runs.antt`, `Runs` of
//! `specs/Providers.antt`): a file can't be used; the provider was not set up; its ledger was not opened; the link did
//! not listen; it served.
//!
//! # What is proved
//!
//! The run of a provider of any role (`run`, over a type that implements `RunsProvider`: how its role is set up by a
//! config, at which address it listens, and what its headline is): it goes by one of five cases (`RunsBy`, `Runs`) and
//! carries the headline, a crash at any moment leaves what one inside the opening or inside an answer may leave, each
//! fault has its cause, and where the provider can be run and no fault keeps it from that it served, or there was no
//! memory (`complete`). What the headlines of all roles have in common stands in `specs/Headlines.antt`. What a run
//! comes to where serving ended (`ended_of`). Before the first event the link is told once to listen, at the address of
//! the role: it does, and at no other (`Begins`), or that call failed (`IsDeaf`).
#![tactic(auto)]

mod ended;
mod running;
mod runs_provider;

pub use ended::{Ended, RunFault, ended_of};
pub use running::run;
pub use runs_provider::RunsProvider;
