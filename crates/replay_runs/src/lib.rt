//! Schedules replayed over one deployment: a service provider and an identity provider that know each other, both on this
//! host, each with a disk in memory that is empty at first.
//!
//! ```
//! let tally = replay_deployed(alloc, &schedule, false, &mut out)?;
//! ```
//!
//! What the providers are set up with is a definition, `specs/Deployed.antt`; a run of theirs is one of `schedule_replay`
//! by the definitions of their own steps (`Goes` of `specs/Runs.antt`). No call of their disks fails, and none stops, but
//! by the schedule or for want of memory, which ends the run.
//!
//! # What is proved
//!
//! `replay_deployed`: both providers are set up by definition (`specs/Deployed.antt`) and started over empty disks in
//! memory, each of which took the calls of one opening and no other (`IsStarted`), and the schedule is replayed over
//! them by the definitions of their own steps (`Goes`), or there was no memory to start them. What the run does to
//! either is a list of starts from an empty ledger on, in which it was asked what the agents' bytes completed, and of
//! these the whole sentence holds that joins both providers (`Carries`): a session is opened exactly where a posted
//! form opens one; where nobody else makes HMACs that match and no hash collides, each is of a login that the identity
//! provider of this run recorded; no request opens two; and none that was closed at the service provider, or ended at
//! the identity provider, is live in what may be left of their disks.
#![tactic(auto)]

mod deployed;
mod running;

pub use running::replay_deployed;
