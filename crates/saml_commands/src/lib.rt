//! The commands of `samld`: what its words ask for, what each of them answers, and [`run`].
//!
//! ```
//! let status = run(alloc, &words, &mut link, &mut disk, &mut clock, &mut files, &mut out);
//! ```
//!
//! `canon` prints the canonical form of an element, `vouch` whether a signature vouches for one, `check` the verdict on
//! a posted form at a moment, over the rows that its config names, `records` the records of a journal; `sp`, `idp` and
//! `hub` serve until their events are taken or the link gives Stop, and `replay` and `make` replay a schedule. What is
//! printed and the status are, but for want of memory, the definition's answer for the words and for what files, link,
//! disk and clock tell (`ends`), and where one of them failed, its count of faults rose in this run (`read_fault`,
//! `write_fault`, `disk_fault`, `link_fault`).
//!
//! # What is proved
//!
//! `run`, for all words and for any files, output, link, disk and clock that keep their traits' contracts: what is
//! printed and the status are the definition's answer for the bytes that the files tell, and with `sp`, `idp` and `hub`
//! for how the run went (`ends`: with a fault of reading, of the disk or of the link nothing is printed, with a fault
//! of writing and want of memory a part of the text); at any moment a crash leaves of a disk that tells what one inside
//! the opening of the ledger or inside an answer may leave (`ends`); status 4 to 7 come only where the count of that
//! fault rose (`read_fault`, `write_fault`, `disk_fault`, `link_fault`); where nothing failed and the definition says
//! yes, or a provider can be run or a schedule replayed, the run is done or memory ran out (`complete`,
//! `complete_serving`); only `sp`, `idp` and `hub` touch link, disk and clock (`untouched`); the files hold what they
//! held and no count falls. That is proved for `canon FILE`, `canon FILE ID`, `vouch FILE ID KEYFILE`, `check CONFIG
//! BODYFILE NOW`, `records ROLE`, `sp CONFIG EVENTS`, `idp CONFIG EVENTS`, `hub CONFIG EVENTS`, `replay SCHEDULE` and
//! `make N START`. What `replay` and `make` print is what the steps of the schedule come to by the definitions of both
//! providers' own steps (`Goes`). A run carries its headline (`ends`, by `Carries`): with `sp` each request opens a
//! session exactly where the posted form opens one, where no registry has ended, there is room, at once or behind one
//! compaction, the disk does not fail and memory is found, each of a login that was signed, if no HMAC is forged and
//! no hash collides, and, where the disk tells, no two of one request; with `idp` each Assertion is issued to a user
//! with a password or a session, and each signed element is one of a record that was durable before it was sent; with
//! `hub` a login from above is passed on exactly where a posted form brings it for a request of a provider below, with
//! its name and attributes and to that provider alone, where the disk tells no request upwards backs two, and each
//! session below is of a login that the provider above recorded, or of a record that the hub had at the start, where
//! nobody else makes HMACs that match and no hash collides; with any of them, where the disk tells, each image that a crash might leave since a point of
//! the service, also inside later requests, has in its history the records for which the answers up to that point
//! stand. With `replay` and `make` the whole sentence that joins both providers holds of what was replayed, restarts,
//! stops and failures of the disks and compactions included (`Carries` of replay_runs).
#![tactic(auto)]

mod answer;
mod canon;
mod check;
mod command;
mod limits;
mod printing;
mod records;
mod replay;
mod serve;
mod status;
mod top_call;
mod vouch;

pub use status::Status;
pub use top_call::run;
