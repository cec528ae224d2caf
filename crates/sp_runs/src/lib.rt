//! A service provider runs: it is set up by its config, opens its ledger, listens, and serves.
//!
//! ```
//! match run::<ServiceProvider, _, _, _, _>(alloc, &mut files, "sp.conf", &mut link, &mut disk, &mut clock, 1_000_000)? {
//!     Ended::Served(served) => { /* served.events were taken; served.stopped says whether the link gave Stop */ }
//!     Ended::BadFile { file, line } => { /* this file, or its line, can't be used */ }
//!     Ended::Foreign { file, place } => { /* what this file of the disk holds at this place is no ledger */ }
//! }
//! ```
//!
//! A contract sees how a run goes as one of five cases (`Runs` of `specs/Providers.antt` of `provider_run`): a file
//! can't be used; the provider was not set up; its ledger was not opened; the link did not listen; it served. Of
//! serving it says what `serve_loop` says of a list of turns, with the provider's own steps.
//!
//! A crash at any moment of a run leaves of a disk that tells what one inside the opening may leave, or what one inside
//! an answer may. No image that stands for a ledger has two sessions of one request ([`laws`]).
//!
//! # What is proved
//!
//! [`run`] over [`ServiceProvider`]: a run of a service provider goes by one of five cases (`Runs`): a file can't be
//! used; it was not set up; what the disk holds is no ledger (exactly the fault of its image), or the disk failed; the
//! link does not listen; it served, as `serve_loop` says, with the provider's own steps. The run carries the headline
//! (`runs`, by `Headline`): each request that the provider was asked opens a session exactly where the posted form
//! opens one, of a login that was signed if no HMAC is forged and no hash collides, and closes sessions exactly where
//! their users leave them or the identity provider ends them, where no registry has ended, there is room, at once or
//! behind one compaction, the disk does not fail and memory is found, and was answered once its record was durable; and
//! where the disk tells, what was acknowledged is kept, no two sessions are of one request, and a session that is
//! closed is live at no later request; and each image that a crash might leave since a point of the run, also inside
//! later requests, has in its history the records for which the answers up to that point stand (`AreKeptSince`). At any
//! moment a crash leaves what one inside the opening or inside an answer may (`runs`). Each fault comes only where its
//! count rose; where a provider can be run and nothing failed it served, or memory ran out (`complete`). Laws: no image
//! that stands for a ledger has two sessions of one request (`no_image_has_a_request_twice`); what a run acknowledged
//! is in the history of every ledger that a crash may leave behind it, and no two sessions are of one request
//! (`what_a_run_acknowledged_is_kept_once`), and over restarts as well, since a run that served is a start
//! (`a_run_is_a_start`); if only the identity provider makes HMACs that match and no hash collides, each session that
//! is given is that of a login which it signed (`each_session_was_signed`); a registry tells the provider at each
//! request, and from its end on nothing is asked or recorded (`a_registry_tells_and_ends`); a session that lives over
//! the ledger that a step found is shown by the policy, the path and its own row alone
//! (`a_session_is_shown_by_its_row`); from each disk that a run leaves where a crash cuts it, its process is killed, or
//! it ends, a later start goes on, for each moment at which it may have been left, as behind that run cut there
//! (`each_disk_of_a_run_goes_on`). What the laws say of policies, registries and guards is part of the headline, and so
//! is that a session is found as it was left. 50, 51 and 53 are answered for their causes alone (`AnswersForACause`).
#![tactic(auto)]

pub mod laws;
mod provider;

pub use provider::ServiceProvider;
pub use provider_run::{Ended, RunFault, run};
