//! A hub runs: it is set up by its config, opens its ledger, listens, and serves.
//!
//! ```
//! match run::<Hub, _, _, _, _>(alloc, &mut files, "hub.conf", &mut link, &mut disk, &mut clock, 1_000_000)? {
//!     Ended::Served(served) => { /* served.events were taken; served.stopped says whether the link gave Stop */ }
//!     Ended::BadFile { file, line } => { /* this file, or its line, can't be used */ }
//!     Ended::Foreign { file, place } => { /* what this file of the disk holds at this place is no ledger */ }
//! }
//! ```
//!
//! A contract sees how a run goes as one of the five cases of `provider_run` (`Runs` of its `specs/Providers.antt`),
//! with the hub's own setup, ledger and steps. It carries the headline ([`laws`]): a login from above is passed on
//! exactly where a posted form brings it for a request of a provider below that is known; each signed element is one of
//! a record, and no form is sent before its record is durable; no request upwards backs two logins; and each session
//! below is of a record that the hub had at the start, or of a login that it passed on, which the provider above
//! recorded, where nobody else makes HMACs that match in the form of that request and no hash collides there. A crash
//! at any moment of a run leaves of a disk that tells what one inside the opening may leave, or what one inside an
//! answer may.
//!
//! # What is proved
//!
//! [`run`] over [`Hub`]: a run of a hub goes by the five cases, with its own setup, ledger and steps, and carries its
//! headline (`runs`, by `Runs` and `Headline`): at each request, all of them served by what the hub was set up with, a
//! login is passed on only where the posted form brings it over the hub's rows, for the request of a provider below
//! that is known, with the name and the attributes of the login from above and to that provider alone, and wherever a
//! form brings one, where there is room, at once or behind one compaction, the disk does not fail and memory is found,
//! and a request is sent upwards only where such a provider asked by a form, with its address, ID and relay state
//! (`PassesOnExactly`); each signed element is one that its record stands for, a page without a record is the metadata,
//! and the record is durable before the answer is sent (`SignsOnlyItsRecords`); nobody above is asked where the user
//! may not be asked (`AsksNobodyAbove`), and of what is asked IsPassive and ForceAuthn are read as false (a law,
//! `laws::each_request_leaves_it_to_the_one_above`); where the disk tells, what was acknowledged is kept, no request
//! upwards backs two logins, neither in the history of an image nor of those that were acknowledged or stood at the
//! start (`AreKeptOnce`), and each image that a crash might leave since a point of the run, also inside later requests,
//! has in its history the records for which the answers up to that point stand (`AreKeptSince`); each login goes back
//! to the request below for which one was sent upwards (`EachLoginInAnImageHasItsRequest`). Where only the provider
//! above makes HMACs that match and no hash collides, each login that is passed on is one that it signed, and where it
//! is an identity provider one that it recorded for the hub (`IsOfALoginFromAbove`), and over both hops, where nobody
//! but the hub makes HMACs that match for those below, each session that a provider below opens is of a record that the
//! hub had at the start, or of a login that it passed on at one of its requests, which came from above so, whatever
//! else was posted to the hub (`SessionsBelowAreOfLoginsAbove`). Over all starts of a hub it holds of each request,
//! also of one that a crash cut, of each record, which stood there at first or is one that a request adds, of what is
//! kept, once, and of the sessions below (`laws::the_headline_holds_over_starts`): a run that served is a start
//! (`laws::a_run_is_a_start`), and from each disk that a run leaves where a crash cuts it, its process is killed, or it
//! ends, a later start goes on (`laws::each_disk_of_a_run_goes_on`). Each fault comes only where its count rose; where
//! a hub can be run and nothing failed it served, or memory ran out (`complete`). 50, 51 and 53 are answered for their
//! causes alone (`AnswersForACause`).
#![tactic(auto)]

pub mod laws;
mod provider;

pub use provider::Hub;
pub use provider_run::{Ended, RunFault, run};
