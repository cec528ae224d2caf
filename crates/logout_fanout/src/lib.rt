//! A logout that tells every service provider: whom an identity provider asks, and what comes of the answers (SAML Profiles,
//! 4.4.3.3 and 4.4.3.4).
//!
//! ```
//! let plan = make_plan(alloc, parts.as_slice(), Some("urn:example:sp1"), peers.as_slice())?;
//! let first = plan.turns.at(0);                                 // a LogoutRequest to this provider
//! let mut round = Round::at(plan.turns.len(), plan.skipped, 0, 0);
//! match round.told(true) {                                      // it confirmed
//!     Next::Ask(place) => ..                                    // a LogoutRequest to the one at this place
//!     Next::Done { partial } => ..                              // Success, or PartialLogout
//! }
//! ```
//!
//! A user's agent carries one message at a time, so the providers are asked one after the other. What a plan is says
//! `specs/Plan.antt`, and what follows an answer `specs/Round.antt`. That a round ends with Success exactly where each provider
//! confirmed and none was skipped is the law [`laws::a_round_succeeds_where_each_confirms`].
//!
//! [`make_plan`] refuses with `NoMemory` alone, and takes time n log n for n parts and few peers. [`Round`] takes no memory.
//!
//! # What is proved
//!
//! `make_plan`: of the providers that a session was passed to, in which order a logout asks them, with the indexes of
//! their sessions, each once, the one that asked left out, and whether some can't be asked (`Plan` of its definition);
//! only want of memory keeps it from that. `Round::told`: who is asked next behind an answer, or how the logout ended.
//! A logout ends with Success exactly where each that was to be asked confirmed and none was skipped, else with
//! PartialLogout (`laws::a_round_succeeds_where_each_confirms`), and asks each once, in order
//! (`laws::a_round_asks_in_order`).
#![tactic(auto)]

pub mod laws;
mod plan;
mod round;

pub use plan::{Plan, make_plan};
pub use round::{Next, Round};
