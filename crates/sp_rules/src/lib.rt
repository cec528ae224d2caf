//! Whether a posted form opens a session at a service provider (SAML Profiles, 4.1.4; SAML Bindings, 3.5).
//!
//! ```
//! match judge(alloc, &config, &rows, horizon, now, body) {
//!     Ok(accepted) => { /* open accepted.session, and lead the user to accepted.target */ }
//!     Err(Judged::Code(verdict)) => { /* show the verdict */ }
//!     Err(Judged::NoMemory) => { /* nothing was judged */ }
//! }
//! ```
//!
//! A form opens a session exactly where `Opens` of `Opening.antt` holds: it carries one successful Response with one
//! Assertion, signatures cover that Assertion, and its login is meant for this provider, in time, for an outstanding and
//! unused request with its RelayState. One number stands there for the element that is covered and the element that is
//! read. Every other form is refused with the verdict of the first condition that fails (`IsRefused` of `Verdict.antt`).
//! No form has two verdicts, and none opens two sessions ([`laws::a_form_has_one_verdict`]).
//!
//! What is shown of a login lies inside the Assertion, and [`Accepted`] says where. Want of memory may come in place of
//! any other answer.
//!
//! # What is proved
//!
//! `judge`: Ok exactly with a form that opens a session (`accepted`: `Opens`, by one number for the element that
//! signatures cover and the element that is read), with the session of its login, the target of its request, and the
//! ranges of the covered element, its Signature, the Assertion, the name and each value, which lie within the Assertion
//! and apart from the Signatures; else the verdict of the first condition that fails (`refused`: `IsRefused`). A form
//! that opens a session is refused for nothing, no form has two verdicts, and an accepted form opens one session, of
//! one login, for one row (`laws::a_form_has_one_verdict`), and it can't be that a form neither opens a session nor is
//! refused (`laws::each_form_is_judged`). A signature on the Response, on the Assertion or both, and a second key for a
//! time, are part of it.
#![tactic(auto)]

mod accepted;
mod config;
mod cover;
mod judging;
mod keys;
pub mod laws;
mod login;
mod reading;
mod shown;

pub use accepted::{Accepted, Spans};
pub use config::{FIRST, NextKey, SECOND, SESSION_LENGTH, SpConfig};
pub use fault_verdicts::Judged;
pub use judging::judge;
pub use keys::UsableKeys;
pub use login::consumer_address;
