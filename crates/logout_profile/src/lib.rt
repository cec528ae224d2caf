//! Single logout between providers (SAML Profiles, 4.4): what a posted form asks or replies, and the messages that are sent.
//!
//! ```
//! match judge_logout(alloc, peers.as_slice(), address, skew, now, body) {
//!     Ok(Logout::Ask { request, peer, relay }) => { /* end the sessions of request.name, and reply to that peer */ }
//!     Ok(Logout::Reply { response, peer }) => { /* the logout that response.request began is over */ }
//!     Err(Judged::Code(verdict)) => { /* show the verdict */ }
//!     Err(Judged::NoMemory) => { /* nothing was judged */ }
//! }
//! let reply = logout_response(alloc, peers.at(peer), "_m1", issuer, now, request.id.as_str(), false)?;
//! ```
//!
//! A form is obeyed exactly where `IsAccepted` of `Verdict.antt` holds: in the field that fits it there stands a LogoutRequest or a
//! LogoutResponse of a peer, that peer's key vouches for it, its Destination is this address, and it has not expired. Every other form
//! is refused with the verdict of the first condition that fails (`IsRefused`). No form has two verdicts
//! ([`laws::a_logout_form_has_one_verdict`]).
//!
//! What is made is signed with the peer's key as `Making.antt` says, and the peer's key vouches for it where it is read
//! with an ID ([`laws::what_is_made_is_vouched_for`]). Want of memory may come in place of any other answer.
//!
//! # What is proved
//!
//! `judge_logout` and `judge_logout_with` (a second key): what a posted form asks or replies of a logout, exactly where
//! it carries a LogoutRequest or a LogoutResponse in its field, of a peer whose key vouches for it, sent to this
//! address and in time (`accepted`: `IsAccepted`); else the verdict of the first condition that fails (`refused`:
//! `IsRefused`). A form has one verdict (`laws::a_logout_form_has_one_verdict`), and it can't be that it is neither
//! accepted nor refused (`laws::each_logout_form_is_judged`); what is obeyed is vouched for
//! (`laws::what_is_obeyed_is_vouched_for`), and a request that is obeyed has a text as its ID
//! (`laws::what_an_obeyed_form_says`). `logout_request` and `logout_response` are the signed messages of their definitions,
//! vouched for with that key where read again with an ID, no longer than a document (`laws::what_is_made_is_vouched_for`).
#![tactic(auto)]

mod judging;
pub mod laws;
mod logout;
mod making;
mod meant;
mod message;
mod vouching;

pub use fault_verdicts::Judged;
pub use judging::{judge_logout, judge_logout_with};
pub use logout::Logout;
pub use making::{logout_request, logout_response};
