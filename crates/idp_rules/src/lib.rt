//! Whether a posted form asks an identity provider for a login (SAML Profiles, 4.1.4.1; SAML Bindings, 3.5).
//!
//! ```
//! match judge_request(alloc, peers.as_slice(), "https://idp.example.org/sso", body) {
//!     Ok(asked) => { /* answer asked.request, of the peer at asked.peer, at asked.consumer */ }
//!     Err(Judged::Code(verdict)) => { /* show the verdict */ }
//!     Err(Judged::NoMemory) => { /* nothing was judged */ }
//! }
//! ```
//!
//! A form asks for a login exactly where `Asks` of `Asking.antt` holds: it carries an AuthnRequest of a known peer, which was
//! sent to this address and wants its Response where the peer's metadata has it; where the message has a Signature, this
//! vouches for it with the peer's key. Every other form is refused with the verdict of the first condition that fails
//! (`IsRefused` of `Verdict.antt`). No form has two verdicts ([`laws::a_request_has_one_verdict`]).
//!
//! # What is proved
//!
//! `judge_request`: Ok exactly with what a form asks for that carries an AuthnRequest of a known peer, sent to this
//! address, which wants its Response where the peer's metadata has it and for which its Signature vouches where it has
//! one (`accepted`: `IsAsked`); else the verdict of the first condition that fails (`refused`: `IsRefused`). A form
//! asks for one thing alone, and has one verdict (`laws::a_request_has_one_verdict`), and it can't be that it is
//! neither accepted nor refused (`laws::each_request_is_judged`); the ID of a request and the address of its Response
//! are texts that a document may hold, where those of the peers are (`laws::the_texts_of_a_request_are_texts`). What an
//! identity provider is set up with, and when it can be started (`IsUsable`).
#![tactic(auto)]

mod asked;
mod config;
mod judging;
pub mod laws;

pub use asked::Asked;
pub use config::{IdpConfig, sign_on_address};
pub use judging::judge_request;
