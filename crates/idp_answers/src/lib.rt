//! The answers of an identity provider, beside refusals: whole answers of HTTP/1.1 as bytes.
//!
//! ```
//! let answer = login_answer(alloc, "_p1")?;                    // the page where a user logs in
//! let answer = issued_answer(                                  // a form with the Response, and the cookie of the session
//!     alloc, mode, key, &login, "_m1", consumer, Some(relay), Some("_c1"), now,
//! )?;
//! let answer = metadata_answer(alloc, entity, base)?;          // the metadata of the provider
//! ```
//!
//! Contracts see an answer as its bytes, which `specs/Answers.antt` defines. Each call takes memory and refuses for want of
//! it alone.
//!
//! # What is proved
//!
//! `login_answer`, `issued_answer`, `no_passive_answer` and `metadata_answer` are the bytes of their definitions; the
//! Response for a login is signed by its mode, the Assertion first. What a mode signs is vouched for where it is read
//! again with an ID and no more bytes than a document may have (`laws::a_signed_response_is_vouched_for`,
//! `laws::a_signed_assertion_is_vouched_for`); in each mode the login that is read of the sent Response is the one that was
//! issued, where it can be read (`laws::an_issued_login_is_read`), the Response is read as a success with that Assertion
//! where its ID has 1 to 256 bytes (`laws::a_sent_response_is_read`), and what a mode does not sign has no Signature
//! (`laws::what_is_not_signed_has_no_signature`). `stated_login` is the login of what is stated of
//! a user to a peer, and there is an answer to each that may be stated (`laws::each_login_has_an_answer`); of a Response
//! nothing is signed but what its mode says (`laws::a_response_is_signed_by_its_mode`);
//! `plain_metadata_answer` is the metadata of a provider without logout, in either role.
#![tactic(auto)]

mod issuing;
pub mod laws;
mod sending;
mod showing;
mod stating;

pub use issuing::{issued_answer, no_passive_answer};
pub use showing::{login_answer, metadata_answer, plain_metadata_answer};
pub use stating::{Statement, just, stated_login};
