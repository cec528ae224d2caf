//! Protocol messages: authentication requests, responses, and requests and responses of a logout (SAML Core, 3).
//!
//! ```
//! let request = read_authn(alloc, At { doc: &doc, node: doc.root() })?;
//! let answer = make_response(alloc, "_m1", "urn:example:idp", consumer, request.id.as_str(), now, Some(assertion))?;
//! ```
//!
//! A reader gives the message exactly where the element has its shape (`Messages.antt`), else `WrongShape`. A maker gives
//! the element of `Making.antt`, without a Signature. What is made, written and read again is the message that was made,
//! under the premises that are named below (`laws`). Want of memory is the only other refusal.
//!
//! # What is proved
//!
//! `read_authn`, `read_response`, `read_logout_request`, `read_logout_response`: the message exactly where the element
//! has its shape, else WrongShape. An element is one message of one kind at most (`laws::an_element_is_one_message`).
//! `make_authn`, `make_response`, `make_logout_request`, `make_logout_response` give exactly the elements of the
//! definitions, without a signature. What is made, written and read again is the message that was made, where its ID
//! has 1 to 256 bytes and what a Response carries is an Assertion or nothing, and but for white space at the ends of
//! its issuer, which is lost (`laws::a_made_authn_request_is_read`, `a_made_response_is_read`,
//! `a_made_logout_request_is_read`, `a_made_logout_response_is_read`).
#![tactic(auto)]

mod authn;
pub mod laws;
mod logout;
mod make;
mod parts;
mod response;

pub use authn::{AuthnRequest, read_authn};
pub use logout::{
    LogoutRequest, LogoutResponse, Outcome, read_logout_request, read_logout_response,
};
pub use make::{make_authn, make_logout_request, make_logout_response, make_response};
pub use response::{ResponseHead, read_response};
pub use tree_read::ShapeFault;
