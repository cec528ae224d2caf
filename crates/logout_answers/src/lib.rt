//! The answers of a single logout, which both providers give: whole answers of HTTP/1.1 as bytes.
//!
//! ```
//! let answer = leaving_answer(alloc, &peer, "_m1", issuer, now, name, &indexes)?;      // a form with a LogoutRequest
//! let answer = ending_answer(alloc, &peer, "_m2", issuer, now, "_l1", false, None)?;   // a form with a LogoutResponse
//! let answer = end_answer(alloc, false)?;                                              // the page at the end
//! ```
//!
//! Contracts see an answer as its bytes, which `specs/Answers.antt` defines. Where the peer has no address for logout, the page at
//! the end is shown in place of a form. Each call takes memory and refuses for want of it alone: there is an answer to each logout
//! ([`laws::each_logout_has_an_answer`]).
//!
//! # What is proved
//!
//! `leaving_answer`, `ending_answer` and `end_answer` are the bytes of their definitions: a form that sends a
//! LogoutRequest or a LogoutResponse on to the peer's address, or the page at the end where it has none. There is an
//! answer to each user who leaves and to each peer that asks (`laws::each_logout_has_an_answer`). Which outcomes are
//! partial (`is_in_part`), and where messages of a logout are posted (`logout_address`).
#![tactic(auto)]

mod answers;
pub mod laws;

pub use answers::{end_answer, ending_answer, is_in_part, leaving_answer, logout_address};
