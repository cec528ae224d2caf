//! The answers of a service provider, beside refusals: whole answers of HTTP/1.1 as bytes.
//!
//! ```
//! let answer = ask_answer(alloc, &config, "_r1", "_s1", now)?;      // a form that asks the identity provider for a login
//! let answer = opened_answer(alloc, "/app", "_t1")?;                // 303, with the cookie of the session
//! let answer = user_answer(alloc, &name, &attributes)?;             // who is logged in
//! ```
//!
//! Contracts see an answer as its bytes, which `specs/Answers.antt` defines. Each call takes memory and refuses for want of
//! it alone.
//!
//! # What is proved
//!
//! `ask_answer` (a form with a signed AuthnRequest), `user_answer`, `denied_answer`, `opened_answer` and
//! `metadata_answer` are the bytes of their definitions. Whether a form opens a session, what is accepted of it, and
//! the verdict with which it is refused depend on no more of the rows than which request was asked, whether it is
//! spent, and whether an assertion was seen (`laws::like_rows_are_judged_alike`), and the session of each accepted form
//! can be recorded (`laws::what_is_accepted_can_be_recorded`).
#![tactic(auto)]

mod asking;
pub mod laws;
mod showing;

pub use asking::ask_answer;
pub use showing::{denied_answer, metadata_answer, opened_answer, user_answer};
