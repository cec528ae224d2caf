//! Requests and answers of HTTP/1.1, as bytes (RFC 9110, 9112 and 6265).
//!
//! ```
//! let mut awaited = Awaited::new(); // for each connection
//! match awaited.look(&brought) {
//!     Found::Whole(request) => answer(&request),
//!     Found::More => { /* look again when `awaited.wanted()` bytes are there */ }
//!     Found::Refused(status) => {
//!         let length = put_fixed(status, &mut out);
//!         send(&out[..length]);
//!     }
//! }
//! ```
//!
//! [`request_of`] and [`Awaited::look`] give what the definition `Reads` says of all the bytes that a connection has brought:
//! a whole request, the beginning of one, or no request, and then the status that says why:
//!
//! | Status | Where |
//! |---|---|
//! | 400 | the head is no request head of `httparse`, has more than [`LINE_LIMIT`] lines or a target that is not visible ASCII, ends behind [`HEAD_LIMIT`] bytes, or its Content-Length stands twice or is not of 1 to 10 digits |
//! | 501 | there is a Transfer-Encoding |
//! | 411 | a POST has no Content-Length |
//! | 413 | the body is longer than [`BODY_LIMIT`] bytes |
//!
//! How the bytes were cut on their way changes nothing, and no bytes behind a whole request or a refusal change it
//! ([`laws`]). [`Awaited`] keeps how far a connection was searched, and what was read of its head as places in its bytes: a head
//! is searched once, also where it comes byte by byte, and read once, when it has come. A body costs no look at its head, nor
//! does [`Awaited::request`].
//!
//! [`cookie_of`] and [`is_form_type`] read two of the fields. [`full_answer`] makes an answer around a body, and
//! [`put_fixed`] writes the one that names a verdict or a status; both write the text that `answer` says, which a
//! client reads as the same status, fields and body ([`laws::an_answer_is_read_again`]). [`vouched_answer`] tells a
//! proxy who a request comes from, in two lines that hold no byte outside 0x20 to 0x7E
//! ([`laws::a_vouched_answer_is_read_again`]). `full_answer` and `vouched_answer` take memory; there `NoMemory` may
//! come in place of the answer.
//!
//! # What is proved
//!
//! `request_of` and `Awaited::look`: what the bytes of a connection are, a whole request with its parts, the beginning
//! of one, or no request with a status, in the order of the definition over `httparse`'s grammar of a head; bytes have
//! one reading, how they were cut changes nothing, bytes behind a whole request or a refusal change nothing, and the
//! first of some bytes are More or the same (`laws`). `Awaited::request`: the same whole request, of what was kept of its
//! head. `cookie_of`, `is_form_type`, `phrase`, `full_answer` and `put_fixed` are
//! exact; a client reads an answer as its status, fields and body (`laws::an_answer_is_read_again`), and has one status
//! (`laws::an_answer_has_one_status`). `vouched_answer` is the answer that names a user: whatever name and values hold,
//! a client reads just the two lines that do, no byte of which is outside 0x20 to 0x7E, and reads name and values back
//! from them (`laws::a_vouched_answer_is_read_again`).
#![tactic(auto)]

mod answer;
mod cookie;
mod cut;
mod fixed;
mod head;
pub mod laws;
mod limits;
mod lines;
mod media;
mod method;
mod request;
mod status;
mod vouched;

pub use answer::{Answer, full_answer, phrase};
pub use cookie::cookie_of;
pub use fixed::{FIXED_ROOM, put_fixed};
pub use limits::{BODY_LIMIT, HEAD_LIMIT, LINE_LIMIT};
pub use media::is_form_type;
pub use method::Method;
pub use request::{Awaited, Found, HttpRequest, request_of};
pub use vouched::vouched_answer;
