//! Forms and pages of the HTTP POST binding (SAML Bindings 3.5).
//!
//! ```
//! let body = post_body(alloc, Field::Response, message, Some("token"))?;
//! let posted = read_form(alloc, body.as_slice())?;
//! let page = login_page(alloc, "pending")?;
//! ```
//!
//! [`read_form`] gives what the definition `form` gives over the pairs of `form_urlencoded`: the field, the message and the
//! relay, or the first fault of [`FormFault`]. Names are decoded before they are compared. What [`post_body`] makes is read
//! as what it was made of, within the limits that are named below ([`laws::what_is_posted_is_read`]).
//!
//! A page is the program's own markup around texts that are escaped ([`Page`]). So no text that a user or a peer gives
//! ends the element or the attribute that it stands in ([`laws::pages_have_their_own_markup`]), and the references in it
//! are read again as the text ([`laws::an_escaped_text_is_read_again`]); a browser besides changes CR, LF and NUL.
//!
//! Contracts see a body and a page as their bytes. `NoMemory` may come in place of any other answer, and then what a call
//! was lent is as before.
//!
//! # What is proved
//!
//! `read_form` is exactly the definition over the pairs of `form_urlencoded`: field, message and relay, or the first of
//! BadForm, BadBase64, TooLarge; `read_fields`; `post_body`, `auto_form`, `login_page`, `end_page`, `user_page` and
//! `escape_html` give exactly the texts of the definitions. What is posted is read, where the message has at most
//! 262,144 bytes and the relay at most 80 and no U+FFFD (`laws::what_is_posted_is_read`); an escaped text holds no
//! markup, its references are read again as the text (a browser besides changes CR, LF and NUL, of which no clause
//! speaks), and the tags and quotation marks of a page are its own (`laws::an_escaped_text_holds_no_markup`,
//! `an_escaped_text_is_read_again`, `pages_have_their_own_markup`).
#![tactic(auto)]

mod escape;
mod fault;
pub mod laws;
mod page;
mod pages;
mod posted;
mod reading;
mod text;
mod writing;

pub use escape::escape_html;
pub use fault::FormFault;
pub use page::Page;
pub use pages::{auto_form, end_page, login_page, user_page};
pub use posted::{Field, MESSAGE_LIMIT, Posted, RELAY_LIMIT};
pub use reading::{read_fields, read_form};
pub use writing::post_body;
