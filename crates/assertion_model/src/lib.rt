//! Assertions that log a user in (SAML Core 2; SAML Profiles 4.1.4): what a login is, the element that is made of one, and
//! the login of an element that is vouched for.
//!
//! A contract sees a `Login` as its texts, moments and lists. `make_assertion` gives the element that `assertion` of
//! `Assertion.antt` says, with moments that are written in full. `read_login` gives the login that `login` of `Login.antt`
//! says of the content of the element without its own Signature, and `read_places` the numbers of the elements in which its name
//! and the values of its attributes stand (`Places.antt`). `laws` says which made assertions are read as they were made, and
//! where the places of a login lie.
//!
//! # What is proved
//!
//! `read_login`, of a `Vouched` alone: the login of the very element that is vouched for, without its own Signature,
//! exactly where it has one; else BadAssertion (`read`, `bad`). What a login is, is a function of the content of one
//! element and of nothing else (`login`); its worked examples are theorems, with examples of conditions that fail. The
//! Signature that is left out is the one that vouches (`laws::the_signature_left_out_vouches`). `make_assertion` gives
//! exactly the element of a login, without a signature, its moments told in full (`IsAssertionOf`). A moment is
//! computed from a text exactly where the text tells it (`laws::a_computed_moment_is_told`,
//! `a_told_moment_is_computed`). The texts of a login that is read of a document are of characters that a document may
//! hold (`laws::the_texts_of_a_login_are_texts`). The login of a made assertion is the one that it was made of, as it
//! was made, written and read again, and signed, written and read again, where its ID and its request are not empty,
//! its issuer and audiences have no white space at their ends and each of its lists of audiences has one
//! (`laws::a_made_assertion_is_read`, by `CanBeRead`, of an assertion that is the root where it is read): a login with
//! an empty list of audiences is written, and is none when it is read. `read_places` gives the numbers of the NameID
//! and of the AttributeValues; their texts are the name and the values of the login
//! (`laws::a_login_is_read_at_its_places`), and they lie in the element, apart from the Signature that vouches and from
//! the element's own (`laws::places_lie_in_the_element`, `places_are_apart_from_the_signature`).
#![tactic(auto)]

mod audiences;
mod conditions;
mod fault;
pub mod laws;
mod login;
mod look;
mod make;
mod moments;
mod parts;
mod pieces;
mod places;
mod read;
mod statements;
mod subject;
mod values;

pub use audiences::Audiences;
pub use fault::LoginFault;
pub use login::Login;
pub use make::make_assertion;
pub use places::{Places, read_places};
pub use read::read_login;
