//! Signed elements: which elements of a document a signature vouches for (SAML Core 5.4, XML Signature).
//!
//! # What is proved
//!
//! `verify`: Ok exactly where a signature vouches for the element under the key, by form, reference, tag and digest;
//! else the first of the four that fails. `verify_first` is the same for a Signature in front. A `Vouched` is made by
//! these and by `within` alone, and says that its Signature vouches, under some key, for an element that it is or lies
//! in, outside of the Signature (`Vouched::at`, `Vouched::signature`). An element has one signature at most, behind the
//! Issuer or in front (`laws::a_signature_is_one`). `sign` gives exactly the element with its Signature as the second child; read again with
//! an ID and no more bytes than a document may have, it is vouched for with the same key, and without the Signature it
//! says what was signed (`laws::what_is_signed_is_vouched_for`), also inside other elements, as deep as may be
//! (`laws::what_is_signed_inside_is_vouched_for`, `what_is_put_inside_says_the_same`).
#![tactic(auto)]

mod encoded;
mod fault;
mod form;
pub mod laws;
mod limits;
mod methods;
mod signing;
mod uris;
mod validation;
mod vouched;
mod words;

pub use fault::SigFault;
pub use limits::MAX_CHECKED_FORM_LENGTH;
pub use signing::sign;
pub use validation::{verify, verify_first};
pub use vouched::{Vouched, within};
