//! The names of SAML: the namespaces of its messages, and the URIs that stand in them.
//!
//! `saml("Issuer")` is the name of the element Issuer of assertions, `ds("Signature")` that of a Signature. A contract
//! sees a name as the expanded name of `xml_spec` (`Views.antt`), and each URI as its bytes (`Names.antt`, `Uris.antt`).
//!
//! # What is proved
//!
//! The expanded names of SAML's elements (`saml`, `samlp`, `ds`, `md`); namespaces and URIs as constants that
//! definitions cite.
#![tactic(auto)]

mod name;
mod namespaces;
mod uris;

pub use name::{ExpandedName, ds, md, saml, samlp};
pub use namespaces::{DS, MD, SAML, SAMLP};
pub use uris::{BEARER, NO_PASSIVE, PARTIAL_LOGOUT, PASSWORD, POST, RESPONDER, SUCCESS};
