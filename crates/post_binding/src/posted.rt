//! What a form of the HTTP POST binding carries.

use owned_values::{Blob, Text};
use xml_spec::MAX_DOCUMENT_LENGTH;

/// The most bytes that a posted message may have: as many as a document that is read.
pub const MESSAGE_LIMIT: usize = MAX_DOCUMENT_LENGTH;

/// The most bytes that a RelayState may have (SAML Bindings 3.5.3).
pub const RELAY_LIMIT: usize = 80;

/// The field that a message is posted in (SAML Bindings 3.5.4): `SAMLRequest` or `SAMLResponse`.
#[derive(Clone, Copy, Debug, PartialEq, Eq)]
pub enum Field {
    /// `SAMLRequest`: the message asks.
    Request,
    /// `SAMLResponse`: the message answers.
    Response,
}

impl Field {
    ghost use Rattle.std.specs.Prelude.{◌≡◌};
    ghost use Rattle.post_binding.specs.Form.{field_name};

    /// The name of the field.
    pub fn name(self) -> &'static str
        ensures { result.now ≡ field_name self }
    {
        match self {
            Field::Request => "SAMLRequest",
            Field::Response => "SAMLResponse",
        }
    }
}

/// A message that was posted.
#[derive(Debug, Drop)]
pub struct Posted {
    /// The field that the message stood in.
    pub field: Field,
    /// The bytes of the message.
    pub message: Blob,
    /// The RelayState, where there was one. An empty one was there.
    pub relay: Option<Text>,
}
