// What a user agent sends, keeps and sees.

use crate::site::Site;
use owned_values::{Blob, Text};
use post_binding::Field;

/// A request to a node.
#[derive(Debug, Drop)]
pub struct Outgoing {
    /// The node that it goes to.
    pub site: Site,
    /// All bytes of the request.
    pub bytes: Blob,
}

/// The form of a page that submits itself (SAML Bindings 3.5.4).
#[derive(Debug, Drop)]
pub struct AutoForm {
    /// Where it is posted.
    pub url: Text,
    /// The field that holds the message.
    pub field: Field,
    /// The message itself, no longer in base64.
    pub message: Blob,
    /// The RelayState, where there is one.
    pub relay: Option<Text>,
}

/// A login page that was seen: the node that sent it, and the ID of its pending login.
#[derive(Debug, Drop)]
pub struct LoginPage {
    /// The node that sent it.
    pub site: Site,
    /// The ID of the pending login.
    pub pending: Text,
}

/// A Location that was seen, and the node that sent it.
#[derive(Debug, Drop)]
pub struct Location {
    /// The node that sent it.
    pub site: Site,
    /// The path of the URL, as the node gave it.
    pub path: Text,
}

/// The page that a body is.
#[derive(Debug, Drop)]
pub enum Page {
    /// A page that posts this form as soon as it is shown.
    Form(AutoForm),
    /// The login page of this pending login.
    Login(Text),
    /// The page that says how a logout ended.
    End,
    /// The page of the verdict of this number.
    Code(u16),
    /// The page of the answer's own status.
    Status,
    /// The page of a user, or any other body.
    Other,
}

/// What an answer shows.
#[derive(Clone, Copy, Debug, PartialEq, Eq)]
pub enum What {
    /// A page that posts a message in this field as soon as it is shown.
    Form(Field),
    /// The page that asks for a name and a password.
    Login,
    /// The page of a user, or any other body.
    Page,
    /// The page that says how a logout ended.
    End,
    /// The status is 303: the user agent is sent on.
    Moved,
    /// The page of the verdict of this number.
    Code(u16),
    /// The page of the status itself.
    Status,
}

/// An answer as a user agent sees it.
#[derive(Clone, Copy, Debug, PartialEq, Eq)]
pub struct Seen {
    /// The status; 0 where the bytes are no answer.
    pub status: u16,
    /// What the body is, beside the status.
    pub what: What,
}
