//! Rows of a hub.

use owned_values::Text;
use request_rows::AskedRow;

/// The request of a provider below, for which one was sent upwards.
#[derive(Debug, Drop)]
pub struct BelowRow {
    /// The entity that asked.
    pub peer: Text,
    /// The address to which the answer to it goes.
    pub consumer: Text,
    /// The ID of its request.
    pub request: Text,
    /// The relay state of its request, where it has one (SAML Bindings, 3.5.3).
    pub relay: Option<Text>,
}

/// A request upwards, and the one below for which it was sent.
#[derive(Clone, Copy, Debug)]
pub struct RoutedRow<'a> {
    /// The request upwards.
    pub asked: &'a AskedRow,
    /// The request below.
    pub below: &'a BelowRow,
}
