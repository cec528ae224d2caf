//! The keys by which rows are found.

/// The keys by which the rows of a list are sorted.
#[derive(Clone, Copy, Debug, PartialEq, Eq)]
pub enum IdpKey {
    /// The ID of a pending row.
    PendingId,
    /// The cookie of a session.
    SessionCookie,
}
