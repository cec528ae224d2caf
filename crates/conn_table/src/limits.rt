//! How many connections are kept.

/// The greatest number of connections that are kept.
pub const CONNECTION_LIMIT: usize = 64;
