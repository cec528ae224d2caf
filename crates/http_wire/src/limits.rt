//! How much of a request is taken.

/// The greatest length of a head, in bytes: the empty line that ends it lies in the first so many bytes.
pub const HEAD_LIMIT: usize = 16_384;

/// The greatest number of field lines in a head.
pub const LINE_LIMIT: usize = 64;

/// The greatest length of a body, in bytes.
pub const BODY_LIMIT: usize = 1_048_576;

// The greatest number of digits that a Content-Length is written with.
pub(crate) const LENGTH_DIGITS: usize = 10;
