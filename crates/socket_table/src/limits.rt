//! How many connections there may be, and how long each may take.

/// How many connections may be asking before one that is silent makes room for the next.
pub const MOST_ASKING: usize = 64;

/// How many connections there may be in all, with those that are closed and not yet done.
pub const MOST_SEATS: usize = 256;

/// How long, in milliseconds, a connection may take to ask, and an answer to be taken.
pub const LONGEST: u64 = 30_000;

/// How long, in milliseconds, what still comes is read and dropped once all was sent.
pub const LINGER: u64 = 1_000;

/// How long, in milliseconds, a connection has to be silent until it may be ended for another one; and how long one
/// that is silent waits to be started while as many are asking as may be.
pub const SILENCE: u64 = 1_000;
