//! The pages that serving sends of its own.

/// The status where as many connections are kept as there may be.
pub(crate) const TABLE_FULL: u16 = 503;

/// The number of the verdict where there is no memory.
pub(crate) const NO_MEMORY: u16 = 52;
