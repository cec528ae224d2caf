// The limits of key files.

/// The least length of a key of messages, in bytes.
pub const LEAST_KEY: usize = 16;

/// The greatest length of a key, in bytes.
pub const GREATEST_KEY: u64 = 4_096;

/// The length of the key from which a provider's IDs are made, in bytes.
pub const ID_KEY: usize = 32;
