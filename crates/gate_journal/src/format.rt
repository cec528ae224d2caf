//! The places and the bytes of a file of a journal, and how long it may be.

/// How many bytes a header has.
pub(crate) const HEAD: usize = 72;

/// The same as a place on a disk: where the first body begins.
pub(crate) const HEAD_LENGTH: u64 = HEAD as u64;

/// The first byte of a file that is committed.
pub(crate) const COMMITTED: u8 = 1;

/// The letters behind the first byte.
pub(crate) const LETTERS: [u8; 7] = *b"SAMLJNL";

/// Where the generation stands.
pub(crate) const GENERATION: usize = 8;

/// Where the version stands.
pub(crate) const VERSION: usize = 32;

/// Where the gate of the first record stands.
pub(crate) const GATE: usize = 70;

/// The same as a place on a disk.
pub(crate) const FIRST_GATE: u64 = GATE as u64;

/// The gate of a record.
pub(crate) const OPEN: u8 = 1;

/// The gate behind the last record.
pub(crate) const CLOSED: u8 = 0;

/// What a body has besides its payload: its length and the next gate.
pub const AROUND: u64 = 5;

/// The greatest length of a file, in bytes.
pub const LONGEST_FILE: usize = 134_217_728;

/// The same of a file of version 1.
pub(crate) const LONGEST_FILE_ONE: usize = 67_108_864;

/// The greatest length of a payload, in bytes.
pub const LONGEST_PAYLOAD: usize = 1_048_576;

/// The same in a file of version 1.
pub(crate) const LONGEST_PAYLOAD_ONE: usize = 524_288;
