// The limits of files and words.
use gate_journal::LONGEST_FILE;
use http_wire::BODY_LIMIT;

/// The greatest length of a posted body, in bytes.
pub(crate) const GREATEST_BODY: u64 = BODY_LIMIT as u64;

/// The greatest length of a file of a journal, in bytes.
pub(crate) const GREATEST_JOURNAL: u64 = LONGEST_FILE as u64;

/// The most events that a command may be told to take.
pub(crate) const MOST_EVENTS: u64 = 1_000_000_000_000_000_000;

/// The greatest number from which a schedule may be made.
pub(crate) const MOST_START: u64 = 2_147_483_647;
