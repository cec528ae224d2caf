//! The header of a journal.

/// What a journal's header keeps beside its records.
#[derive(Clone, Copy, Debug, PartialEq, Eq)]
pub struct Header {
    /// Which making of the journal this is, from 1; 0 where none was made yet.
    pub generation: u64,
    /// A moment up to which records may have been left out.
    pub horizon: u64,
    /// The next number to be drawn, from 1.
    pub next: u64,
}
