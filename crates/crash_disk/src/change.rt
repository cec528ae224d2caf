//! The calls that change a disk.

use crate::FileNo;
use owned_values::Blob;

/// A call that changes a disk.
#[derive(Debug, Drop)]
pub enum Change {
    /// Bytes are put at a place of a file: over what is there, and past its end.
    Write(FileNo, u64, Blob),
    /// A file is cut to a length.
    Cut(FileNo, u64),
    /// What was changed in a file is to outlast a crash.
    Sync(FileNo),
}

/// A changing call that a disk in memory took, and how it ended.
#[derive(Debug, Drop)]
pub struct Taken {
    /// The call.
    pub change: Change,
    /// None where it was done. Where the disk stopped in it, what that left: 0 the contents of the last syncs, 1 all
    /// changes, every other number all changes with the byte 0x01 at every place that was not synced.
    pub stop: Option<u8>,
}
