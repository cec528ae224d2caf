//! Which file, and that a call failed.

/// Which of a disk's two files.
#[derive(Clone, Copy, Debug, PartialEq, Eq)]
pub enum FileNo {
    /// The first file.
    Zero,
    /// The second file.
    One,
}

/// A call of a disk failed, and its count of faults rose.
#[derive(Clone, Copy, Debug, PartialEq, Eq)]
pub struct Failed;
