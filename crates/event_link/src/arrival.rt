//! What comes to a link.

use owned_values::Blob;

/// What comes to a link, with the bytes of a piece. Connections have numbers.
#[derive(Debug, Drop)]
pub enum Arrival {
    /// A connection starts.
    Start(u32),
    /// Bytes of a connection.
    Bytes(u32, Blob),
    /// A connection ends.
    End(u32),
    /// A call to stop, though more may come.
    Halt,
}
