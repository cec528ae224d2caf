//! What the calls of the table answer.
ghost use Rattle.std.specs.Prelude.{◌≡◌};
ghost use Rattle.http_wire.specs.Views.{reading_view};
ghost use Rattle.conn_table.specs.Answers.{progress_of};

use http_wire::Found;

/// What becomes of a connection that was started.
#[derive(Clone, Copy, Debug, PartialEq, Eq)]
pub enum Start {
    /// It is kept, and has brought nothing yet.
    Taken,
    /// It is not kept: as many are as there may be.
    TableFull,
    /// It is not kept, for want of memory.
    NoMemory,
}

/// What all bytes of a connection are once it has brought a piece.
#[derive(Clone, Copy, Debug, PartialEq, Eq)]
pub enum Progress {
    /// The beginning of a request.
    Waiting,
    /// A whole request, with bytes behind it or without.
    Ready,
    /// No request, whatever follows: the status says why.
    Refused(u16),
    /// The connection is not kept.
    Unknown,
    /// There was no memory for the piece: it was not taken, and the bytes are as before.
    NoMemory,
}

/// The answer where all bytes of the connection are this.
pub(crate) fn progress_of(found: Found<'_>) -> Progress
    ensures { result ≡ progress_of (reading_view found.entry) }
{
    match found {
        Found::Whole(_) => Progress::Ready,
        Found::More => Progress::Waiting,
        Found::Refused(status) => Progress::Refused(status),
    }
}
