//! How a request is replied to.

use http_wire::Answer;

/// A reply to a request.
#[derive(Drop)]
pub enum Replied<R> {
    /// This answer, which stands for no record.
    Plain(Answer),
    /// A reply that stands for a record.
    ForRecord(R),
}
