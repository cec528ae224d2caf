//! Reading what is there, and writing as much as is taken.
ghost use Rattle.std.specs.Prelude.{◌≡◌, ◌≤◌, length, take};
ghost use Rattle.std.specs.Io.KnownBytes.{Appends, Consumes};

use std::io::{ErrorKind, Read, Write};

/// What a stream can do next.
#[derive(Clone, Copy, Debug, PartialEq, Eq)]
pub enum Next {
    /// It may have or take more.
    More,
    /// It has or takes nothing more now.
    Waits,
    /// It has ended, or has failed.
    Ended,
}

/// What came from a stream.
#[derive(Clone, Copy, Debug, PartialEq, Eq)]
pub struct Heard {
    /// How many bytes came.
    pub count: usize,
    /// What may come behind them.
    pub next: Next,
}

/// What a stream took.
#[derive(Clone, Copy, Debug, PartialEq, Eq)]
pub struct Taken {
    /// How many bytes it took.
    pub count: usize,
    /// What it may take behind them.
    pub next: Next,
}

/// Reads what is there, as much as fits. A read that a signal interrupted is tried again.
pub(crate) fn hear<S: Read>(stream: &mut S, into: &mut [u8]) -> Heard
    ensures fits { result.count ≤ length into.new }
    ensures bytes { Consumes (S.remaining stream.old) (S.remaining stream.new) (take result.count into.new) }
    ensures full { result.next ≡ Next.More → result.count ≡ length into.new }
{
    let mut count = 0;
    for _ in 0..u64::MAX {
        if count == into.len() {
            return Heard {
                count,
                next: Next::More,
            };
        }
        match stream.read(&mut into[count..]) {
            Ok(0) => {
                return Heard {
                    count,
                    next: Next::Ended,
                };
            }
            Ok(more) => count += more,
            Err(e) => {
                if e.kind() == ErrorKind::WouldBlock {
                    return Heard {
                        count,
                        next: Next::Waits,
                    };
                }
                if e.kind() != ErrorKind::Interrupted {
                    return Heard {
                        count,
                        next: Next::Ended,
                    };
                }
            }
        }
    }
    Heard {
        count,
        next: Next::Ended,
    }
}

/// Writes as much as the stream takes. A write that a signal interrupted is tried again, and one that takes nothing has
/// failed.
pub(crate) fn put<S: Write>(stream: &mut S, bytes: &[u8]) -> Taken
    ensures fits { result.count ≤ length bytes.now }
    ensures bytes { Appends (S.contents stream.old) (S.contents stream.new) (take result.count bytes.now) }
    ensures whole { result.next ≡ Next.More → result.count ≡ length bytes.now }
{
    let mut count = 0;
    for _ in 0..u64::MAX {
        if count == bytes.len() {
            return Taken {
                count,
                next: Next::More,
            };
        }
        match stream.write(&bytes[count..]) {
            Ok(0) => break,
            Ok(more) => count += more,
            Err(e) => {
                if e.kind() == ErrorKind::WouldBlock {
                    return Taken {
                        count,
                        next: Next::Waits,
                    };
                }
                if e.kind() != ErrorKind::Interrupted {
                    break;
                }
            }
        }
    }
    Taken {
        count,
        next: Next::Ended,
    }
}
