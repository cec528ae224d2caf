//! One connection.
ghost use Rattle.std.specs.Prelude.{◌≡◌, ◌≢◌, ◌↔◌, [], ◌++◌, IsTrue, is_ok, if◌then◌else◌};
ghost use Rattle.http_wire.specs.Requests.{Reads, Whole};
ghost use Rattle.http_wire.specs.Views.{request_view};
ghost use Rattle.conn_table.specs.Answers.{IsAnswer, IsWholeRequest};

use crate::progress::{Progress, progress_of};
use http_wire::{Awaited, HttpRequest, laws};
use owned_values::NoMemory;
use std::alloc::Global;
use std::marker::Model;

/// A connection that is kept.
#[derive(Drop)]
pub(crate) struct Connection {
    conn: u32,
    // all bytes since it was started
    buffer: Vec<u8>,
    awaited: Awaited,
}

impl Model for Connection {
    ghost use Rattle.conn_table.specs.Kept.{Kept, IsLookedAt};

    ghost Value = { Kept };

    ghost view = { λ c. record { conn = c.conn; bytes = c.buffer.items } };

    ghost invariant = { λ c. IsLookedAt c.awaited c.buffer.items };
}

/// Puts a piece behind the bytes of a buffer.
fn extend(buffer: &mut Vec<u8>, piece: &[u8]) -> Result<(), NoMemory>
    ensures items { buffer.new.items ≡ (if is_ok result then buffer.old.items ++ piece.now else buffer.old.items) }
{
    match piece {
        [byte] => buffer.push(*byte)?,
        _ => buffer.extend_from_slice(piece)?,
    }
    Ok(())
}

impl Connection {
    /// A connection that has brought nothing yet. It takes no memory.
    pub(crate) fn new(alloc: Global, conn: u32) -> Connection
        ensures { result ≡ record { conn = conn; bytes = [] } }
    {
        Connection {
            conn,
            buffer: Vec::new(alloc),
            awaited: Awaited::new(),
        }
    }

    /// Whether it has this number.
    pub(crate) fn is(&self, conn: u32) -> bool
        ensures { IsTrue result ↔ (self.now.conn ≡ conn) }
    {
        self.conn == conn
    }

    /// Takes a piece behind its bytes, and says what all of them are.
    pub(crate) fn take(&mut self, piece: &[u8]) -> Progress
        ensures known { result ≢ Progress.Unknown }
        ensures number { self.new.conn ≡ self.old.conn }
        ensures answer { result ≢ Progress.NoMemory → IsAnswer self.new.bytes result }
        ensures taken { result ≢ Progress.NoMemory → self.new ≡ record self.old { bytes = self.old.bytes ++ piece.now } }
        ensures unchanged { result ≡ Progress.NoMemory → self.new ≡ self.old }
    {
        laws::what_is_known_stays_true();
        if extend(&mut self.buffer, piece).is_err() {
            return Progress::NoMemory;
        }
        progress_of(self.awaited.look(self.buffer.as_slice()))
    }

    /// The request that its bytes are, of what was kept of its head.
    pub(crate) fn request(&self) -> HttpRequest<'_>
        requires { IsWholeRequest self.now.bytes }
        ensures { Reads self.now.bytes (Whole (request_view result)) }
    {
        self.awaited.request(self.buffer.as_slice())
    }
}
