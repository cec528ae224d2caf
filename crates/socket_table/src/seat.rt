//! A connection with its stream.
ghost use Rattle.std.specs.Prelude.{◌≡◌, ◌≢◌, ◌<◌, ◌⊎◌, [], length, false, Err, OnOk};

use crate::streams::{hear, put};
use crate::{Connection, Next, SendFault, Stage};
use std::io::{Read, Write};

/// A connection and its stream.
#[derive(Drop)]
pub struct Seat<S> {
    /// The connection.
    pub connection: Connection,
    /// Its stream.
    pub stream: S,
}

/// What a connection said.
#[derive(Clone, Copy, Debug, PartialEq, Eq)]
pub enum Said {
    /// So many bytes of this connection came, at least one.
    Piece(u32, usize),
    /// This connection has ended.
    Ended(u32),
    /// It has nothing to say now.
    Nothing,
}

impl<S: Read + Write> Seat<S> {
    ghost use Rattle.socket_table.specs.Seats.{Hears, Flushes, SendsOn};

    /// Reads what is there, as much as fits.
    pub fn hear(&mut self, into: &mut [u8], now: u64) -> Said
        requires { 0 < length into.old }
        ensures { Hears S.remaining into.new now result self.old self.new }
    {
        let heard = hear(&mut self.stream, into);
        if heard.next == Next::Waits {
            self.connection.is_readable = false;
        }
        if heard.count > 0 {
            self.connection.moved = now;
            return Said::Piece(self.connection.number, heard.count);
        }
        match heard.next {
            Next::Ended => Said::Ended(self.connection.number),
            Next::More | Next::Waits => Said::Nothing,
        }
    }

    /// Sends what is left, as far as the stream takes it.
    pub fn flush(&mut self, now: u64) -> Result<(), SendFault>
        ensures flushes { Flushes S.contents self.old self.new }
        ensures done { OnOk result ((self.new.connection.left ≡ []) ⊎ (self.new.connection.is_writable ≡ false)) }
        ensures fault { (result ≢ Err SendFault.NoMemory) × (result ≢ Err SendFault.NotOpen) }
    {
        let taken = put(&mut self.stream, self.connection.left.as_slice());
        self.connection.went_out(taken, now);
        if taken.next == Next::Ended {
            return Err(SendFault::StreamFailed);
        }
        Ok(())
    }

    /// Sends bytes behind those that are left, as far as the stream takes them; the others are left.
    pub fn send(&mut self, bytes: &[u8], now: u64) -> Result<(), SendFault>
        ensures sends { result ≢ Err SendFault.NoMemory → SendsOn S.contents bytes.now now self.old self.new }
        ensures no_memory { result ≡ Err SendFault.NoMemory → self.new ≡ self.old }
        ensures fault { result ≢ Err SendFault.NotOpen }
    {
        self.connection.left.push(bytes)?;
        self.connection.stage = Stage::Answered;
        self.connection.since = now;
        self.flush(now)
    }
}
