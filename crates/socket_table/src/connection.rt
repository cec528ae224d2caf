//! A connection, and how far it is.
ghost use Rattle.std.specs.Prelude.{◌≡◌, ◌↔◌, ◌≤◌, length, drop, false, nat_lt, if◌then◌else◌, IsTrue};

use crate::{LINGER, LONGEST, Next, Rest, SILENCE, Taken};
use std::alloc::Global;

/// How far a connection is.
#[derive(Clone, Copy, Debug, PartialEq, Eq)]
pub enum Stage {
    /// It was taken, and its start is not yet told.
    Arrived,
    /// It started, and nothing was sent on it.
    Asking,
    /// Something was sent on it, and it is not closed.
    Answered,
    /// It is closed, and bytes are left to send.
    Closed,
    /// It is closed, and nothing is left to send. What still comes is dropped.
    Shut,
}

/// A connection. Moments are in milliseconds.
#[derive(Drop)]
pub struct Connection {
    /// The number of the connection.
    pub number: u32,
    /// How far it is.
    pub stage: Stage,
    /// The moment when its stage began, or when something was sent on it last.
    pub since: u64,
    /// The moment when bytes came from it or went out on it last, or when it started.
    pub moved: u64,
    /// Whether a read may give something.
    pub is_readable: bool,
    /// Whether a write may take something.
    pub is_writable: bool,
    /// What is left to send.
    pub left: Rest,
}

impl Stage {
    ghost use Rattle.socket_table.specs.Connections.{longest, is_open, is_arrived, is_asking, is_shut};

    /// How long, in milliseconds, a connection may be in this stage.
    pub fn longest(self) -> u64
        ensures { result ≡ longest self }
    {
        match self {
            Stage::Arrived => SILENCE,
            Stage::Asking | Stage::Answered | Stage::Closed => LONGEST,
            Stage::Shut => LINGER,
        }
    }

    /// Whether its start was told, and not its end.
    pub fn is_open(self) -> bool
        ensures { result ≡ is_open self }
    {
        matches!(self, Stage::Asking | Stage::Answered)
    }

    /// Whether its start is not yet told.
    pub fn is_arrived(self) -> bool
        ensures { result ≡ is_arrived self }
    {
        matches!(self, Stage::Arrived)
    }

    /// Whether it started, and nothing was sent on it.
    pub fn is_asking(self) -> bool
        ensures { result ≡ is_asking self }
    {
        matches!(self, Stage::Asking)
    }

    /// Whether it is closed, with nothing left to send.
    pub fn is_shut(self) -> bool
        ensures { result ≡ is_shut self }
    {
        matches!(self, Stage::Shut)
    }
}

impl Connection {
    ghost use Rattle.socket_table.specs.Connections.{time_left, is_overdue, is_heard, is_due, is_ready};
    ghost use Rattle.socket_table.specs.Connections.{is_taking, is_dropping, is_busy, closed_at, IsSilent};
    ghost use Rattle.socket_table.specs.Seats.{arrived_at};

    /// A connection that was just taken.
    pub fn new(alloc: Global, number: u32, now: u64) -> Connection
        ensures { result ≡ arrived_at number now }
    {
        Connection {
            number,
            stage: Stage::Arrived,
            since: now,
            moved: now,
            is_readable: false,
            is_writable: false,
            left: Rest::new(alloc),
        }
    }

    /// Whether its start was told, and it has been in its stage for as long as it may.
    pub fn is_overdue(&self, now: u64) -> bool
        ensures { result ≡ is_overdue now self.now }
    {
        !self.stage.is_arrived() && self.time_left(now) == 0
    }

    /// Whether its start is not yet told, and a read of it may give something.
    pub fn is_heard(&self) -> bool
        ensures { result ≡ is_heard self.now }
    {
        self.stage.is_arrived() && self.is_readable
    }

    /// Whether its start is not yet told, and it has waited for that as long as it may.
    pub fn is_due(&self, now: u64) -> bool
        ensures { result ≡ is_due now self.now }
    {
        self.stage.is_arrived() && self.time_left(now) == 0
    }

    /// How long, in milliseconds, it may still be in its stage.
    pub fn time_left(&self, now: u64) -> u64
        ensures { result ≡ time_left now self.now }
    {
        self.stage
            .longest()
            .saturating_sub(now.saturating_sub(self.since))
    }

    /// Whether it is open and a read of it may give something.
    pub fn is_ready(&self) -> bool
        ensures { result ≡ is_ready self.now }
    {
        self.is_readable && self.stage.is_open()
    }

    /// Whether it has bytes to send and may take some.
    pub fn is_taking(&self) -> bool
        ensures { result ≡ is_taking self.now }
    {
        self.is_writable && !self.left.is_empty()
    }
    /// Whether it is shut and a read of it may give something.
    pub fn is_dropping(&self) -> bool
        ensures { result ≡ is_dropping self.now }
    {
        self.is_readable && self.stage.is_shut()
    }

    /// Whether something can be read, sent or dropped on it now.
    pub fn is_busy(&self) -> bool
        ensures { result ≡ is_busy self.now }
    {
        self.is_ready() || self.is_taking() || self.is_dropping()
    }

    /// Whether it is in this stage, and nothing came from it or went out on it for so many milliseconds.
    pub fn is_silent(&self, stage: Stage, silence: u64, now: u64) -> bool
        ensures { IsTrue result ↔ IsSilent stage silence now self.now }
    {
        self.stage == stage && silence <= now.saturating_sub(self.moved)
    }

    /// So much of what is left went out.
    pub fn went_out(&mut self, taken: Taken, now: u64)
        requires { taken.count ≤ length self.old.left }
        ensures went { self.new ≡ record self.old {
          left = drop taken.count self.old.left;
          moved = self.new.moved;
          is_writable = self.new.is_writable;
        } }
        ensures moved { self.new.moved ≡ (if nat_lt 0 taken.count then now else self.old.moved) }
        ensures waits { taken.next ≡ Next.Waits → self.new.is_writable ≡ false }
    {
        self.left.take(taken.count);
        if taken.count > 0 {
            self.moved = now;
        }
        if taken.next == Next::Waits {
            self.is_writable = false;
        }
    }

    /// Closes it. Where nothing is left to send it is shut.
    pub fn close(&mut self, now: u64)
        ensures { self.new ≡ closed_at now self.old }
    {
        self.since = now;
        self.stage = if self.left.is_empty() {
            Stage::Shut
        } else {
            Stage::Closed
        };
    }
}
