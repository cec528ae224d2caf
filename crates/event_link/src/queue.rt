//! What is to come to a link in memory.
ghost use Rattle.std.specs.Prelude.{◌≡◌, ◌<◌, [], ◌∷◌, ◌++◌, length, IfOk, OnErr, OnOk};
ghost use Rattle.std.specs.Option.{option_to_list};
ghost use Rattle.event_link.specs.Links.{Fits, in_front, next_of};
ghost use Rattle.event_link.specs.InMemory.{GoesWith, arrival_of};

use crate::{Arrival, LinkEvent};
use owned_values::{Blob, NoMemory};
use std::alloc::Global;
use std::collections::VecDeque;
use std::marker::Model;

/// What is to come where an event with its bytes is added.
fn make_arrival(alloc: Global, event: LinkEvent, bytes: &[u8]) -> Result<Arrival, NoMemory>
    ensures { IfOk result (λ arrival. arrival ≡ arrival_of event bytes.now) }
{
    Ok(match event {
        LinkEvent::Started(conn) => Arrival::Start(conn),
        LinkEvent::Piece(conn, _) => Arrival::Bytes(conn, Blob::of(alloc, bytes)?),
        LinkEvent::Ended(conn) => Arrival::End(conn),
        LinkEvent::Stop => Arrival::Halt,
    })
}

/// A piece of which the first bytes may have been given.
#[derive(Debug, Drop)]
struct Begun {
    conn: u32,
    bytes: Blob,
    given: usize,
}

impl Model for Begun {
    ghost use Rattle.std.specs.Prelude.{◌≤◌, drop, length};
    ghost use Rattle.event_link.specs.declared.arrival.Arrival.{Arrival};
    ghost use Rattle.event_link.specs.declared.arrival.Arrival.TheVariants.{Bytes};

    ghost Value = { Arrival };

    ghost view = { λ b. Bytes b.conn (drop b.given b.bytes) };

    ghost invariant = { λ b. b.given ≤ length b.bytes };
}

impl Begun {
    fn new(conn: u32, bytes: Blob) -> Begun
        ensures { result ≡ Arrival.Bytes conn bytes }
    {
        Begun {
            conn,
            bytes,
            given: 0,
        }
    }

    /// Gives the bytes that fit, and leaves the others in `rest`; none where all fit. It costs what is given.
    fn give(mut self, into: &mut [u8], rest: &mut Option<Begun>) -> LinkEvent
        ensures event { result ≡ (next_of (length into.old) (self ∷ [])).event }
        ensures bytes { into.new ≡ in_front (next_of (length into.old) (self ∷ [])).bytes into.old }
        ensures later { option_to_list rest.new ≡ (next_of (length into.old) (self ∷ [])).later }
    {
        let conn = self.conn;
        let room = into.len();
        let left = self.bytes.len() - self.given;
        if left <= room {
            into[..left].copy_from_slice(&self.bytes.as_slice()[self.given..]);
            *rest = None;
            return LinkEvent::Piece(conn, left);
        }
        into.copy_from_slice(&self.bytes.as_slice()[self.given..self.given + room]);
        self.given += room;
        *rest = Some(self);
        LinkEvent::Piece(conn, room)
    }
}

/// What is to come, the first of it first. No piece is empty.
#[derive(Debug, Drop)]
pub struct Queue {
    begun: Option<Begun>,
    arrivals: VecDeque<Arrival>,
}

impl Model for Queue {
    ghost use Rattle.std.specs.Prelude.{◌++◌, List};
    ghost use Rattle.std.specs.Option.{option_to_list};
    ghost use Rattle.event_link.specs.declared.arrival.Arrival.{Arrival};
    ghost use Rattle.event_link.specs.InMemory.{HaveBytes};

    ghost Value = { List Arrival };

    ghost view = { λ q. option_to_list q.begun ++ q.arrivals.items };

    ghost invariant = { λ q. HaveBytes (option_to_list q.begun ++ q.arrivals.items) };
}

impl Queue {
    /// Nothing is to come. It takes no memory.
    pub fn new(alloc: Global) -> Queue
        ensures { result ≡ [] }
    {
        Queue {
            begun: None,
            arrivals: VecDeque::new(alloc),
        }
    }

    /// Adds an event with its bytes behind what is to come.
    pub fn add(&mut self, event: LinkEvent, bytes: &[u8]) -> Result<(), NoMemory>
        requires { GoesWith event bytes.now }
        ensures ok { OnOk result (self.new ≡ self.old ++ arrival_of event bytes.now ∷ []) }
        ensures err { OnErr result (self.new ≡ self.old) }
    {
        let arrival = make_arrival(*self.arrivals.allocator(), event, bytes)?;
        self.arrivals.push_back(arrival)?;
        Ok(())
    }

    /// Gives what comes first. It costs what is given.
    pub fn next(&mut self, into: &mut [u8]) -> LinkEvent
        requires { 0 < length into.old }
        ensures fits { Fits result (length into.old) }
        ensures event { result ≡ (next_of (length into.old) self.old).event }
        ensures bytes { into.new ≡ in_front (next_of (length into.old) self.old).bytes into.old }
        ensures later { self.new ≡ (next_of (length into.old) self.old).later }
    {
        if let Some(piece) = self.begun.take() {
            return piece.give(into, &mut self.begun);
        }
        match self.arrivals.pop_front() {
            Some(Arrival::Start(conn)) => LinkEvent::Started(conn),
            Some(Arrival::Bytes(conn, bytes)) => {
                Begun::new(conn, bytes).give(into, &mut self.begun)
            }
            Some(Arrival::End(conn)) => LinkEvent::Ended(conn),
            Some(Arrival::Halt) | None => LinkEvent::Stop,
        }
    }
}
