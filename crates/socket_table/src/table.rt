//! The table of the connections.
ghost use Rattle.std.specs.Prelude.{◌≡◌, ◌≢◌, ◌<◌, ◌≤◌, ◌↔◌, ◌⊎◌, [], ◌∷◌, ◌++◌, length, remove, slice_get, slice_index, vec_len, vec_capacity};
ghost use Rattle.std.specs.Prelude.{All, SomeIndex, Some, None, Err, IsOk, IsNone, IsSome, IsTrue, IsSomeAnd, IfOk, IfErr, IfSome, MatchOption};
ghost use Rattle.std.specs.List.{list_any};
ghost use Rattle.socket_table.specs.declared.limits.TheConstants.{MOST_SEATS};

use crate::{Connection, MOST_ASKING, MOST_SEATS, SILENCE, Said, Seat, SendFault, Stage};
use std::alloc::{AllocError, Global};
use std::io::{Read, Write};

// A connection that is silent, by its place, and the moment when it moved last.
#[derive(Clone, Copy)]
struct Silent {
    place: usize,
    moved: u64,
}

// The one of the two that has been silent longer.
fn longer_silent(found: Option<Silent>, next: Silent) -> Silent
    ensures either { (result ≡ next) ⊎ (found ≡ Some result) }
    ensures next { result.moved ≤ next.moved }
    ensures found { IfSome found (λ other. result.moved ≤ other.moved) }
{
    match found {
        Some(other) if other.moved <= next.moved => other,
        _ => next,
    }
}

/// The connections, in the order of their turns.
#[derive(Drop)]
pub struct SocketTable<S> {
    /// The connections that are there, each with its stream.
    pub seats: Vec<Seat<S>>,
    /// The number that was given last.
    pub last: u32,
    ghost room: { MOST_SEATS ≤ vec_capacity seats },
}

impl<S> SocketTable<S> {
    ghost use Rattle.socket_table.specs.Connections.{is_busy, time_left, closed_at, IsSilent};
    ghost use Rattle.socket_table.specs.declared.seat.Seat.{Seat};
    ghost use Rattle.socket_table.specs.Seats.{next_number, arrived_at, started_at, marked, times_left, asking_count};
    ghost use Rattle.socket_table.specs.Seats.{overdue_place, heard_place, arrived_place, due_place, ready_place};
    ghost use Rattle.socket_table.specs.Seats.{open_place, place_of_number, ChangesAt, ConnectionBecomes, IsMostSilent};

    /// No connection, and memory for all that there may be.
    pub fn new(alloc: Global) -> Result<SocketTable<S>, AllocError>
        ensures { IfOk result (λ table. (table.seats.items ≡ []) × (table.last ≡ 0)) }
    {
        Ok(SocketTable {
            seats: Vec::with_capacity(alloc, MOST_SEATS)?,
            last: 0,
        })
    }

    /// The place of the first connection whose start was told and that has been in its stage for as long as it may.
    pub fn overdue(&self, now: u64) -> Option<usize>
        ensures { result ≡ overdue_place now self.now.seats.items }
    {
        self.seats
            .iter()
            .position(|seat| seat.connection.is_overdue(now))
    }

    // The place of the first connection whose start is not yet told, and that can be read.
    fn heard(&self) -> Option<usize>
        ensures { result ≡ heard_place self.now.seats.items }
    {
        self.seats
            .iter()
            .position(|seat| seat.connection.is_heard())
    }

    // The place of the first connection whose start is not yet told.
    fn first_arrived(&self) -> Option<usize>
        ensures { result ≡ arrived_place self.now.seats.items }
    {
        self.seats
            .iter()
            .position(|seat| seat.connection.stage.is_arrived())
    }

    // The place of the first connection that has waited for its start as long as it may.
    fn first_due(&self, now: u64) -> Option<usize>
        ensures { result ≡ due_place now self.now.seats.items }
    {
        self.seats
            .iter()
            .position(|seat| seat.connection.is_due(now))
    }

    // The place of the first connection whose start is not yet told; where as many are asking as may be, of the first
    // that has waited for that as long as it may.
    fn waiting(&self, now: u64) -> Option<usize>
        ensures room { asking_count self.now.seats.items < MOST_ASKING
            → result ≡ arrived_place self.now.seats.items }
        ensures full { MOST_ASKING ≤ asking_count self.now.seats.items
            → result ≡ due_place now self.now.seats.items }
    {
        if self.asking() < MOST_ASKING {
            return self.first_arrived();
        }
        self.first_due(now)
    }

    /// The place of the connection whose start is told next: the first that can be read. Where there is none it is the
    /// first that has come, or, where as many are asking as may be, the first that has waited for a second.
    pub fn arrived(&self, now: u64) -> Option<usize>
        ensures heard { IsSome (heard_place self.now.seats.items)
            → result ≡ heard_place self.now.seats.items }
        ensures room { IsNone (heard_place self.now.seats.items)
            → asking_count self.now.seats.items < MOST_ASKING
            → result ≡ arrived_place self.now.seats.items }
        ensures full { IsNone (heard_place self.now.seats.items)
            → MOST_ASKING ≤ asking_count self.now.seats.items
            → result ≡ due_place now self.now.seats.items }
    {
        match self.heard() {
            Some(place) => Some(place),
            None => self.waiting(now),
        }
    }

    /// The place of the first connection that is open and can be read.
    pub fn next_ready(&self) -> Option<usize>
        ensures { result ≡ ready_place self.now.seats.items }
    {
        self.seats
            .iter()
            .position(|seat| seat.connection.is_ready())
    }

    /// Whether something can be read, sent or dropped now.
    pub fn is_busy(&self) -> bool
        ensures { result ≡ list_any (λ seat. is_busy seat.connection) self.now.seats.items }
    {
        self.seats.iter().any(|seat| seat.connection.is_busy())
    }

    /// The place of the open connection of a number.
    pub fn place_of(&self, number: u32) -> Option<usize>
        ensures { result ≡ open_place number self.now.seats.items }
    {
        self.seats.iter().position(|seat| seat.connection.number == number
            && seat.connection.stage.is_open())
    }

    /// How many connections are asking.
    pub fn asking(&self) -> usize
        ensures { result ≡ asking_count self.now.seats.items }
    {
        self.seats
            .iter()
            .filter(|seat| seat.connection.stage.is_asking())
            .count()
    }

    /// The place of the connection of this stage that has been silent longest, if it was silent for so many
    /// milliseconds.
    pub fn most_silent(&self, stage: Stage, silence: u64, now: u64) -> Option<usize>
        ensures none { IsNone result → All (λ seat. ¬ IsSilent stage silence now seat.connection) self.now.seats.items }
        ensures found { IfSome result (IsMostSilent stage silence now self.now.seats.items) }
    {
        let mut found = None;
        for (place, seat) in self.seats.iter().enumerate() {
            let moved = seat.connection.moved;
            if seat.connection.is_silent(stage, silence, now) {
                found = Some(longer_silent(found, Silent { place, moved }));
            }
        }
        match found {
            Some(silent) => Some(silent.place),
            None => None,
        }
    }

    /// The place of the connection that is ended so that one that can be read may start: where as many are asking as
    /// may be, the one that has been silent longest, if it was silent for a second.
    pub fn in_the_way(&self, now: u64) -> Option<usize>
        ensures room { asking_count self.now.seats.items < MOST_ASKING → result ≡ None }
        ensures none { MOST_ASKING ≤ asking_count self.now.seats.items → IsNone result
            → All (λ seat. ¬ IsSilent Stage.Asking SILENCE now seat.connection) self.now.seats.items }
        ensures found { IfSome result (IsMostSilent Stage.Asking SILENCE now self.now.seats.items) }
    {
        if self.asking() < MOST_ASKING {
            return None;
        }
        self.most_silent(Stage::Asking, SILENCE, now)
    }

    /// How long, in milliseconds, until some connection is overdue, if there is one.
    pub fn time_left(&self, now: u64) -> Option<u64>
        ensures none { IsNone result ↔ (self.now.seats.items ≡ []) }
        ensures least { IfSome result (λ least.
            All (λ seat. least ≤ time_left now seat.connection) self.now.seats.items) }
        ensures some { IfSome result (λ least.
            SomeIndex self.now.seats.items (λ k. least ≡ slice_index (times_left now self.now.seats.items) k)) }
    {
        self.seats
            .iter()
            .map(|seat| seat.connection.time_left(now))
            .min()
    }

    // The place of the connection of a number, open or not.
    fn place_in_all(&self, number: u32) -> Option<usize>
        ensures { result ≡ place_of_number number self.now.seats.items }
    {
        self.seats
            .iter()
            .position(|seat| seat.connection.number == number)
    }

    /// Whether there are as many connections as there may be.
    pub fn is_full(&self) -> bool
        ensures { IsTrue result ↔ (MOST_SEATS ≤ vec_len self.now.seats) }
    {
        self.seats.len() >= MOST_SEATS
    }

    /// Takes a connection under the next number, and answers that; after 2^32 - 1 comes 0. Where there are as many as
    /// there may be, or one of that number, it is given back.
    pub fn admit(&mut self, stream: S, now: u64) -> Result<u32, S>
        ensures last { self.new.last ≡ next_number self.old.last }
        ensures ok { IsOk result ↔ ((vec_len self.old.seats < MOST_SEATS)
            × (place_of_number (next_number self.old.last) self.old.seats.items ≡ None)) }
        ensures taken { IfOk result (λ number. (number ≡ next_number self.old.last)
            × (self.new.seats.items
            ≡ self.old.seats.items ++ record { connection = arrived_at number now; stream = stream } ∷ [])) }
        ensures given_back { IfErr result (λ same. (same ≡ stream) × (self.new.seats.items ≡ self.old.seats.items)) }
    {
        self.last = self.last.wrapping_add(1);
        if self.is_full() || self.place_in_all(self.last).is_some() {
            return Err(stream);
        }
        let connection = Connection::new(*self.seats.allocator(), self.last, now);
        self.seats.push_reserved(Seat { connection, stream });
        Ok(self.last)
    }

    /// Starts a connection, and answers its number.
    pub fn start(&mut self, place: usize, now: u64) -> u32
        requires { place < vec_len self.old.seats }
        ensures starts { ChangesAt place (ConnectionBecomes (started_at now)) self.old.seats.items self.new.seats.items }
        ensures number { IsSomeAnd (slice_get self.old.seats.items place) (λ seat. result ≡ seat.connection.number) }
        ensures last { self.new.last ≡ self.old.last }
    {
        let connection = &mut self.seats[place].connection;
        connection.stage = Stage::Asking;
        connection.since = now;
        connection.moved = now;
        connection.number
    }

    /// Puts a connection behind all others.
    pub fn pass_turn(&mut self, place: usize)
        requires { place < vec_len self.old.seats }
        ensures passes { (seat : Seat S) × (slice_get self.old.seats.items place ≡ Some seat)
            × (self.new.seats.items ≡ remove self.old.seats.items place ++ seat ∷ []) }
        ensures last { self.new.last ≡ self.old.last }
    {
        let seat = self.seats.remove(place);
        self.seats.push_reserved(seat);
    }

    /// Takes a connection out.
    pub fn remove(&mut self, place: usize) -> Seat<S>
        requires { place < vec_len self.old.seats }
        ensures seat { slice_get self.old.seats.items place ≡ Some result }
        ensures others { self.new.seats.items ≡ remove self.old.seats.items place }
        ensures last { self.new.last ≡ self.old.last }
    {
        self.seats.remove(place)
    }

    /// What the system says of the connection of a number: whether it may be read and written.
    pub fn mark(&mut self, number: u32, is_readable: bool, is_writable: bool)
        ensures { MatchOption (place_of_number number self.old.seats.items) (self.new ≡ self.old)
            (λ place. ChangesAt place (ConnectionBecomes (marked is_readable is_writable))
            self.old.seats.items self.new.seats.items) }
    {
        if let Some(place) = self.place_in_all(number) {
            let connection = &mut self.seats[place].connection;
            connection.is_readable |= is_readable;
            connection.is_writable |= is_writable;
        }
    }

    /// Closes the open connection of a number, if there is one, and answers its place. What is left goes on being sent.
    pub fn close(&mut self, number: u32, now: u64) -> Option<usize>
        ensures place { result ≡ open_place number self.old.seats.items }
        ensures none { IsNone result → self.new ≡ self.old }
        ensures closes { IfSome result (λ place.
            ChangesAt place (ConnectionBecomes (closed_at now)) self.old.seats.items self.new.seats.items) }
    {
        let place = self.place_of(number)?;
        self.seats[place].connection.close(now);
        Some(place)
    }
}

impl<S: Read + Write> SocketTable<S> {
    ghost use Rattle.socket_table.specs.Seats.{open_place, ChangesAt, Hears, Flushes, SendsOn};

    /// Reads what a connection has to say.
    pub fn hear(&mut self, place: usize, into: &mut [u8], now: u64) -> Said
        requires place { place < vec_len self.old.seats }
        requires room { 0 < length into.old }
        ensures hears { ChangesAt place (Hears S.remaining into.new now result) self.old.seats.items self.new.seats.items }
        ensures last { self.new.last ≡ self.old.last }
    {
        self.seats[place].hear(into, now)
    }

    /// Sends bytes on the open connection of a number, as far as its stream takes them; the others are left.
    pub fn send(&mut self, number: u32, bytes: &[u8], now: u64) -> Result<(), SendFault>
        ensures not_open { (result ≡ Err SendFault.NotOpen) ↔ IsNone (open_place number self.old.seats.items) }
        ensures unchanged { (result ≡ Err SendFault.NotOpen) ⊎ (result ≡ Err SendFault.NoMemory)
            → self.new.seats.items ≡ self.old.seats.items }
        ensures sends { result ≢ Err SendFault.NotOpen → result ≢ Err SendFault.NoMemory
            → IsSomeAnd (open_place number self.old.seats.items)
            (λ place. ChangesAt place (SendsOn S.contents bytes.now now) self.old.seats.items self.new.seats.items) }
        ensures last { self.new.last ≡ self.old.last }
    {
        let Some(place) = self.place_of(number) else {
            return Err(SendFault::NotOpen);
        };
        self.seats[place].send(bytes, now)
    }

    /// Sends what is left on a connection, as far as its stream takes it.
    pub fn flush(&mut self, place: usize, now: u64) -> Result<(), SendFault>
        requires { place < vec_len self.old.seats }
        ensures flushes { ChangesAt place (Flushes S.contents) self.old.seats.items self.new.seats.items }
        ensures last { self.new.last ≡ self.old.last }
    {
        self.seats[place].flush(now)
    }
}
