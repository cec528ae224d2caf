//! Serving the connections of an address: what happens next, and what goes out.
ghost use Rattle.std.specs.Prelude.{◌≡◌, ℕ, ◌<◌, length, vec_len, IfOk, IfSome};
ghost use Rattle.event_link.specs.Links.{Fits};

use crate::sockets::{Accepted, Sockets};
use event_link::LinkEvent;
use mio::net::TcpStream;
use socket_table::{Said, Seat, SendFault, SocketTable, Stage};
use std::alloc::Global;
use std::io;
use std::io::ErrorKind;
use std::net::{Net, Shutdown};
use std::rt::Clock;

// How many bytes of what is dropped are read at once.
const DROPPED: usize = 16_384;

// How long, in milliseconds, until a connection is taken again where the system had no room for one.
const NO_ROOM_PAUSE: u64 = 100;

/// The sockets of an address, and the table of their connections.
#[derive(Drop)]
pub(crate) struct Server {
    sockets: Sockets,
    table: SocketTable<TcpStream>,
    // the moment now, in milliseconds of a clock that never goes back
    now: u64,
    // until when no connection is taken
    paused: u64,
    // whether the last event was a start
    has_started: bool,
}

// Shuts the sending side of a connection that is closed and has nothing left to send.
fn shut_seat(seat: &Seat<TcpStream>) {
    if seat.connection.stage.is_shut() {
        let _ = seat.stream.shutdown(Shutdown::Write);
    }
}

// Closes a connection.
fn close_seat(seat: &mut Seat<TcpStream>, now: u64) {
    seat.connection.close(now);
    shut_seat(seat);
}

impl Server {
    /// No listener and no connection, and memory for all that there may be.
    pub(crate) fn new<R: Net>(rt: &R, alloc: Global) -> io::Result<Server> {
        Ok(Server {
            sockets: Sockets::new(rt, alloc)?,
            table: SocketTable::new(alloc)?,
            now: 0,
            paused: 0,
            has_started: false,
        })
    }

    /// Listens at an address, in place of the one before.
    pub(crate) fn listen<R: Net>(&mut self, rt: &R, address: &str) -> io::Result<()> {
        self.sockets.listen(rt, address)
    }

    /// The sockets.
    #[cfg(test)]
    pub(crate) fn sockets(&self) -> &Sockets {
        &self.sockets
    }

    // Reads the clock. Where it can't be read the moment stays.
    fn look_at_clock<R: Clock>(&mut self, rt: &R) {
        if let Ok(time) = rt.monotonic() {
            if let Ok(now) = u64::try_from(time.as_millis()) {
                self.now = self.now.max(now);
            }
        }
    }

    // Ends each connection that is overdue, up to one whose end is to be told.
    fn end_overdue(&mut self) -> Option<LinkEvent>
        ensures { (room : ℕ) → IfSome result (λ event. Fits event room) }
    {
        while let Some(place) = self.table.overdue(self.now) {
            let ended = self.table.remove(place).connection;
            if ended.stage.is_open() {
                return Some(LinkEvent::Ended(ended.number));
            }
        }
        None
    }

    // Tells of a connection that has arrived, and first ends one that is in the way of one that can be read.
    fn tell_arrival(&mut self) -> Option<LinkEvent>
        ensures { (room : ℕ) → IfSome result (λ event. Fits event room) }
    {
        let arrived = self.table.arrived(self.now)?;
        if self.table.seats[arrived].connection.is_heard() {
            if let Some(place) = self.table.in_the_way(self.now) {
                let ended = self.table.remove(place).connection;
                return Some(LinkEvent::Ended(ended.number));
            }
        }
        self.has_started = true;
        Some(LinkEvent::Started(self.table.start(arrived, self.now)))
    }

    // Lets a connection go so that another one may come: one that is shut, else one whose start is not yet told, else
    // one that is closed, each time the one that has been silent longest.
    fn make_room(&mut self) {
        for stage in [Stage::Shut, Stage::Arrived, Stage::Closed] {
            if let Some(place) = self.table.most_silent(stage, 0, self.now) {
                let _ = self.table.remove(place);
                return;
            }
        }
    }

    // Keeps a connection that was taken. One that the system does not tell of is let go.
    fn keep(&mut self, stream: TcpStream) {
        if self.table.is_full() {
            self.make_room();
        }
        let _ = stream.set_nodelay(true);
        let Ok(number) = self.table.admit(stream, self.now) else {
            return;
        };
        let Some(seat) = self.table.seats.last_mut() else {
            return;
        };
        if self.sockets.register(&mut seat.stream, number).is_err() {
            let _ = self.table.seats.pop();
        }
    }

    // Takes the connection that waits, if there is one.
    fn accept(&mut self) -> io::Result<()> {
        match self.sockets.accept()? {
            Accepted::Stream(stream) => self.keep(stream),
            Accepted::Nothing | Accepted::Aborted => {}
            Accepted::NoRoom => {
                self.make_room();
                self.paused = self.now.saturating_add(NO_ROOM_PAUSE);
            }
        }
        Ok(())
    }

    // Whether a connection is to be taken now: after a start the next piece goes first, if one is there.
    fn is_accepting(&self) -> bool {
        let is_turn = !self.has_started || self.table.next_ready().is_none();
        self.sockets.is_ready() && self.paused <= self.now && is_turn
    }

    // A piece of the connection whose turn it is, or its end.
    fn hear(&mut self, into: &mut [u8]) -> Option<LinkEvent>
        requires { 0 < length into.old }
        ensures { IfSome result (λ event. Fits event (length into.old)) }
    {
        let place = self.table.next_ready()?;
        match self.table.hear(place, into, self.now) {
            Said::Piece(number, count) => {
                self.table.pass_turn(place);
                self.has_started = false;
                Some(LinkEvent::Piece(number, count))
            }
            Said::Ended(number) => {
                let _ = self.table.remove(place);
                Some(LinkEvent::Ended(number))
            }
            Said::Nothing => None,
        }
    }

    // Sends what is left on a connection, and drops what still comes once it is shut. It answers whether it is to be
    // kept.
    fn move_on(&mut self, place: usize) -> bool
        requires { place < vec_len self.old.table.seats }
        ensures { vec_len self.new.table.seats ≡ vec_len self.old.table.seats }
    {
        let connection = &self.table.seats[place].connection;
        if connection.is_taking() {
            return self.flush(place);
        }
        if connection.is_dropping() {
            return self.drop_what_comes(place);
        }
        true
    }

    // Reads what comes from a connection that is shut. It answers whether it is to be kept.
    fn drop_what_comes(&mut self, place: usize) -> bool
        requires { place < vec_len self.old.table.seats }
        ensures { vec_len self.new.table.seats ≡ vec_len self.old.table.seats }
    {
        let mut dropped = [0; DROPPED];
        let said = self.table.hear(place, &mut dropped, self.now);
        !matches!(said, Said::Ended(_))
    }

    // Sends what is left on a connection, and shuts it where that was all and it is closed. It answers whether it is to
    // be kept.
    fn flush(&mut self, place: usize) -> bool
        requires { place < vec_len self.old.table.seats }
        ensures { vec_len self.new.table.seats ≡ vec_len self.old.table.seats }
    {
        let sent = self.table.flush(place, self.now);
        let Some(seat) = self.table.seats.get_mut(place) else {
            return true;
        };
        if sent.is_err() {
            // where it is open, a read will tell its end
            seat.connection.is_writable = false;
            seat.connection.is_readable = true;
            return seat.connection.stage.is_open();
        }
        if seat.connection.stage == Stage::Closed && seat.connection.left.is_empty() {
            close_seat(seat, self.now);
        }
        true
    }

    // Moves each connection on, and lets go those that are done.
    fn move_all(&mut self) {
        for place in (0..self.table.seats.len()).rev() {
            if place < self.table.seats.len() && !self.move_on(place) {
                let _ = self.table.remove(place);
            }
        }
    }

    // How long, in milliseconds, to wait until something has to be done whatever comes.
    fn longest_wait(&self) -> Option<u64> {
        let has_arrival = self.table.arrived(self.now).is_some();
        if has_arrival || self.table.is_busy() || self.is_accepting() {
            return Some(0);
        }
        let left = self.table.time_left(self.now);
        if self.sockets.is_ready() && self.now < self.paused {
            let pause = self.paused - self.now;
            return Some(left.map_or(pause, |left| left.min(pause)));
        }
        left
    }

    // Takes what the system has now, and waits for it where there is nothing.
    fn look(&mut self) -> io::Result<()> {
        let longest = self.longest_wait();
        self.sockets.wait(&mut self.table, longest)?;
        self.move_all();
        Ok(())
    }

    // Looks for the next event. There may be none although the system had something.
    fn event(&mut self, into: &mut [u8]) -> io::Result<Option<LinkEvent>>
        requires { 0 < length into.old }
        ensures { IfOk result (λ found. IfSome found (λ event. Fits event (length into.old))) }
    {
        if let Some(event) = self.end_overdue() {
            return Ok(Some(event));
        }
        if self.is_accepting() {
            self.accept()?;
        }
        if let Some(event) = self.tell_arrival() {
            return Ok(Some(event));
        }
        Ok(self.hear(into))
    }

    /// Waits for the next event. It fails where there is no listener.
    pub(crate) fn next<R: Clock>(&mut self, rt: &R, into: &mut [u8]) -> io::Result<LinkEvent>
        requires { 0 < length into.old }
        ensures { IfOk result (λ event. Fits event (length into.old)) }
    {
        for _ in 0..u64::MAX {
            if !self.sockets.is_listening() {
                break;
            }
            self.look()?;
            self.look_at_clock(rt);
            if let Some(event) = self.event(into)? {
                return Ok(event);
            }
        }
        Err(ErrorKind::NotConnected.into())
    }

    /// Sends bytes on a connection. One whose stream fails is let go once it is closed, or ends at the next read.
    pub(crate) fn send<R: Clock>(&mut self, rt: &R, number: u32, bytes: &[u8]) -> io::Result<()> {
        self.look_at_clock(rt);
        match self.table.send(number, bytes, self.now) {
            Ok(()) => Ok(()),
            Err(SendFault::NoMemory) => Err(ErrorKind::OutOfMemory.into()),
            Err(SendFault::NotOpen | SendFault::StreamFailed) => {
                Err(ErrorKind::NotConnected.into())
            }
        }
    }

    /// Closes a connection. What is left goes on being sent.
    pub(crate) fn close<R: Clock>(&mut self, rt: &R, number: u32) {
        self.look_at_clock(rt);
        if let Some(place) = self.table.close(number, self.now) {
            shut_seat(&self.table.seats[place]);
        }
    }

    // Lets go each connection that was not answered, and closes the others.
    fn close_all(&mut self) {
        self.sockets.stop_listening();
        for place in (0..self.table.seats.len()).rev() {
            let Some(seat) = self.table.seats.get_mut(place) else {
                continue;
            };
            match seat.connection.stage {
                Stage::Arrived | Stage::Asking => {
                    let _ = self.table.seats.remove(place);
                }
                Stage::Answered => close_seat(seat, self.now),
                Stage::Closed | Stage::Shut => {}
            }
        }
    }

    /// Takes no more connections, and sends what is left on those that were answered, for as long as each may take.
    pub(crate) fn finish<R: Clock>(&mut self, rt: &R) {
        self.close_all();
        for _ in 0..u64::MAX {
            self.look_at_clock(rt);
            let _ = self.end_overdue();
            if self.table.seats.is_empty() || self.look().is_err() {
                return;
            }
        }
    }
}
