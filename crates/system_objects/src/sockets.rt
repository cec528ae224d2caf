//! The sockets of an address, and what the system says of them.
use mio::net::{TcpListener, TcpStream};
use mio::{Events, Interest, Poll, Token};
use socket_table::SocketTable;
use std::alloc::Global;
use std::io;
use std::io::ErrorKind;
use std::net::{Net, ToSocketAddrs};
use std::time::Duration;

// How many sockets are told of at once.
const EVENTS_ROOM: usize = 320;

// What the listener is called. It is no number of a connection.
const LISTENER: Token = Token(1 << 32);

// Numbers of the system's errors where it has no room for one more socket: too many open files in the process, too many
// in the system, no room for buffers, no memory.
const NO_ROOM: [i32; 4] = [24, 23, 105, 12];

// Numbers of the system's errors that are of the connection which waits, and not of the listener (accept(2)): a firewall
// forbids it, its machine is not on the network, of its protocol three, its network is down or is not reached, it took
// too long, its host is down or is not reached.
const OF_THE_CONNECTION: [i32; 10] = [1, 64, 71, 92, 95, 100, 101, 110, 112, 113];

/// What an `accept` gave.
#[derive(Drop)]
pub(crate) enum Accepted {
    /// A connection.
    Stream(TcpStream),
    /// None waits.
    Nothing,
    /// A connection that was aborted or that its network gave up, or the call was interrupted.
    Aborted,
    /// The system has no room for one now.
    NoRoom,
}

/// A listener, and what waits for it and for the connections.
#[derive(Drop)]
pub(crate) struct Sockets {
    poll: Poll,
    events: Events<Global>,
    // none before a `listen`
    listener: Option<TcpListener>,
    // whether a connection may wait
    is_ready: bool,
}

// Listens at the first of the addresses that can be listened at.
fn bind<R: Net>(rt: &R, address: &str) -> io::Result<TcpListener> {
    let mut last = Err(ErrorKind::InvalidInput.into());
    for found in address.to_socket_addrs(rt)? {
        last = TcpListener::bind(rt, found);
        if last.is_ok() {
            break;
        }
    }
    last
}

// What an error of `accept` says, where it is none of the listener.
fn accept_error(error: io::Error) -> io::Result<Accepted> {
    match error.kind() {
        ErrorKind::WouldBlock => Ok(Accepted::Nothing),
        ErrorKind::ConnectionAborted | ErrorKind::ConnectionReset | ErrorKind::Interrupted => {
            Ok(Accepted::Aborted)
        }
        _ => match error.raw_os_error() {
            Some(code) if NO_ROOM.contains(&code) => Ok(Accepted::NoRoom),
            Some(code) if OF_THE_CONNECTION.contains(&code) => Ok(Accepted::Aborted),
            _ => Err(error),
        },
    }
}

impl Sockets {
    /// No listener, and no connection.
    pub(crate) fn new<R: Net>(rt: &R, alloc: Global) -> io::Result<Sockets> {
        Ok(Sockets {
            poll: Poll::new(rt)?,
            events: Events::with_capacity(alloc, EVENTS_ROOM)?,
            listener: None,
            is_ready: false,
        })
    }

    /// Listens at an address, in place of the one before.
    pub(crate) fn listen<R: Net>(&mut self, rt: &R, address: &str) -> io::Result<()> {
        let mut listener = bind(rt, address)?;
        self.poll
            .registry()
            .register(&mut listener, LISTENER, Interest::READABLE)?;
        self.listener = Some(listener);
        self.is_ready = true;
        Ok(())
    }

    /// Takes no more connections.
    pub(crate) fn stop_listening(&mut self) {
        self.listener = None;
        self.is_ready = false;
    }

    /// Whether there is a listener.
    pub(crate) fn is_listening(&self) -> bool {
        self.listener.is_some()
    }

    /// Whether a connection may wait to be taken.
    pub(crate) fn is_ready(&self) -> bool {
        self.is_ready
    }

    /// The listener, if there is one.
    #[cfg(test)]
    pub(crate) fn listener(&self) -> Option<&TcpListener> {
        self.listener.as_ref()
    }

    /// Waits until something is ready, at most for so many milliseconds, and marks it in the table.
    pub(crate) fn wait(
        &mut self,
        table: &mut SocketTable<TcpStream>,
        longest: Option<u64>,
    ) -> io::Result<()> {
        self.poll
            .poll(&mut self.events, longest.map(Duration::from_millis))?;
        for event in &self.events {
            let is_readable = event.is_readable() || event.is_read_closed() || event.is_error();
            let is_writable = event.is_writable() || event.is_write_closed() || event.is_error();
            match u32::try_from(event.token().0) {
                Ok(number) => table.mark(number, is_readable, is_writable),
                Err(_) => self.is_ready = true,
            }
        }
        Ok(())
    }

    /// Takes the connection that waits, if there is one.
    pub(crate) fn accept(&mut self) -> io::Result<Accepted> {
        let Some(listener) = &self.listener else {
            return Err(ErrorKind::NotConnected.into());
        };
        let accepted = match listener.accept() {
            Ok((stream, _)) => Accepted::Stream(stream),
            Err(e) => accept_error(e)?,
        };
        if matches!(accepted, Accepted::Nothing) {
            self.is_ready = false;
        }
        Ok(accepted)
    }

    /// Has the system tell of a connection.
    pub(crate) fn register(&self, stream: &mut TcpStream, number: u32) -> io::Result<()> {
        let interests = Interest::READABLE | Interest::WRITABLE;
        self.poll
            .registry()
            .register(stream, Token(number as usize), interests)
    }
}
