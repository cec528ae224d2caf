//! The connections of the system.
ghost use Rattle.std.specs.Prelude.{◌≡◌, None};

#[cfg(test)]
mod tests;

use crate::faults::counted;
use crate::server::Server;
use crash_disk::Failed;
use event_link::{Link, LinkEvent};
use std::io;
use std::io::ErrorKind;
use std::net::Net;
use std::rt::Clock;

/// The connections that come to an address, up to 256 at once, with counts of the calls that failed. It does not tell
/// what is to come or what was sent.
///
/// Connections are numbered from 1, and after 2^32 - 1 from 0 again. Pieces come from whichever connection is ready, in
/// turn. A connection ends where its client closes it or a read of it fails, and where nothing was sent on it for 30
/// seconds after it started. Where 64 have started and nothing was sent on them, and one more comes that has something
/// to say, the one that has been silent longest is ended first, if it was silent for a second. One that comes then and
/// says nothing starts after a second. What was sent goes out as far as the system takes it, and the rest when it takes
/// more, for at most 30 seconds. Once all of a closed connection went out, its sending side is shut, and what still
/// comes is dropped until the client closes it, for at most a second.
#[derive(Drop)]
pub struct TcpLink<'a, R> {
    rt: &'a R,
    // none before a `listen`
    server: Option<Server>,
    faults: u64,
    send_faults: u64,
}

impl<'a, R: Net + Clock + AllocGlobal> TcpLink<'a, R> {
    /// The connections of this runtime, which takes none before a `listen`, and no fault so far. It takes no memory.
    pub fn new(rt: &'a R) -> TcpLink<'a, R>
        ensures faults { result.faults ≡ 0 }
        ensures send_faults { result.send_faults ≡ 0 }
    {
        TcpLink {
            rt,
            server: None,
            faults: 0,
            send_faults: 0,
        }
    }

    /// Takes no more connections, lets go those that were not answered, and waits until what was sent on the others
    /// went out and their clients have closed them, for as long as each may take: 30 seconds for an answer, and a
    /// second more.
    pub fn finish(&mut self)
        ensures faults { self.new.faults ≡ self.old.faults }
        ensures send_faults { self.new.send_faults ≡ self.old.send_faults }
    {
        if let Some(server) = &mut self.server {
            server.finish(self.rt);
        }
    }

    // Listens at an address, and makes the server where there is none.
    fn listen_at(&mut self, address: &str) -> io::Result<()>
        ensures faults { self.new.faults ≡ self.old.faults }
        ensures send_faults { self.new.send_faults ≡ self.old.send_faults }
    {
        if self.server.is_none() {
            self.server = Some(Server::new(self.rt, self.rt.alloc())?);
        }
        match &mut self.server {
            Some(server) => server.listen(self.rt, address),
            None => Err(not_listening()),
        }
    }
}

// The error where no `listen` succeeded so far.
fn not_listening() -> io::Error {
    ErrorKind::NotConnected.into()
}

impl<R: Net + Clock + AllocGlobal> Link for TcpLink<'_, R> {
    ghost shows = { λ l. record { told = None; faults = l.faults; send_faults = l.send_faults } };

    /// The address is that of an IP address or a host, with a port, as in `127.0.0.1:8080`; port 0 is any that is free.
    /// It takes the place of the one before.
    fn listen(&mut self, address: &str) -> Result<(), Failed> {
        let answer = self.listen_at(address);
        counted(answer, &mut self.faults)
    }

    /// It waits for a connection, for bytes of one, or until one has to be ended, and never gives `Stop`. It fails
    /// where no `listen` succeeded so far, or where the system takes no connection and does not only lack room. A read
    /// that fails is no fault.
    fn next(&mut self, into: &mut [u8]) -> Result<LinkEvent, Failed> {
        let answer = match &mut self.server {
            Some(server) => server.next(self.rt, into),
            None => Err(not_listening()),
        };
        counted(answer, &mut self.faults)
    }

    /// After Ok each byte has gone to the system or is kept here, behind those that were sent before it; it goes to the
    /// system as soon as that takes it, while the connection may last. It fails where the connection is not open, where
    /// the client does not take more and has said so, and where there is no memory for what the system does not take
    /// now.
    fn send(&mut self, conn: u32, bytes: &[u8]) -> Result<(), Failed> {
        let answer = match &mut self.server {
            Some(server) => server.send(self.rt, conn, bytes),
            None => Err(not_listening()),
        };
        counted(answer, &mut self.send_faults)
    }

    /// After it comes no `Ended` of this connection. It does nothing where the connection is not open. What is left to
    /// send goes on being sent.
    fn close(&mut self, conn: u32) {
        if let Some(server) = &mut self.server {
            server.close(self.rt, conn);
        }
    }

    fn faults(&self) -> u64 {
        self.faults
    }

    fn send_faults(&self) -> u64 {
        self.send_faults
    }
}
