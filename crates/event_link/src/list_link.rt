//! A link in memory.
ghost use Rattle.std.specs.Prelude.{◌≡◌, ◌↔◌, ◌<◌, [], ◌∷◌, ◌++◌, None, Some, length, IfOk, IsErr, IsOk, OnErr, OnOk};
ghost use Rattle.std.specs.Option.{option_map};
ghost use Rattle.crash_disk.specs.Counts.{CountsFaults};
ghost use Rattle.event_link.specs.Links.{Fits, Gives, Sends, closed_on, listened, next_of};
ghost use Rattle.event_link.specs.InMemory.{shown_by_list, GoesWith, arrival_of, sent_on, state_of, nearer, failed};

use crate::closings::Closings;
use crate::faults::Faults;
use crate::outbox::Outbox;
use crate::queue::Queue;
use crate::{Link, LinkEvent};
use crash_disk::Failed;
use owned_values::{NoMemory, Text};
use std::alloc::Global;
use std::marker::Model;

/// A link that gives the events of a list and then Stop, and keeps what is sent, where it listens and what was closed
/// last. It does not tell its calls. One call of `next` and one of `send` may be chosen to fail.
#[derive(Debug, Drop)]
pub struct ListLink {
    alloc: Global,
    queue: Queue,
    outbox: Outbox,
    address: Option<Text>,
    closings: Closings,
    nexts: Faults,
    sends: Faults,
}

impl Model for ListLink {
    ghost use Rattle.event_link.specs.InMemory.{LinkInMemory};

    ghost Value = { LinkInMemory };

    ghost view = { λ l. record { coming = l.queue; sent = l.outbox; address = l.address; closings = l.closings; nexts = l.nexts; sends = l.sends } };
}

impl ListLink {
    /// Nothing is to come, nothing was sent or closed, it listens nowhere, no call is to fail, and none did. It takes no
    /// memory.
    pub fn new(alloc: Global) -> ListLink
        ensures { result ≡ record {
          coming = [];
          sent = [];
          address = None;
          closings = record { count = 0; last = 0; behind = 0 };
          nexts = record { chosen = 0; count = 0 };
          sends = record { chosen = 0; count = 0 };
        } }
    {
        ListLink {
            alloc,
            queue: Queue::new(alloc),
            outbox: Outbox::new(alloc),
            address: None,
            closings: Closings::new(),
            nexts: Faults::new(),
            sends: Faults::new(),
        }
    }

    /// Adds an event behind those to come. The bytes are those of a piece, as many as it says and at least one, else
    /// none. Where there is no memory, all is as it was.
    pub fn add(&mut self, event: LinkEvent, bytes: &[u8]) -> Result<(), NoMemory>
        requires { GoesWith event bytes.now }
        ensures ok { OnOk result (self.new ≡ record self.old { coming = self.old.coming ++ arrival_of event bytes.now ∷ [] }) }
        ensures err { OnErr result (self.new ≡ self.old) }
    {
        self.queue.add(event, bytes)
    }

    /// Lets the `k`-th call of `next` from now fail; with 0 none is chosen. It replaces the choice of an earlier
    /// `fail_next`. It takes no memory, and never answers `NoMemory`.
    pub fn fail_next(&mut self, k: u64) -> Result<(), NoMemory>
        ensures ok { IsOk result }
        ensures chosen { self.new ≡ record self.old { nexts = record self.old.nexts { chosen = k } } }
    {
        self.nexts.chosen = k;
        Ok(())
    }

    /// Lets the `k`-th call of `send` from now fail; with 0 none is chosen. It replaces the choice of an earlier
    /// `fail_send`. It takes no memory, and never answers `NoMemory`.
    pub fn fail_send(&mut self, k: u64) -> Result<(), NoMemory>
        ensures ok { IsOk result }
        ensures chosen { self.new ≡ record self.old { sends = record self.old.sends { chosen = k } } }
    {
        self.sends.chosen = k;
        Ok(())
    }

    /// All that was sent on a connection, as one.
    pub fn sent(&self, conn: u32) -> &[u8]
        ensures { result.now ≡ sent_on self.now.sent conn }
    {
        self.outbox.bytes(conn)
    }
}

impl Link for ListLink {
    ghost shows = { shown_by_list };

    /// It fails only where there is no memory for the address.
    fn listen(&mut self, address: &str) -> Result<(), Failed>
        ensures listens { Some (state_of self.new) ≡ listened address.now result (Some (state_of self.old)) }
        ensures faults { CountsFaults result self.old.nexts.count self.new.nexts.count }
        ensures send_faults { self.new.sends.count ≡ self.old.sends.count }

        // Only the address changes, and after Failed the faults alone.
        ensures ok { OnOk result (self.new ≡ record self.old { address = Some address.now }) }
        ensures err { OnErr result (self.new ≡ record self.old { nexts = self.new.nexts }) }
    {
        let _count = self.nexts.count;
        match Text::of(self.alloc, address) {
            Ok(address) => {
                self.address = Some(address);
                Ok(())
            }
            Err(_) => Err(self.nexts.fail()),
        }
    }

    /// It takes no memory, and fails at the chosen call alone. It costs the bytes that it gives.
    fn next(&mut self, into: &mut [u8]) -> Result<LinkEvent, Failed>
        requires { 0 < length into.old }
        ensures fits { IfOk result (λ event. Fits event (length into.old)) }
        ensures gives { Gives (Some (state_of self.old)) into.old result into.new (Some (state_of self.new)) }
        ensures faults { CountsFaults result self.old.nexts.count self.new.nexts.count }
        ensures send_faults { self.new.sends.count ≡ self.old.sends.count }

        // It fails at the chosen call, and at no other.
        ensures chosen { IsErr result ↔ (self.old.nexts.chosen ≡ 1) }
        ensures ok { OnOk result (self.new ≡ record self.old { coming = (next_of (length into.old) self.old.coming).later; nexts = nearer self.old.nexts }) }
        ensures err { OnErr result (self.new ≡ record self.old { nexts = failed self.old.nexts }) }
        ensures unread { OnErr result (into.new ≡ into.old) }
    {
        if self.nexts.begin() {
            return Err(self.nexts.fail());
        }
        Ok(self.queue.next(into))
    }

    /// Besides the chosen call one fails that finds no memory. Of a call that fails nothing goes out. It costs its bytes
    /// and a look-up of the connection.
    fn send(&mut self, conn: u32, bytes: &[u8]) -> Result<(), Failed>
        ensures sends { Sends conn bytes.now (Some (state_of self.old)) result (Some (state_of self.new)) }
        ensures faults { self.new.nexts.count ≡ self.old.nexts.count }
        ensures send_faults { CountsFaults result self.old.sends.count self.new.sends.count }

        // The chosen call fails. Only what was sent changes, and the calls and faults of `send`.
        ensures chosen { self.old.sends.chosen ≡ 1 → IsErr result }
        ensures ok { OnOk result (self.new ≡ record self.old { sent = self.new.sent; sends = nearer self.old.sends }) }
        ensures err { OnErr result (self.new ≡ record self.old { sends = failed self.old.sends }) }
    {
        if self.sends.begin() || self.outbox.put(conn, bytes).is_err() {
            return Err(self.sends.fail());
        }
        Ok(())
    }

    /// It takes no memory. It costs a look-up of the connection.
    fn close(&mut self, conn: u32)
        ensures closes { Some (state_of self.new) ≡ option_map (closed_on conn) (Some (state_of self.old)) }
        ensures faults { self.new.nexts.count ≡ self.old.nexts.count }
        ensures send_faults { self.new.sends.count ≡ self.old.sends.count }

        // Nothing changes but what was closed last.
        ensures only { self.new ≡ record self.old { closings = self.new.closings } }
    {
        let behind = self.outbox.bytes(conn).len();
        self.closings.note(conn, behind);
    }

    fn faults(&self) -> u64 {
        self.nexts.count
    }

    fn send_faults(&self) -> u64 {
        self.sends.count
    }
}
