//! What was sent on each connection.
ghost use Rattle.std.specs.Prelude.{◌≡◌, [], OnErr, OnOk};
ghost use Rattle.event_link.specs.Links.{IsPut};
ghost use Rattle.event_link.specs.InMemory.{sent_on};

use owned_values::{Blob, NoMemory};
use std::alloc::Global;
use std::collections::BTreeMap;
use std::marker::Model;

/// What was sent on each connection, in the order of their numbers.
#[derive(Debug, Drop)]
pub struct Outbox {
    alloc: Global,
    sent: BTreeMap<u32, Blob>,
}

impl Model for Outbox {
    ghost use Rattle.std.specs.Prelude.{List, ℕ};

    ghost Value = { List (ℕ × List ℕ) };

    ghost view = { λ o. o.sent.entries };
}

impl Outbox {
    /// Nothing was sent. It takes no memory.
    pub fn new(alloc: Global) -> Outbox
        ensures { result ≡ [] }
    {
        Outbox {
            alloc,
            sent: BTreeMap::new(alloc),
        }
    }

    /// What was sent on a connection.
    pub fn bytes(&self, conn: u32) -> &[u8]
        ensures { result.now ≡ sent_on self.now conn }
    {
        match self.sent.get(&conn) {
            Some(bytes) => bytes.as_slice(),
            None => &[],
        }
    }

    /// Puts bytes behind what was sent on a connection. Where there is no memory, all is as it was.
    pub fn put(&mut self, conn: u32, bytes: &[u8]) -> Result<(), NoMemory>
        ensures ok { OnOk result (IsPut conn bytes.now (sent_on self.old) (sent_on self.new)) }
        ensures err { OnErr result (self.new ≡ self.old) }
    {
        if let Some(sent) = self.sent.get_mut(&conn) {
            return sent.push(bytes);
        }
        let bytes = Blob::of(self.alloc, bytes)?;
        self.sent.insert(conn, bytes)?;
        Ok(())
    }
}
