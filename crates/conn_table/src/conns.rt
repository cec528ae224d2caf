//! The table of connections.
ghost use Rattle.std.specs.Prelude.{◌≡◌, ◌≢◌, ℕ, ◌≤◌, ◌↔◌, IfOk, IfSome, IfNone, None, IsSomeAnd, IsTrue};
ghost use Rattle.std.specs.FinMap as map;
ghost use Rattle.slab.specs.Slab.{get};
ghost use Rattle.http_wire.specs.Requests.{Reads, Whole};
ghost use Rattle.http_wire.specs.Views.{request_view};
ghost use Rattle.conn_table.specs.Answers.{IsWholeRequest};
ghost use Rattle.conn_table.specs.Calls.{IsStarted, TakesPiece};
ghost use Rattle.conn_table.specs.Kept.{Kept};

use crate::connection::Connection;
use crate::limits::CONNECTION_LIMIT;
use crate::progress::{Progress, Start};
use http_wire::HttpRequest;
use owned_values::NoMemory;
use slab::Slab;
use std::alloc::Global;
use std::marker::Model;

/// The connections that are kept, at most [`CONNECTION_LIMIT`]. A contract sees a map from the number of each to all bytes that
/// it has brought since it was started. The numbers are the caller's.
#[derive(Drop)]
pub struct Conns {
    connections: Slab<Connection>,
    alloc: Global,
}

impl Model for Conns {
    ghost use Rattle.std.specs.Ordering.{nat_cmp};
    ghost use Rattle.std.specs.FinMap as map;
    ghost use Rattle.std.specs.Coded.{coded_ℕ, coded_list};
    ghost use Rattle.std.specs.Prelude.{ℕ, List};
    ghost use Rattle.conn_table.specs.Kept.{table_of, IsSound};

    ghost Value = { map.FinMap nat_cmp (List ℕ) };

    ghost coded = { map.code coded_ℕ (coded_list coded_ℕ) };

    ghost view = { λ c. table_of c.connections.slots };

    ghost invariant = { λ c. IsSound c.connections };
}

/// The key of a connection.
fn key_of(connections: &Slab<Connection>, conn: u32) -> Option<usize>
    ensures found { IfSome result (λ key. IsSomeAnd (get connections.now key) (λ kept. kept.conn ≡ conn)) }
    ensures absent { IfNone result ((key : ℕ) (kept : Kept) → get connections.now key ≡ Some kept → kept.conn ≢ conn) }
{
    for (key, connection) in connections.iter() {
        if connection.is(conn) {
            return Some(key);
        }
    }
    None
}

impl Conns {
    /// A table that keeps no connection, with room for [`CONNECTION_LIMIT`] of them, but for their bytes.
    pub fn new(alloc: Global) -> Result<Conns, NoMemory>
        ensures { IfOk result (λ conns. conns ≡ map.empty) }
    {
        let connections = Slab::with_capacity(alloc, CONNECTION_LIMIT)?;
        Ok(Conns { connections, alloc })
    }

    /// Whether as many connections are kept as there may be.
    fn is_full(&self) -> bool
        ensures { IsTrue result ↔ (CONNECTION_LIMIT ≤ map.len self.now) }
    {
        self.connections.len() >= CONNECTION_LIMIT
    }

    /// A connection was started, whose number is not that of one that is kept: [`Start::TableFull`] exactly where
    /// [`CONNECTION_LIMIT`] are kept. Unless it is taken, the table is as it was.
    pub fn started(&mut self, conn: u32) -> Start
        requires { map.get self.old conn ≡ None }
        ensures { IsStarted self.old conn result self.new }
    {
        if self.is_full() {
            return Start::TableFull;
        }
        if self.connections.reserve(1).is_err() {
            return Start::NoMemory;
        }
        self.connections
            .insert_reserved(Connection::new(self.alloc, conn));
        Start::Taken
    }

    /// A connection has brought a piece: the answer is what `request_of` gives of all its bytes, and [`Progress::Unknown`]
    /// exactly where it is not kept. The other connections are as they were, and after [`Progress::NoMemory`] this one too.
    pub fn piece(&mut self, conn: u32, bytes: &[u8]) -> Progress
        ensures { TakesPiece self.old conn bytes.now result self.new }
    {
        let Some(key) = key_of(&self.connections, conn) else {
            return Progress::Unknown;
        };
        match self.connections.get_mut(key) {
            Some(connection) => connection.take(bytes),
            None => unreachable!(),
        }
    }

    /// The request that a connection has brought, for one whose bytes are a whole request, as after [`Progress::Ready`]. It
    /// takes no memory.
    pub fn request(&self, conn: u32) -> HttpRequest<'_>
        requires { IsSomeAnd (map.get self.now conn) IsWholeRequest }
        ensures { IfSome (map.get self.now conn) (λ bytes. Reads bytes (Whole (request_view result))) }
    {
        let Some(key) = key_of(&self.connections, conn) else {
            unreachable!()
        };
        self.connections[key].request()
    }

    /// A connection is kept no more, if it was. The others are as they were. It takes no memory.
    pub fn gone(&mut self, conn: u32)
        ensures { self.new ≡ map.remove self.old conn }
    {
        if let Some(key) = key_of(&self.connections, conn) {
            self.connections.remove(key);
        }
    }
}
