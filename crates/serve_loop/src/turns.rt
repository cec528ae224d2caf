//! What serving does at an event.
ghost use Rattle.std.specs.Prelude.{◌≡◌, ◌≢◌, ◌≤◌, List, ◌∷◌, [], IsSomeAnd, IsTrue, IfOk, IfSome, OnErr, MatchBool};
ghost use Rattle.std.specs.Prelude.{None, Some, Err, length};
ghost use Rattle.std.specs.FinMap as map;
ghost use Rattle.std.specs.Option.{option_map};
ghost use Rattle.crash_disk.specs.Counts.{CountsFaults};
ghost use Rattle.crash_disk.specs.Moments.{LeavesOnly};
ghost use Rattle.http_wire.specs.Answers.{is_fixed, fixed};
ghost use Rattle.http_wire.specs.Requests.{Whole, Reads};
ghost use Rattle.http_wire.specs.Views.{answer_bytes};
ghost use Rattle.conn_table.specs.Answers.{IsWholeRequest};
ghost use Rattle.conn_table.specs.Events.{Started, Piece};
ghost use Rattle.event_link.specs.Links.{NextFailed, noted};
ghost use Rattle.serve_loop.specs.Worlds.{World, HasBytes, IsAnswered, GoesOut, IsNext};
ghost use Rattle.serve_loop.specs.Turns.{Asked, Turn, event_at, LetsGo, Asks, Answers, Does};
ghost use Rattle.serve_loop.specs.Serving.{Serves, MightLeave, CountsLinkFaults};
ghost use Rattle.serve_loop.specs.Held.{world_in, SameObjects, OthersStay};

use crate::codes::{NO_MEMORY, TABLE_FULL};
use crate::{Node, PIECE_ROOM, ServeFault, Served};
use conn_table::{Conns, Progress, Start};
use crash_disk::{Disk, Failed};
use event_link::{Clock, Link, LinkEvent, laws};
use http_wire::{Answer, FIXED_ROOM, put_fixed};
use saml_time::LAST;

/// The connections that are kept, and what serving works on.
#[derive(Drop)]
pub(crate) struct Serving<'t, 'n, 'l, 'd, 'c, N, L, D, C> {
    pub(crate) conns: &'t mut Conns,
    pub(crate) node: &'n mut N,
    pub(crate) link: &'l mut L,
    pub(crate) disk: &'d mut D,
    pub(crate) clock: &'c mut C,
}

impl<N: Node, L: Link, D: Disk, C: Clock> Serving<'_, '_, '_, '_, '_, N, L, D, C> {
    /// Sends all bytes of an answer on a connection, and closes it. A `send` that fails ends this connection alone.
    fn send(&mut self, conn: u32, bytes: &[u8])
        ensures sends { GoesOut conn bytes.now (L.shows self.old.link.now).told (L.shows self.new.link.now).told
            (L.shows self.old.link.now).send_faults (L.shows self.new.link.now).send_faults }
        ensures faults { (L.shows self.new.link.now).faults ≡ (L.shows self.old.link.now).faults }
        ensures conns { self.new.conns.now ≡ self.old.conns.now }
        ensures others { OthersStay self.old self.new }
    {
        let _ = self.link.send(conn, bytes);
        self.link.close(conn);
    }

    /// Sends the page of a code on a connection, and closes it.
    fn send_page(&mut self, conn: u32, code: u16)
        requires { IsTrue (is_fixed code) }
        ensures sends { GoesOut conn (fixed code) (L.shows self.old.link.now).told (L.shows self.new.link.now).told
            (L.shows self.old.link.now).send_faults (L.shows self.new.link.now).send_faults }
        ensures faults { (L.shows self.new.link.now).faults ≡ (L.shows self.old.link.now).faults }
        ensures conns { self.new.conns.now ≡ self.old.conns.now }
        ensures others { OthersStay self.old self.new }
    {
        let mut page = [0; FIXED_ROOM];
        let end = put_fixed(code, &mut page);
        self.send(conn, &page[..end]);
    }

    /// Sends an answer on a connection, and closes it.
    fn send_answer(&mut self, conn: u32, answer: &Answer)
        requires { HasBytes answer.now }
        ensures sends { GoesOut conn (answer_bytes answer.now) (L.shows self.old.link.now).told (L.shows
            self.new.link.now).told (L.shows self.old.link.now).send_faults (L.shows self.new.link.now).send_faults }
        ensures faults { (L.shows self.new.link.now).faults ≡ (L.shows self.old.link.now).faults }
        ensures conns { self.new.conns.now ≡ self.old.conns.now }
        ensures others { OthersStay self.old self.new }
    {
        match answer {
            Answer::Fixed(code) => self.send_page(conn, *code),
            Answer::Full(bytes) => self.send(conn, bytes.as_slice()),
        }
    }

    /// A connection started: where it was kept it had ended.
    fn start(&mut self, conn: u32)
        ensures does { (turn : Turn _) × (event_at turn ≡ Started conn)
            × Does (IsAnswered N.rules) self.old.conns.now (world_in D.shows L.shows C.to_come self.old)
            turn self.new.conns.now (world_in D.shows L.shows C.to_come self.new) }
        ensures faults { (L.shows self.new.link.now).faults ≡ (L.shows self.old.link.now).faults }
        ensures others { OthersStay self.old self.new }
    {
        self.conns.gone(conn);
        match self.conns.started(conn) {
            Start::Taken => {}
            Start::TableFull => self.send_page(conn, TABLE_FULL),
            Start::NoMemory => self.send_page(conn, NO_MEMORY),
        }
    }

    /// Sends the page of a code on a connection, and lets it go.
    fn refuse(&mut self, conn: u32, code: u16)
        requires { IsTrue (is_fixed code) }
        ensures lets_go { LetsGo conn code self.old.conns.now (world_in D.shows L.shows C.to_come self.old)
            self.new.conns.now (world_in D.shows L.shows C.to_come self.new) }
        ensures faults { (L.shows self.new.link.now).faults ≡ (L.shows self.old.link.now).faults }
        ensures others { OthersStay self.old self.new }
    {
        self.send_page(conn, code);
        self.conns.gone(conn);
    }

    /// Lets the node answer the request that a connection has brought, at one moment.
    fn ask(&mut self, conn: u32) -> Answer
        requires whole { IsSomeAnd (map.get self.old.conns.now conn) IsWholeRequest }
        requires own { N.rules.own self.old.node.now (D.shows self.old.disk.now).told }
        ensures asked { (asked : Asked _) × (asked.conn ≡ conn) × (asked.answer ≡ result)
            × IfSome (map.get self.old.conns.now conn) (λ bytes. Reads bytes (Whole asked.request))
            × Asks (IsAnswered N.rules) asked (world_in D.shows L.shows C.to_come self.old)
            (world_in D.shows L.shows C.to_come self.new) × LeavesOnly D.shows self.old.disk.now self.new.disk.now
            (N.rules.leaves asked.node asked.disk asked.request asked.now) }
        ensures has_bytes { HasBytes result }
        ensures own { N.rules.own self.new.node.now (D.shows self.new.disk.now).told }
        ensures disk_faults { (D.shows self.old.disk.now).faults ≤ (D.shows self.new.disk.now).faults }
        ensures link { self.new.link.now ≡ self.old.link.now }
        ensures conns { self.new.conns.now ≡ self.old.conns.now }
        ensures objects { SameObjects self.old self.new }
    {
        let now = self.clock.now().min(LAST);
        self.node.answer(&self.conns.request(conn), now, self.disk)
    }

    /// Answers the request that a connection has brought, and lets it go.
    fn answer(&mut self, conn: u32)
        requires whole { IsSomeAnd (map.get self.old.conns.now conn) IsWholeRequest }
        requires own { N.rules.own self.old.node.now (D.shows self.old.disk.now).told }
        ensures answers { (asked : Asked _) × (asked.conn ≡ conn) × Answers (IsAnswered N.rules)
            self.old.conns.now (world_in D.shows L.shows C.to_come self.old) asked self.new.conns.now
            (world_in D.shows L.shows C.to_come self.new) × LeavesOnly D.shows self.old.disk.now self.new.disk.now
            (N.rules.leaves asked.node asked.disk asked.request asked.now) }
        ensures own { N.rules.own self.new.node.now (D.shows self.new.disk.now).told }
        ensures disk_faults { (D.shows self.old.disk.now).faults ≤ (D.shows self.new.disk.now).faults }
        ensures faults { (L.shows self.new.link.now).faults ≡ (L.shows self.old.link.now).faults }
        ensures objects { SameObjects self.old self.new }
    {
        let answer = self.ask(conn);
        self.send_answer(conn, &answer);
        self.conns.gone(conn);
    }

    /// A connection has brought a piece.
    fn piece(&mut self, conn: u32, bytes: &[u8])
        requires { N.rules.own self.old.node.now (D.shows self.old.disk.now).told }
        ensures does { (turn : Turn _) × (event_at turn ≡ Piece conn bytes.now)
            × Does (IsAnswered N.rules) self.old.conns.now (world_in D.shows L.shows C.to_come self.old)
            turn self.new.conns.now (world_in D.shows L.shows C.to_come self.new) × LeavesOnly D.shows
            self.old.disk.now self.new.disk.now (MightLeave N.rules.leaves (D.shows self.old.disk.now).told (turn ∷ [])) }
        ensures own { N.rules.own self.new.node.now (D.shows self.new.disk.now).told }
        ensures disk_faults { (D.shows self.old.disk.now).faults ≤ (D.shows self.new.disk.now).faults }
        ensures faults { (L.shows self.new.link.now).faults ≡ (L.shows self.old.link.now).faults }
        ensures objects { SameObjects self.old self.new }
    {
        match self.conns.piece(conn, bytes) {
            Progress::Waiting | Progress::Unknown => {}
            Progress::Ready => self.answer(conn),
            Progress::Refused(status) => self.refuse(conn, status),
            Progress::NoMemory => self.refuse(conn, NO_MEMORY),
        }
    }

    /// Takes the next event, and does what is to be done at it. It answers whether there was one: false at Stop.
    pub(crate) fn turn(&mut self, into: &mut [u8]) -> Result<bool, Failed>
        requires room { length into.old ≡ PIECE_ROOM }
        requires own { N.rules.own self.old.node.now (D.shows self.old.disk.now).told }
        ensures ok { IfOk result (λ more. MatchBool more ((turn : Turn _)
            × (given : World _) × IsNext (Some (event_at turn)) (world_in D.shows L.shows C.to_come self.old) given
            × Does (IsAnswered N.rules) self.old.conns.now given turn self.new.conns.now (world_in D.shows
            L.shows C.to_come self.new) × LeavesOnly D.shows self.old.disk.now self.new.disk.now (MightLeave N.rules.leaves
            (D.shows self.old.disk.now).told (turn ∷ []))) (IsNext None (world_in D.shows L.shows C.to_come self.old)
            (world_in D.shows L.shows C.to_come self.new) × (self.new.disk.now ≡ self.old.disk.now))) }
        ensures err { OnErr result ((world_in D.shows L.shows C.to_come
            self.new ≡ record (world_in D.shows L.shows C.to_come self.old)
            { link = option_map (noted NextFailed) (L.shows self.old.link.now).told }) × (self.new.disk.now ≡ self.old.disk.now)) }
        ensures own { N.rules.own self.new.node.now (D.shows self.new.disk.now).told }
        ensures disk_faults { (D.shows self.old.disk.now).faults ≤ (D.shows self.new.disk.now).faults }
        ensures faults { CountsFaults result (L.shows self.old.link.now).faults (L.shows self.new.link.now).faults }
        ensures objects { SameObjects self.old self.new }
    {
        laws::the_bytes_of_a_piece_lie_in_front();
        match self.link.next(into)? {
            LinkEvent::Started(conn) => {
                self.start(conn);
                Ok(true)
            }
            LinkEvent::Piece(conn, count) => {
                self.piece(conn, &into[..count]);
                Ok(true)
            }
            LinkEvent::Ended(conn) => {
                self.conns.gone(conn);
                Ok(true)
            }
            LinkEvent::Stop => Ok(false),
        }
    }

    /// Takes events until Stop, or until as many were taken as the budget has.
    pub(crate) fn run(&mut self, into: &mut [u8], budget: u64) -> Result<Served, ServeFault>
        requires room { length into.old ≡ PIECE_ROOM }
        requires none_kept { self.old.conns.now ≡ map.empty }
        requires own { N.rules.own self.old.node.now (D.shows self.old.disk.now).told }
        ensures serves { (turns : List (Turn _)) × Serves (IsAnswered N.rules) N.rules.leaves
            (D.shows self.new.disk.now).left_since budget turns (world_in D.shows L.shows C.to_come self.old) result
            (world_in D.shows L.shows C.to_come self.new) × LeavesOnly D.shows self.old.disk.now self.new.disk.now
            (MightLeave N.rules.leaves (D.shows self.old.disk.now).told turns) }
        ensures own { N.rules.own self.new.node.now (D.shows self.new.disk.now).told }
        ensures disk_faults { (D.shows self.old.disk.now).faults ≤ (D.shows self.new.disk.now).faults }
        ensures link_faults { CountsLinkFaults result
            (L.shows self.old.link.now).faults (L.shows self.new.link.now).faults }
        ensures memory { result ≢ Err ServeFault.NoMemory }
        ensures objects { SameObjects self.old self.new }
    {
        for events in 0..budget {
            if !self.turn(into)? {
                return Ok(Served {
                    events,
                    stopped: true,
                });
            }
        }
        Ok(Served {
            events: budget,
            stopped: false,
        })
    }
}
