// A node with its disk, and the connections that it keeps.

ghost use Rattle.std.specs.Prelude.{◌≡◌, Option, Result, Some, None, Err, IfOk, OnOk, IsSomeAnd, IfSome, IsTrue, min, codes};
ghost use Rattle.std.specs.FinMap as map;
ghost use Rattle.std.specs.Option.{option_map};
ghost use Rattle.post_agent.specs.Views.{text_view};
ghost use Rattle.crash_disk.specs.Memory.{state_of};
ghost use Rattle.gate_journal.specs.declared.fault.OpenFault.{OpenFault};
ghost use Rattle.http_wire.specs.Requests.{Whole, Reads};
ghost use Rattle.http_wire.specs.Answers.{fixed, is_fixed};
ghost use Rattle.http_wire.specs.Views.{answer_bytes};
ghost use Rattle.conn_table.specs.Answers.{IsWholeRequest};
ghost use Rattle.serve_loop.specs.Turns.{Taken, Asked, Asks, Answers};
ghost use Rattle.serve_loop.specs.Worlds.{HasBytes, IsAnswered};
ghost use Rattle.schedule_replay.specs.Hosts.{Serves, Takes, Restarts, Compacts, Recovers, Brings, Known, Sent, Leaving, world_of, without_connections};
ghost use Rattle.schedule_replay.specs.Lines.{result_words};
ghost use Rattle.schedule_replay.specs.Views.{host_in, outcome_view, SameHost};

use conn_table::{Conns, Progress, Start};
use crash_disk::MemDisk;
use gate_journal::OpenFault;
use http_wire::{Answer, FIXED_ROOM, put_fixed};
use owned_values::{Blob, NoMemory, Text};
use saml_time::LAST;
use serve_loop::Node;
use std::alloc::Global;

/// What a node sends on a connection.
#[derive(Debug, Drop)]
pub(crate) struct Reply {
    /// The path that was asked for, where it was a request.
    pub(crate) path: Option<Text>,
    pub(crate) bytes: Blob,
}

/// The page of a code, with its head.
fn page_of(alloc: Global, code: u16) -> Result<Blob, NoMemory>
    requires { IsTrue (is_fixed code) }
    ensures { IfOk result (λ bytes. bytes ≡ fixed code) }
{
    let mut out = [0; FIXED_ROOM];
    let end = put_fixed(code, &mut out);
    Blob::of(alloc, &out[..end])
}

/// The bytes of an answer.
fn bytes_of(alloc: Global, answer: Answer) -> Result<Blob, NoMemory>
    requires { HasBytes answer }
    ensures { IfOk result (λ bytes. bytes ≡ answer_bytes answer) }
{
    match answer {
        Answer::Fixed(code) => page_of(alloc, code),
        Answer::Full(bytes) => Ok(bytes),
    }
}

/// A node, its disk, and its connections.
#[derive(Drop)]
pub(crate) struct HeldHost<'n, 'd, N> {
    pub(crate) node: &'n mut N,
    pub(crate) disk: &'d mut MemDisk,
    pub(crate) conns: &'d mut Conns,
}

impl<N: Node> HeldHost<'_, '_, N> {
    /// Lets all connections go.
    pub(crate) fn disconnect(&mut self, alloc: Global) -> Result<(), NoMemory>
        ensures ok { OnOk result (host_in self.new ≡ without_connections (host_in self.old)) }
        ensures node { self.new.node.now ≡ self.old.node.now }
        ensures disk { self.new.disk.now ≡ self.old.disk.now }
        ensures objects { SameHost self.old self.new }
    {
        *self.conns = Conns::new(alloc)?;
        Ok(())
    }

    /// A connection starts. There is room: a step has two at most.
    pub(crate) fn start(&mut self, conn: u32, now: u64) -> Result<(), NoMemory>
        ensures ok { OnOk result
            (Serves N.rules now
            (Taken conn) (host_in self.old) (host_in self.new)) }
        ensures node { self.new.node.now ≡ self.old.node.now }
        ensures disk { self.new.disk.now ≡ self.old.disk.now }
        ensures objects { SameHost self.old self.new }
    {
        self.conns.gone(conn);
        match self.conns.started(conn) {
            Start::Taken => Ok(()),
            Start::TableFull | Start::NoMemory => Err(NoMemory),
        }
    }

    /// Asks the node for the answer to the request that a connection has brought; it comes with the request's path.
    fn ask(&mut self, alloc: Global, conn: u32, now: u64) -> Result<(Text, Answer), NoMemory>
        requires whole { IsSomeAnd (map.get self.old.conns.now conn) IsWholeRequest }
        requires own { N.rules.own self.old.node.now (Some (state_of self.old.disk.now)) }
        ensures asked { IfOk result
            (λ (path, answer). (asked : Asked _) × (asked.conn ≡ conn) × (asked.answer ≡ answer) ×
            (asked.request.path ≡ path)
            × IfSome (map.get self.old.conns.now conn) (λ bytes. Reads bytes (Whole asked.request))
            × Asks (IsAnswered N.rules) asked (world_of now (host_in self.old))
            (world_of now (host_in self.new))
            × Leaving (host_in self.old) (host_in self.new)
            (N.rules.leaves asked.node asked.disk asked.request asked.now)) }
        ensures has_bytes { IfOk result (λ (path, answer). HasBytes answer) }
        ensures own { N.rules.own self.new.node.now (Some (state_of self.new.disk.now)) }
        ensures conns { self.new.conns.now ≡ self.old.conns.now }
        ensures objects { SameHost self.old self.new }
    {
        let request = self.conns.request(conn);
        let path = Text::of(alloc, request.path)?;
        let answer = self.node.answer(&request, now.min(LAST), self.disk);
        Ok((path, answer))
    }

    /// Answers the request that a connection has brought, and lets the connection go.
    fn answer(&mut self, alloc: Global, conn: u32, now: u64) -> Result<Reply, NoMemory>
        requires whole { IsSomeAnd (map.get self.old.conns.now conn) IsWholeRequest }
        requires own { N.rules.own self.old.node.now (Some (state_of self.old.disk.now)) }
        ensures answers { IfOk result (λ reply. (asked : Asked _) × (asked.conn ≡ conn)
            × (outcome_view (Some reply) ≡ Sent (Some asked.request.path) (answer_bytes asked.answer))
            × Answers (IsAnswered N.rules) self.old.conns.now
            (world_of now (host_in self.old)) asked self.new.conns.now (world_of now (host_in self.new))
            × Leaving (host_in self.old) (host_in self.new)
            (N.rules.leaves asked.node asked.disk asked.request asked.now)) }
        ensures own { N.rules.own self.new.node.now (Some (state_of self.new.disk.now)) }
        ensures objects { SameHost self.old self.new }
    {
        let (path, answer) = self.ask(alloc, conn, now)?;
        let bytes = bytes_of(alloc, answer)?;
        self.conns.gone(conn);
        Ok(Reply {
            path: Some(path),
            bytes,
        })
    }

    /// Refuses what a connection has brought, and lets the connection go.
    fn refuse(&mut self, alloc: Global, conn: u32, status: u16) -> Result<Reply, NoMemory>
        requires { IsTrue (is_fixed status) }
        ensures page { IfOk result (λ reply. outcome_view (Some reply) ≡ Sent None (fixed status)) }
        ensures gone { OnOk result (self.new.conns.now ≡ map.remove self.old.conns.now conn) }
        ensures node { self.new.node.now ≡ self.old.node.now }
        ensures disk { self.new.disk.now ≡ self.old.disk.now }
        ensures objects { SameHost self.old self.new }
    {
        let bytes = page_of(alloc, status)?;
        self.conns.gone(conn);
        Ok(Reply { path: None, bytes })
    }

    /// A connection brings a piece; what the node sends then, where it sends something.
    pub(crate) fn take(
        &mut self,
        alloc: Global,
        conn: u32,
        piece: &[u8],
        now: u64,
    ) -> Result<Option<Reply>, NoMemory>
        requires { N.rules.own self.old.node.now (Some (state_of self.old.disk.now)) }
        ensures takes { IfOk result
            (λ reply. Takes N.rules now conn piece.now (host_in self.old) (outcome_view reply) (host_in self.new)) }
        ensures own { N.rules.own self.new.node.now (Some (state_of self.new.disk.now)) }
        ensures objects { SameHost self.old self.new }
    {
        match self.conns.piece(conn, piece) {
            Progress::Waiting | Progress::Unknown => Ok(None),
            Progress::Ready => Ok(Some(self.answer(alloc, conn, now)?)),
            Progress::Refused(status) => Ok(Some(self.refuse(alloc, conn, status)?)),
            Progress::NoMemory => Err(NoMemory),
        }
    }

    /// Starts the node from what its disk holds; how that ended, in a word.
    fn restart(&mut self, alloc: Global) -> Result<&'static str, NoMemory>
        requires own { N.rules.own self.old.node.now (Some (state_of self.old.disk.now)) }
        ensures restarts { IfOk result
            (λ shown. (outcome : Result (Unit {0}) OpenFault)
            × (shown.now ≡ result_words (codes "restart") outcome) × Restarts N.rules
            (host_in self.old) outcome (host_in self.new)) }
        ensures own { N.rules.own self.new.node.now (Some (state_of self.new.disk.now)) }
        ensures objects { SameHost self.old self.new }
    {
        let shown = match self.node.restart(self.disk) {
            Ok(()) => "restart",
            Err(OpenFault::DiskFault) => "down",
            Err(OpenFault::Foreign { .. }) => "foreign",
            Err(OpenFault::NoMemory) => return Err(NoMemory),
        };
        self.disconnect(alloc)?;
        Ok(shown)
    }

    /// Starts a disk again that stopped, and then the node.
    fn recover(&mut self, alloc: Global) -> Result<(), NoMemory>
        requires own { N.rules.own self.old.node.now (Some (state_of self.old.disk.now)) }
        ensures recovers { OnOk result
            (Recovers N.rules (host_in self.old) (host_in self.new)) }
        ensures own { N.rules.own self.new.node.now (Some (state_of self.new.disk.now)) }
        ensures objects { SameHost self.old self.new }
    {
        self.disk.restart();
        self.restart(alloc)?;
        Ok(())
    }

    /// What a piece comes to: none where the disk stopped, and else what the node sends, where it sends something.
    pub(crate) fn bring(
        &mut self,
        alloc: Global,
        conn: u32,
        piece: &[u8],
        now: u64,
    ) -> Result<Option<Option<Reply>>, NoMemory>
        requires own { N.rules.own self.old.node.now (Some (state_of self.old.disk.now)) }
        ensures brings { IfOk result
            (λ reply. Brings N.rules
            now conn piece.now (option_map outcome_view reply) (host_in self.old) (host_in self.new)) }
        ensures own { N.rules.own self.new.node.now (Some (state_of self.new.disk.now)) }
        ensures objects { SameHost self.old self.new }
    {
        let reply = self.take(alloc, conn, piece, now)?;
        if self.disk.stopped() {
            self.recover(alloc)?;
            return Ok(None);
        }
        Ok(Some(reply))
    }

    /// Starts the node, as a schedule asks for; how that ended, none where the disk stopped in it.
    pub(crate) fn start_again(&mut self, alloc: Global) -> Result<Option<&'static str>, NoMemory>
        requires own { N.rules.own self.old.node.now (Some (state_of self.old.disk.now)) }
        ensures ends { IfOk result (λ shown. (outcome : Option (Result (Unit {0}) OpenFault))
            × (text_view shown ≡ option_map (result_words (codes "restart")) outcome) × Known N.rules
            (Restarts N.rules)
            outcome (host_in self.old) (host_in self.new)) }
        ensures own { N.rules.own self.new.node.now (Some (state_of self.new.disk.now)) }
        ensures objects { SameHost self.old self.new }
    {
        let shown = self.restart(alloc)?;
        if self.disk.stopped() {
            self.recover(alloc)?;
            return Ok(None);
        }
        Ok(Some(shown))
    }

    /// Lets the node compact; how that ended, in a word.
    fn compaction(&mut self, now: u64) -> Result<&'static str, NoMemory>
        requires { N.rules.own self.old.node.now (Some (state_of self.old.disk.now)) }
        ensures compacts { IfOk result
            (λ shown. (outcome : Result (Unit {0}) OpenFault)
            × (shown.now ≡ result_words (codes "compact") outcome) × Compacts N.rules
            (min now LAST) (host_in self.old) outcome (host_in self.new)) }
        ensures own { N.rules.own self.new.node.now (Some (state_of self.new.disk.now)) }
        ensures objects { SameHost self.old self.new }
    {
        match self.node.compact(self.disk, now.min(LAST)) {
            Ok(()) => Ok("compact"),
            Err(OpenFault::DiskFault) => Ok("down"),
            Err(OpenFault::Foreign { .. }) => Ok("foreign"),
            Err(OpenFault::NoMemory) => Err(NoMemory),
        }
    }

    /// Lets the node compact, as a schedule asks for; how that ended, none where the disk stopped in it.
    pub(crate) fn compact(
        &mut self,
        alloc: Global,
        now: u64,
    ) -> Result<Option<&'static str>, NoMemory>
        requires own { N.rules.own self.old.node.now (Some (state_of self.old.disk.now)) }
        ensures ends { IfOk result (λ shown. (outcome : Option (Result (Unit {0}) OpenFault))
            × (text_view shown ≡ option_map (result_words (codes "compact")) outcome) × Known N.rules
            (Compacts N.rules (min now LAST)) outcome (host_in self.old) (host_in self.new)) }
        ensures own { N.rules.own self.new.node.now (Some (state_of self.new.disk.now)) }
        ensures objects { SameHost self.old self.new }
    {
        let shown = self.compaction(now)?;
        if self.disk.stopped() {
            self.recover(alloc)?;
            return Ok(None);
        }
        Ok(Some(shown))
    }
}
