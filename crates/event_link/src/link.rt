//! Connections: what comes from them and what goes out on them.
ghost use Rattle.std.specs.Prelude.{◌≡◌, ◌<◌, length, IfOk};
ghost use Rattle.std.specs.Option.{option_map};
ghost use Rattle.crash_disk.specs.Counts.{CountsFaults};
ghost use Rattle.event_link.specs.Links.{LinkShown, Fits, Gives, Sends, closed_on, listened};

use crash_disk::Failed;

/// What a link gives.
#[derive(Clone, Copy, Debug, PartialEq, Eq)]
pub enum LinkEvent {
    /// The connection of this number started.
    Started(u32),
    /// So many bytes of this connection came, at least one.
    Piece(u32, usize),
    /// This connection ended.
    Ended(u32),
    /// There is nothing more to do.
    Stop,
}

/// Many connections, each with a number.
pub trait Link {
    /// What the link shows: what it tells, and its counts of faults. A link may tell which calls it took, and how each
    /// ended.
    ghost shows: { Self → LinkShown };

    /// Begins to take connections at an address, and at no other. After Failed it listens where it did.
    fn listen(&mut self, address: &str) -> Result<(), Failed>
        ensures listens { (shows self.new).told ≡ listened address.now result (shows self.old).told }
        ensures faults { CountsFaults result (shows self.old).faults (shows self.new).faults }
        ensures send_faults { (shows self.new).send_faults ≡ (shows self.old).send_faults };

    /// The next event. The bytes of a piece are put in front of `into`; of a piece with more bytes than fit those that
    /// fit are given, and the others later. After all events it is Stop, for ever. After Failed all that was to come is
    /// still to come.
    fn next(&mut self, into: &mut [u8]) -> Result<LinkEvent, Failed>
        requires { 0 < length into.old }
        ensures fits { IfOk result (λ event. Fits event (length into.old)) }
        ensures gives { Gives (shows self.old).told into.old result into.new (shows self.new).told }
        ensures faults { CountsFaults result (shows self.old).faults (shows self.new).faults }
        ensures send_faults { (shows self.new).send_faults ≡ (shows self.old).send_faults };

    /// Sends bytes on a connection, and nothing on others. After Failed a prefix of the bytes went out.
    fn send(&mut self, conn: u32, bytes: &[u8]) -> Result<(), Failed>
        ensures sends { Sends conn bytes.now (shows self.old).told result (shows self.new).told }
        ensures faults { (shows self.new).faults ≡ (shows self.old).faults }
        ensures send_faults { CountsFaults result (shows self.old).send_faults (shows self.new).send_faults };

    /// Closes a connection, behind all bytes that went out on it. It can't fail.
    fn close(&mut self, conn: u32)
        ensures closes { (shows self.new).told ≡ option_map (closed_on conn) (shows self.old).told }
        ensures faults { (shows self.new).faults ≡ (shows self.old).faults }
        ensures send_faults { (shows self.new).send_faults ≡ (shows self.old).send_faults };

    /// How many faults of `listen` and `next` there were. The count never falls, and stays at 2^64 - 1 once it is
    /// there.
    fn faults(&self) -> u64
        ensures { result ≡ (shows self.now).faults };

    /// How many faults of `send` there were. The count never falls, and stays at 2^64 - 1 once it is there.
    fn send_faults(&self) -> u64
        ensures { result ≡ (shows self.now).send_faults };
}
