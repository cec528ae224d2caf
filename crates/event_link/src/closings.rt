//! How connections were closed.
ghost use Rattle.std.specs.Prelude.{◌≡◌};
ghost use Rattle.crash_disk.specs.Counts.{one_more};

/// How connections were closed: how often, and which one the last time. Before the first time all are 0.
#[derive(Debug, Drop)]
pub struct Closings {
    /// How many calls of `close` there were. It stays at 2^64 - 1 once it is there.
    pub count: u64,
    /// The connection that was closed last.
    pub last: u32,
    /// How many bytes had gone out on it by then.
    pub behind: usize,
}

impl Closings {
    /// None was closed.
    pub(crate) fn new() -> Closings
        ensures { result ≡ record { count = 0; last = 0; behind = 0 } }
    {
        Closings {
            count: 0,
            last: 0,
            behind: 0,
        }
    }

    /// Notes that a connection was closed, behind so many bytes that had gone out on it.
    pub(crate) fn note(&mut self, conn: u32, behind: usize)
        ensures { self.new ≡ record { count = one_more self.old.count; last = conn; behind = behind } }
    {
        self.count = self.count.saturating_add(1);
        self.last = conn;
        self.behind = behind;
    }
}
