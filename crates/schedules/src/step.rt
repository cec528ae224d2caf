// One step of a schedule.

use owned_values::Text;
use post_agent::Site;

/// The last moment of the clock that a step may say: the last millisecond of the year 9999.
pub const LAST_MOMENT: u64 = 253_402_300_799_999;

/// The greatest number of a call of a disk that a step may say.
pub const MOST_CALLS: u64 = 1_000_000_000_000_000_000;

/// The most bytes that a piece of a pair may have.
pub const MOST_PIECE: u64 = 65_536;

/// What a disk holds behind a stop.
#[derive(Clone, Copy, Debug, PartialEq, Eq)]
pub enum Pick {
    /// What the last syncs left.
    Synced,
    /// All pending changes too, that of the call at which it stops among them.
    Pending,
    /// These, with the byte 0x01 at every pending place.
    Marked,
}

/// A step. An agent is named by one lower-case letter of ASCII, and a node by its site.
#[derive(Debug, Drop)]
pub enum Step {
    /// The clock of both nodes, in milliseconds since 1970-01-01T00:00:00Z.
    Now {
        moment: u64,
    },
    /// A GET of a path of the service provider.
    Visit {
        agent: char,
        path: Text,
    },
    /// The agent's form is posted.
    Submit {
        agent: char,
    },
    /// The agent's form is posted, and the answer is lost on its way.
    Lose {
        agent: char,
    },
    /// The agent's login page is filled in.
    Login {
        agent: char,
        user: Text,
        password: Text,
    },
    /// The agent's last Location is followed.
    Follow {
        agent: char,
    },
    /// The agent logs out at a node.
    Leave {
        agent: char,
        site: Site,
    },
    /// Two agents post their forms on two connections, in turn, by pieces of so many bytes.
    Pair {
        first: char,
        second: char,
        piece: usize,
    },
    /// The agent forgets all.
    Fresh {
        agent: char,
    },
    /// A node starts from its disk.
    Restart {
        site: Site,
    },
    /// A node's disk stops at its so many-th changing call from now.
    Crash {
        site: Site,
        call: u64,
        pick: Pick,
    },
    /// A node's disk fails at its so many-th changing call from now.
    Fail {
        site: Site,
        call: u64,
    },
    /// A node compacts its journal.
    Compact {
        site: Site,
    },
}
