//! Calls of one kind, one of which may be chosen to fail.
ghost use Rattle.std.specs.Prelude.{◌≡◌, ◌-◌, ◌^◌, ◌<◌, ◌↔◌, IsTrue};
ghost use Rattle.crash_disk.specs.Counts.{one_more};

use crash_disk::Failed;

/// The calls of one kind of an object in memory.
#[derive(Debug, Drop)]
pub struct Faults {
    /// The call that is to fail, counted from the next one, which is 1; 0 where none is.
    pub chosen: u64,
    /// How many failed. It stays at 2^64 - 1 once it is there.
    pub count: u64,
}

impl Faults {
    /// No call is to fail, and none did.
    pub fn new() -> Faults
        ensures { result ≡ record { chosen = 0; count = 0 } }
    {
        Faults {
            chosen: 0,
            count: 0,
        }
    }

    /// Begins a call, and answers whether it is the chosen one.
    pub fn begin(&mut self) -> bool
        ensures chosen { IsTrue result ↔ (self.old.chosen ≡ 1) }
        ensures nearer { self.new ≡ record self.old { chosen = self.old.chosen - 1 } }
        ensures in_range { self.new.count < 2 ^ 64 }
    {
        let _count = self.count;
        let chosen = self.chosen == 1;
        self.chosen = self.chosen.saturating_sub(1);
        chosen
    }

    /// Counts a fault.
    pub fn fail(&mut self) -> Failed
        ensures { self.new ≡ record self.old { count = one_more self.old.count } }
    {
        self.count = self.count.saturating_add(1);
        Failed
    }
}
