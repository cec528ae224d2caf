//! A clock in memory.
ghost use Rattle.std.specs.Prelude.{◌≡◌, [], ◌∷◌, ◌++◌, Some, OnErr, OnOk};
ghost use Rattle.event_link.specs.Clocks.{now_of, later_of};
ghost use Rattle.event_link.specs.InMemory.{after_now, moments_of};

use crate::Clock;
use owned_values::NoMemory;
use std::alloc::Global;
use std::collections::VecDeque;
use std::marker::Model;

/// A clock that gives the moments of a list, one after the other, and then repeats the last one. It gives 0 where it
/// never had one.
#[derive(Debug, Drop)]
pub struct ListClock {
    last: u64,
    coming: VecDeque<u64>,
}

impl Model for ListClock {
    ghost use Rattle.event_link.specs.InMemory.{ClockInMemory};

    ghost Value = { ClockInMemory };

    ghost view = { λ c. record { last = c.last; coming = c.coming.items } };
}

impl ListClock {
    /// A clock with no moments. It takes no memory.
    pub fn new(alloc: Global) -> ListClock
        ensures { result ≡ record { last = 0; coming = [] } }
    {
        ListClock {
            last: 0,
            coming: VecDeque::new(alloc),
        }
    }

    /// Adds a moment behind those to come. Where there is no memory, all is as it was.
    pub fn add(&mut self, now: u64) -> Result<(), NoMemory>
        ensures ok { OnOk result (self.new ≡ record self.old { coming = self.old.coming ++ now ∷ [] }) }
        ensures err { OnErr result (self.new ≡ self.old) }
    {
        self.coming.push_back(now)?;
        Ok(())
    }
}

impl Clock for ListClock {
    ghost to_come = { λ c. Some (moments_of c) };

    fn now(&mut self) -> u64
        ensures moment { result ≡ now_of (moments_of self.old) }
        ensures later { Some (moments_of self.new) ≡ Some (later_of (moments_of self.old)) }
        ensures after { self.new ≡ after_now self.old }
    {
        if let Some(now) = self.coming.pop_front() {
            self.last = now;
        }
        self.last
    }
}
