//! The clock of the system.
ghost use Rattle.std.specs.Prelude.{◌≡◌, None};

use event_link::Clock;
use std::rt;
use std::time::{SystemTime, UNIX_EPOCH};

/// The clock that a runtime has, and what it gave last. It does not tell what it will give.
#[derive(Drop)]
pub struct SystemClock<'a, R> {
    rt: &'a R,
    last: u64,
}

impl<'a, R: rt::Clock> SystemClock<'a, R> {
    /// The clock of this runtime, which gave 0 last.
    pub fn new(rt: &'a R) -> SystemClock<'a, R>
        ensures { result.last ≡ 0 }
    {
        SystemClock { rt, last: 0 }
    }
}

// The milliseconds since 1970-01-01T00:00:00Z, where the clock can be read and they fit.
fn read_clock<R: rt::Clock>(rt: &R) -> Option<u64> {
    let now = SystemTime::now(rt).ok()?;
    let since_1970 = now.duration_since(UNIX_EPOCH).ok()?;
    u64::try_from(since_1970.as_millis()).ok()
}

impl<R: rt::Clock> Clock for SystemClock<'_, R> {
    ghost to_come = { λ _. None };

    /// The milliseconds of the system's clock. Where that can't be read, or shows a time before 1970 or of more than
    /// 2^64 - 1 milliseconds, the last value is repeated, which is 0 at first.
    fn now(&mut self) -> u64 {
        if let Some(now) = read_clock(self.rt) {
            self.last = now;
        }
        self.last
    }
}
