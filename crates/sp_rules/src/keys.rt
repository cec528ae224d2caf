// The keys of the identity provider that count at a moment.

ghost use Rattle.std.specs.Prelude.{◌≡◌, ◌≤◌, IfSome};
ghost use Rattle.sp_rules.specs.Keys.{usable};
ghost use Rattle.sp_rules.specs.Views.{keys_of};

use crate::config::SpConfig;

/// The keys that count at a moment: the first, the second, or both, in this order.
#[derive(Clone, Copy, Drop)]
pub enum UsableKeys<'c> {
    /// The first key alone.
    First(&'c [u8]),
    /// The second key alone.
    Second(&'c [u8]),
    /// Both keys.
    Both(&'c [u8], &'c [u8]),
}

impl SpConfig {
    /// The keys of the identity provider that count at a moment, in milliseconds since 1970-01-01T00:00:00Z: the first until
    /// the moment at which the second alone does, the second, where there is one, from its moment on.
    pub fn usable_keys(&self, now: u64) -> UsableKeys<'_>
        requires times { IfSome self.now.next_in (λ next. next.from ≤ next.until) }
        ensures { keys_of result ≡ usable self.now now }
    {
        let first = self.key_in.as_slice();
        match &self.next_in {
            None => UsableKeys::First(first),
            Some(next) => {
                let second = next.key.as_slice();
                if now >= next.until {
                    UsableKeys::Second(second)
                } else if now >= next.from {
                    UsableKeys::Both(first, second)
                } else {
                    UsableKeys::First(first)
                }
            }
        }
    }
}
