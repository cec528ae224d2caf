//! The time.
ghost use Rattle.std.specs.Prelude.{◌≡◌, List, Option, ℕ, IfSome};
ghost use Rattle.std.specs.Option.{option_map};
ghost use Rattle.event_link.specs.Clocks.{now_of, later_of};

/// A clock. A moment is in milliseconds since 1970-01-01T00:00:00Z.
pub trait Clock {
    /// The moments to come, of which the last one repeats, where the object tells them.
    ghost to_come: { Self → Option (List ℕ) };

    /// The moment now. It may be any, also an earlier one than before. This can't fail.
    fn now(&mut self) -> u64
        ensures moment { IfSome (to_come self.old) (λ moments. result ≡ now_of moments) }
        ensures later { to_come self.new ≡ option_map later_of (to_come self.old) };
}
