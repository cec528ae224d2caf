//! How much room a place has.
ghost use Rattle.std.specs.Prelude.{ℕ, ◌+◌, ◌<◌, ◌≤◌, ◌↔◌, IsTrue};
ghost use Rattle.canon_octets.specs.Room.{HasCome};

/// How many bytes a place still takes; none once more came than it had room for.
#[derive(Drop)]
pub(crate) struct Room {
    left: Option<usize>,
}

impl Room {
    /// Room for so many bytes.
    pub(crate) fn of(limit: usize) -> Room
        ensures { HasCome result limit 0 }
    {
        Room { left: Some(limit) }
    }

    /// Takes note of a piece of so many bytes: whether there was room for it, and for all that came before.
    pub(crate) fn takes(&mut self, len: usize) -> bool
        ensures come { (limit n : ℕ) → HasCome self.old limit n → HasCome self.new limit (n + len) }
        ensures room { (limit n : ℕ) → HasCome self.old limit n → IsTrue result ↔ (n + len ≤ limit) }
    {
        self.left = match self.left {
            Some(left) => left.checked_sub(len),
            None => None,
        };
        self.left.is_some()
    }

    /// Whether more came than there was room for.
    pub(crate) fn is_passed(&self) -> bool
        ensures { (limit n : ℕ) → HasCome self.now limit n → IsTrue result ↔ (limit < n) }
    {
        self.left.is_none()
    }
}
