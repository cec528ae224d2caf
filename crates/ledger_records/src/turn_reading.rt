// Askers and turns read from a payload.

ghost use Rattle.ledger_records.specs.Reading.{Reads, asking_at, option_at, turn_at, many_at, list_at};

use crate::reading::{Fields, Unread};
use logout_turns::{Asker, Turn, Turns};

impl<'a> Fields<'a> {
    /// A provider that asks.
    #[tactic(auto, unfolding(crate::specs::Reading::asking_at))]
    fn asking(&mut self) -> Result<Asker, Unread>
        ensures { Reads (λ a. (a, self.new.rest.now)) result (asking_at self.old.rest.now) }
    {
        let peer = self.text()?;
        let request = self.text()?;
        let relay = self.optional()?;
        Ok(Asker {
            peer,
            request,
            relay,
        })
    }

    /// A provider that asks, where one does.
    #[tactic(auto, unfolding(crate::specs::Reading::option_at))]
    pub(crate) fn asker(&mut self) -> Result<Option<Asker>, Unread>
        ensures { Reads (λ a. (a, self.new.rest.now)) result (option_at asking_at self.old.rest.now) }
    {
        if self.flag()? {
            Ok(Some(self.asking()?))
        } else {
            Ok(None)
        }
    }

    /// A turn.
    #[tactic(auto, unfolding(crate::specs::Reading::turn_at))]
    fn turn(&mut self) -> Result<Turn, Unread>
        ensures { Reads (λ t. (t, self.new.rest.now)) result (turn_at self.old.rest.now) }
    {
        let peer = self.text()?;
        let name = self.text()?;
        let indexes = self.texts()?;
        Ok(Turn {
            peer,
            name,
            indexes,
        })
    }

    /// So many turns.
    fn some_turns(&mut self, count: u32) -> Result<Turns, Unread>
        ensures { Reads (λ found. (found, self.new.rest.now)) result (many_at turn_at count self.old.rest.now) }
    {
        let mut turns = Turns::new(self.alloc);
        for _ in 0..count {
            turns.push(self.turn()?)?;
        }
        Ok(turns)
    }

    /// A list of turns.
    #[tactic(auto, unfolding(crate::specs::Reading::list_at))]
    pub(crate) fn turns(&mut self) -> Result<Turns, Unread>
        ensures { Reads (λ found. (found, self.new.rest.now)) result (list_at turn_at self.old.rest.now) }
    {
        let count = self.count()?;
        self.some_turns(count)
    }
}
