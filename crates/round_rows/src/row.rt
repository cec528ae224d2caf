//! A round, and the request that it makes next. A moment is the milliseconds since 1970-01-01T00:00:00Z.
ghost use Rattle.std.specs.Prelude.{◌≡◌, ◌<◌};
ghost use Rattle.round_rows.specs.Rounds.{after_answer, is_done, is_turn_left, is_turn_of};

use logout_turns::{Asker, Turns};
use owned_values::Text;

/// A logout that asks one provider after the other (SAML Profiles, 4.4.3.3).
#[derive(Debug, Drop)]
pub struct RoundRow {
    /// The ID of the request that waits for an answer; of the last one where the round is done.
    pub request: Text,
    /// The ID of the answer that the asker gets in the end.
    pub message: Text,
    /// The provider that asked for the logout; none where the user did.
    pub asker: Option<Asker>,
    /// The providers to ask.
    pub turns: Turns,
    /// Whether there are others that can't be asked.
    pub skipped: bool,
    /// How many answers came.
    pub told: u32,
    /// How many of these confirmed the logout.
    pub confirmed: u32,
    /// The moment until which answers are accepted.
    pub until: u64,
}

/// A request to the provider of the next turn.
#[derive(Debug, Drop)]
pub struct NextRequest {
    /// The ID of the request.
    pub id: Text,
    /// The number with which it begins.
    pub number: u64,
}

impl RoundRow {
    /// Whether the round is done: an answer came, and no turn is left.
    pub fn is_done(&self) -> bool
        ensures { result ≡ is_done self.now }
    {
        self.told > 0 && self.turns.len() <= self.told as usize
    }

    /// Whether a turn is left behind the next answer.
    pub fn is_turn_left(&self) -> bool
        ensures { result ≡ is_turn_left self.now }
    {
        (self.told as usize) + 1 < self.turns.len()
    }

    /// Whether the turn of this provider has come.
    pub fn is_turn_of(&self, peer: &str) -> bool
        ensures { result ≡ is_turn_of peer.now self.now }
    {
        let turns = self.turns.as_slice();
        match turns.get(self.told as usize) {
            Some(turn) => turn.peer.as_str() == peer,
            None => false,
        }
    }

    /// Counts an answer, and lets the round wait for the request that follows, where one does.
    pub(crate) fn take_answer(&mut self, confirmed: bool, next: Option<Text>)
        requires told { self.old.told < 4294967295 }
        requires confirmed { self.old.confirmed < 4294967295 }
        ensures { self.new ≡ after_answer confirmed next self.old }
    {
        self.told += 1;
        if confirmed {
            self.confirmed += 1;
        }
        if let Some(next) = next {
            self.request = next;
        }
    }
}
