//! What comes of the answers.
ghost use Rattle.std.specs.Prelude.{◌≡◌, ◌<◌, ◌≤◌};
ghost use Rattle.logout_fanout.specs.Round.{after_answer, next, round_at};

use std::marker::Model;

/// What follows an answer.
#[derive(Clone, Copy, Debug, PartialEq, Eq)]
pub enum Next {
    /// The provider of the turn at this place, counted from 0, is asked.
    Ask(usize),
    /// Each provider has answered. `partial` where one of them did not confirm, or was skipped.
    Done { partial: bool },
}

/// The turns of a plan, while their providers are asked one after the other.
#[derive(Debug, Drop)]
pub struct Round {
    turns: usize,
    skipped: bool,
    told: usize,
    confirmed: usize,
}

impl Model for Round {
    ghost use Rattle.std.specs.Prelude.{◌≤◌};
    ghost use Rattle.logout_fanout.specs.Round.{RoundView, round_at};

    ghost Value = { RoundView };

    ghost view = { λ r. round_at r.turns r.skipped r.told r.confirmed };

    ghost invariant = { λ r. (r.confirmed ≤ r.told) × (r.told ≤ r.turns) };
}

impl Round {
    /// A round of so many turns behind `told` answers, of which `confirmed` confirmed.
    pub fn at(turns: usize, skipped: bool, told: usize, confirmed: usize) -> Round
        requires confirmed { confirmed ≤ told }
        requires told { told < turns }
        ensures { result ≡ round_at turns skipped told confirmed }
    {
        Round {
            turns,
            skipped,
            told,
            confirmed,
        }
    }

    /// Takes one answer more, and says what follows it.
    pub fn told(&mut self, confirmed: bool) -> Next
        requires { self.old.told < self.old.turns }
        ensures is { self.new ≡ after_answer confirmed self.old }
        ensures next { result ≡ next self.new }
    {
        self.told += 1;
        if confirmed {
            self.confirmed += 1;
        }
        if self.told < self.turns {
            return Next::Ask(self.told);
        }
        Next::Done {
            partial: self.skipped || self.confirmed < self.turns,
        }
    }
}
