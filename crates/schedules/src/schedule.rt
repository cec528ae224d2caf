// The steps of a schedule.

ghost use Rattle.std.specs.Prelude.{◌≡◌, ◌≤◌, length};

use crate::step::Step;
use std::marker::Model;

/// The most steps that a schedule may have.
pub const MAX_STEPS: usize = 20_000;

/// The most agents that the steps of a text may name.
pub const MAX_AGENTS: usize = 16;

/// Steps in their order, at most [`MAX_STEPS`].
#[derive(Debug, Drop)]
pub struct Schedule {
    steps: Vec<Step>,
}

impl Model for Schedule {
    ghost use Rattle.std.specs.Prelude.{◌≤◌, List, length};
    ghost use Rattle.schedules.specs.declared.step.Step.{Step};

    ghost Value = { List Step };

    ghost view = { λ s. s.steps.items };

    ghost invariant = { λ s. length s.steps.items ≤ 20000 };
}

impl Schedule {
    /// The schedule of these steps.
    pub(crate) fn of(steps: Vec<Step>) -> Schedule
        requires { length steps.items ≤ MAX_STEPS }
        ensures { result ≡ steps.items }
    {
        Schedule { steps }
    }

    /// The steps themselves, in order.
    pub fn steps(&self) -> &[Step]
        ensures steps { result.now ≡ self.now }
        ensures few { length result.now ≤ MAX_STEPS }
    {
        self.steps.as_slice()
    }
}
