// The steps that are read so far.

ghost use Rattle.std.specs.Prelude.{◌≡◌, [], IfOk, OnOk};
ghost use Rattle.schedules.specs.Schedules as spec;

use crate::schedule::{MAX_AGENTS, MAX_STEPS, Schedule};
use crate::step::Step;
use owned_values::NoMemory;
use std::alloc::Global;
use std::marker::Model;

/// The agents that a step names: one, two or none.
fn agents_of(step: &Step) -> (Option<char>, Option<char>)
    ensures { spec.names_of result ≡ spec.agents_of step.now }
{
    match step {
        Step::Visit { agent, .. }
        | Step::Login { agent, .. }
        | Step::Leave { agent, .. }
        | Step::Submit { agent }
        | Step::Lose { agent }
        | Step::Follow { agent }
        | Step::Fresh { agent } => (Some(*agent), None),
        Step::Pair { first, second, .. } => (Some(*first), Some(*second)),
        _ => (None, None),
    }
}

/// Puts a name at the end, where it is not among them.
fn put_agent(agent: Option<char>, names: &mut Vec<char>) -> Result<(), NoMemory>
    ensures { OnOk result (names.new.items ≡ spec.with_name names.old.items agent) }
{
    let Some(agent) = agent else {
        return Ok(());
    };
    if names.contains(&agent) {
        return Ok(());
    }
    names.push(agent)?;
    Ok(())
}

/// Steps in their order, with the agents that they name.
#[derive(Drop)]
pub(crate) struct Draft {
    steps: Vec<Step>,
    names: Vec<char>,
}

impl Model for Draft {
    ghost use Rattle.std.specs.Prelude.{◌≡◌, ◌≤◌, List, length};
    ghost use Rattle.schedules.specs.declared.step.Step.{Step};
    ghost use Rattle.schedules.specs.Schedules.{agents};

    ghost Value = { List Step };

    ghost view = { λ d. d.steps.items };

    ghost invariant = { λ d. (d.names.items ≡ agents d.steps.items) × (length d.steps.items ≤ 20000) };
}

impl Draft {
    /// No step. It takes no memory.
    pub(crate) fn new(alloc: Global) -> Draft
        ensures { result ≡ [] }
    {
        Draft {
            steps: Vec::new(alloc),
            names: Vec::new(alloc),
        }
    }

    /// These steps and one more; none where it is one too many, or names an agent too many.
    pub(crate) fn with(self, step: Step) -> Result<Option<Draft>, NoMemory>
        ensures { IfOk result (λ steps. steps ≡ spec.with_step self step) }
    {
        let Draft {
            mut steps,
            mut names,
        } = self;
        let (first, second) = agents_of(&step);
        put_agent(first, &mut names)?;
        put_agent(second, &mut names)?;
        if steps.len() >= MAX_STEPS || names.len() > MAX_AGENTS {
            return Ok(None);
        }
        steps.push(step)?;
        Ok(Some(Draft { steps, names }))
    }

    /// The schedule of these steps.
    pub(crate) fn finish(self) -> Schedule
        ensures { result ≡ self }
    {
        let Draft { steps, names: _ } = self;
        Schedule::of(steps)
    }
}
