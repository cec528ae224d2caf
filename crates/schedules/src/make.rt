// Schedules of many logins.

ghost use Rattle.std.specs.Prelude.{◌≡◌, ◌<◌, ◌≤◌, ◌++◌, ◌∷◌, [], IfOk, OnOk};
ghost use Rattle.schedules.specs.Made as spec;

use crate::schedule::Schedule;
use crate::step::Step;
use owned_values::{NoMemory, Text};
use post_agent::Site;
use std::alloc::Global;

/// The most logins that a schedule is made of.
pub const MOST_LOGINS: u32 = 2_000;

// The factor, the increment and the modulus of the numbers that choose what happens.
const FACTOR: u64 = 1_103_515_245;

const INCREMENT: u64 = 12_345;

const MODULUS: u64 = 2_147_483_648;

// The moment in front of the first login, and the time between two, in milliseconds.
const START: u64 = 1_704_067_200_000;

const BETWEEN: u64 = 1_000;

/// Puts a step at the end.
fn put(step: Step, steps: &mut Vec<Step>) -> Result<(), NoMemory>
    ensures { OnOk result (steps.new.items ≡ steps.old.items ++ step ∷ []) }
{
    steps.push(step)?;
    Ok(())
}

/// A login of the user that the number chooses.
fn login_of(alloc: Global, number: u64) -> Result<Step, NoMemory>
    ensures { IfOk result (λ step. step ≡ spec.login_by number) }
{
    let user = if number % 2 == 1 { "alice" } else { "bob" };
    Ok(Step::Login {
        agent: 'a',
        user: Text::of(alloc, user)?,
        password: Text::of(alloc, "password")?,
    })
}

/// Puts the steps of one login, whose number chooses its user.
fn put_login(alloc: Global, moment: u64, number: u64, steps: &mut Vec<Step>) -> Result<(), NoMemory>
    ensures { OnOk result (steps.new.items ≡ steps.old.items ++ spec.login_at moment number) }
{
    let path = Text::of(alloc, "/app")?;
    let login = login_of(alloc, number)?;
    put(Step::Now { moment }, steps)?;
    put(Step::Fresh { agent: 'a' }, steps)?;
    put(Step::Visit { agent: 'a', path }, steps)?;
    put(Step::Submit { agent: 'a' }, steps)?;
    put(login, steps)?;
    put(Step::Submit { agent: 'a' }, steps)
}

/// Puts what the number chooses behind a login: the form once more, and a restart with the form once more.
fn put_more(number: u64, steps: &mut Vec<Step>) -> Result<(), NoMemory>
    ensures { OnOk result (steps.new.items ≡ steps.old.items ++ spec.more_by number) }
{
    if number % 5 == 0 {
        put(Step::Submit { agent: 'a' }, steps)?;
    }
    if number % 4 == 2 {
        put(Step::Restart { site: Site::Sp }, steps)?;
        put(Step::Submit { agent: 'a' }, steps)?;
    }
    Ok(())
}

/// The schedule of `n` logins, 1 to [`MOST_LOGINS`], one second apart: the user, another post of the same form and a
/// restart of the service provider are chosen by numbers, each of which follows from the one before it, behind `start`,
/// which is at most 2,147,483,647.
pub fn make_schedule(alloc: Global, n: u32, start: u32) -> Result<Schedule, NoMemory>
    requires some { 1 ≤ n }
    requires few { n ≤ MOST_LOGINS }
    requires start { start ≤ 2147483647 }
    ensures { IfOk result (λ steps. steps ≡ spec.made n start) }
{
    let mut steps = Vec::new(alloc);
    let mut number = u64::from(start);
    for i in 0..u64::from(n) {
        number = (number * FACTOR + INCREMENT) % MODULUS;
        put_login(alloc, START + BETWEEN * (i + 1), number, &mut steps)?;
        put_more(number, &mut steps)?;
    }
    Ok(Schedule::of(steps))
}
