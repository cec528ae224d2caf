// A schedule is read.

ghost use Rattle.std.specs.Prelude.{◌<◌, ◌≤◌, ◌^◌, length};
ghost use Rattle.owned_values.specs.Gives.{Gives};
ghost use Rattle.text_lines.specs.Views.{said_view};
ghost use Rattle.text_lines.specs.Lines.{number_said};
ghost use Rattle.schedules.specs.Schedules.{schedule, with_said, fault_of};

use crate::draft::Draft;
use crate::fault::ScheduleFault;
use crate::line::step_of;
use crate::schedule::Schedule;
use std::alloc::Global;
use text_lines::{Lines, Said};

/// The most bytes that a file of steps may have.
pub const MAX_SCHEDULE_LENGTH: usize = 1_048_576;

/// The steps with what is said next.
///
/// # Errors
///
/// `Line`, exactly where it is no text, is no step, names an agent too many, or is one step too many.
fn with_said(alloc: Global, draft: Draft, said: Said<'_>) -> Result<Draft, ScheduleFault>
    requires { number_said (said_view said) < 2 ^ 32 }
    ensures { Gives (λ steps. steps) fault_of result (with_said draft (said_view said.entry)) }
{
    match said {
        Said::Line { number, text } => {
            let Some(step) = step_of(alloc, text)? else {
                return Err(ScheduleFault::Line(number as u32));
            };
            match draft.with(step)? {
                Some(draft) => Ok(draft),
                None => Err(ScheduleFault::Line(number as u32)),
            }
        }
        Said::NoText { number } => Err(ScheduleFault::Line(number as u32)),
    }
}

/// The schedule of a text. Its time goes with the text.
///
/// # Errors
///
/// `Line` with the number of the first line that is no text, is no step, names one agent more than
/// [`MAX_AGENTS`](crate::MAX_AGENTS), or is one step more than [`MAX_STEPS`](crate::MAX_STEPS). `NoMemory` may come in
/// place of any answer.
pub fn read_schedule(alloc: Global, text: &[u8]) -> Result<Schedule, ScheduleFault>
    requires { length text.now ≤ MAX_SCHEDULE_LENGTH }
    ensures { Gives (λ steps. steps) fault_of result (schedule text.now) }
{
    let mut draft = Draft::new(alloc);
    let mut lines = Lines::new(text);
    while let Some(said) = lines.next_said() {
        draft = with_said(alloc, draft, said)?;
    }
    Ok(draft.finish())
}
