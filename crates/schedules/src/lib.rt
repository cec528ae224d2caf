//! Schedules: what scripted user agents and the two nodes of a deployment do, one step after the other.
//!
//! ```text
//! now 1704067200000
//! visit a /app
//! submit a
//! login a alice password
//! crash sp 4 0
//! submit a
//! ```
//!
//! ```
//! match read_schedule(alloc, text) {
//!     Ok(schedule) => { /* `schedule.steps()` are its steps, in order */ }
//!     Err(ScheduleFault::Line(number)) => { /* line `number` is the first that is bad */ }
//!     Err(ScheduleFault::NoMemory) => { /* memory ran out */ }
//! }
//! ```
//!
//! A contract sees a [`Schedule`] as the list of its steps. [`read_schedule`] gives what the definition `schedule`
//! gives: the steps of a text, or the number of the first line that is bad ([`ScheduleFault`]). [`make_schedule`] gives
//! the steps of many logins, which numbers choose that follow from the first one.
//!
//! # What is proved
//!
//! The steps that a text spells, or the number of the first line that is bad (`read_schedule`); the schedule of so many
//! logins, by its recurrence (`make_schedule`).
#![tactic(auto)]

mod draft;
mod fault;
mod line;
mod make;
mod read;
mod schedule;
mod step;

pub use fault::ScheduleFault;
pub use make::{MOST_LOGINS, make_schedule};
pub use read::{MAX_SCHEDULE_LENGTH, read_schedule};
pub use schedule::{MAX_AGENTS, MAX_STEPS, Schedule};
pub use step::{LAST_MOMENT, MOST_CALLS, MOST_PIECE, Pick, Step};
