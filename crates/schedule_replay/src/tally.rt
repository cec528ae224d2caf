// What the last line of a schedule counts.

ghost use Rattle.std.specs.Prelude.{◌≡◌};
ghost use Rattle.schedule_replay.specs.Counting as spec;

use owned_values::Text;
use post_agent::{Seen, What};
use post_binding::Field;

/// What a schedule came to. Each count stays at its greatest number.
#[derive(Clone, Copy, Debug, PartialEq, Eq)]
pub struct Tally {
    /// The sessions that were opened: answers 303 at `/acs`.
    pub opened: u32,
    /// The Responses that were sent: answers 200 with a form that has one, at `/sso` or `/login`.
    pub responses: u32,
    /// The answers that are the page of a verdict.
    pub refused: u32,
    /// The starts of a node, those behind a stop of its disk among them.
    pub restarts: u32,
}

/// Whether a request was for this path.
fn is_at(path: &str, asked: &Option<Text>) -> bool
    ensures { result ≡ spec.is_at path.now asked.now }
{
    match asked {
        Some(asked) => asked.as_str() == path,
        None => false,
    }
}

/// Whether a page posts a Response.
fn is_response(what: What) -> bool
    ensures { result ≡ spec.is_response what }
{
    match what {
        What::Form(Field::Response) => true,
        _ => false,
    }
}

/// Whether a page is that of a verdict.
fn is_code(what: What) -> bool
    ensures { result ≡ spec.is_code what }
{
    match what {
        What::Code(_) => true,
        _ => false,
    }
}

/// One more where it counts.
fn more_if(is: bool, count: u32) -> u32
    ensures { result ≡ spec.more_if is count }
{
    if is { count.saturating_add(1) } else { count }
}

/// Whether an answer opens a session.
fn opens(path: &Option<Text>, seen: Seen) -> bool
    ensures { result ≡ spec.opens path.now seen }
{
    is_at("/acs", path) && seen.status == 303
}

/// Whether an answer is a Response of the identity provider.
fn responds(path: &Option<Text>, seen: Seen) -> bool
    ensures { result ≡ spec.responds path.now seen }
{
    (is_at("/sso", path) || is_at("/login", path)) && seen.status == 200 && is_response(seen.what)
}

impl Tally {
    /// Nothing counted.
    pub(crate) fn new() -> Tally
        ensures { result ≡ spec.nothing_counted }
    {
        Tally {
            opened: 0,
            responses: 0,
            refused: 0,
            restarts: 0,
        }
    }

    /// One answer more, to a request for a path, where it was a request.
    pub(crate) fn with_answer(self, path: &Option<Text>, seen: Seen) -> Tally
        ensures { result ≡ spec.counted path.now seen self }
    {
        Tally {
            opened: more_if(opens(path, seen), self.opened),
            responses: more_if(responds(path, seen), self.responses),
            refused: more_if(is_code(seen.what), self.refused),
            restarts: self.restarts,
        }
    }

    /// One restart more.
    pub(crate) fn with_restart(self) -> Tally
        ensures { result ≡ spec.restarted self }
    {
        Tally {
            restarts: more_if(true, self.restarts),
            ..self
        }
    }
}
