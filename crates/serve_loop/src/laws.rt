//! Laws of serving, each the contract of a function that does nothing.
ghost use Rattle.serve_loop.specs.Laws.{RequestsAreCompletions, MomentsComeInOrder, FaultsAreAnswered, FaultsNeverFall};
ghost use Rattle.serve_loop.specs.Laws.{ADiskThatTellsGoesOnTelling, ADiskGoesOnReadingAnImage};
ghost use Rattle.serve_loop.specs.Worlds.{IsAnswered};

use crate::Node;

/// The requests that a node was asked are, in order, the whole ones that the events complete, as `conn_table` says of a
/// list of events.
pub fn requests_are_completions<N: Node>()
    ensures { RequestsAreCompletions (IsAnswered N.rules) }
{
    conn_table::laws::calls_give_completions();
}

/// A node is asked each request at the next moment of the clock, or at [`LAST`](saml_time::LAST) where that is less.
pub fn moments_come_in_order<N: Node>()
    ensures { MomentsComeInOrder (IsAnswered N.rules) }
{
    event_link::laws::moments_come_in_order();
}

/// The disk's count of faults never falls in a run. So where it did not rise in all, it rose at no request: then what a step
/// says of a fault is said of none.
pub fn faults_never_fall<N: Node>()
    ensures { FaultsNeverFall (IsAnswered N.rules) }
{}

/// The disk's count of faults rises only at requests that are answered by the page of 50: where none is, it is as it
/// was.
pub fn faults_are_answered<N: Node>()
    ensures { FaultsAreAnswered (IsAnswered N.rules) }
{}

/// A disk that tells goes on telling: whenever a request comes, and at the end.
pub fn a_disk_that_tells_goes_on_telling<N: Node>()
    ensures { ADiskThatTellsGoesOnTelling N.rules }
{}

/// A disk that reads as one of its images goes on doing so.
pub fn a_disk_goes_on_reading_an_image<N: Node>()
    ensures { ADiskGoesOnReadingAnImage N.rules }
{}
