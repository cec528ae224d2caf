// The words of the lines that are printed.

ghost use Rattle.std.specs.Prelude.{◌≡◌, IfOk, string_bytes};
ghost use Rattle.schedule_replay.specs.Lines as spec;

use crate::tally::Tally;
use owned_values::NoMemory;
use post_agent::{Seen, Site, What};
use std::alloc::Global;

/// The name of a node.
pub(crate) fn site_name(site: Site) -> &'static str
    ensures { result.now ≡ spec.site_name site }
{
    match site {
        Site::Sp => "sp",
        Site::Idp => "idp",
    }
}

/// What an answer shows, but for a verdict.
fn what_name(what: What) -> &'static str
    ensures { spec.IsNamed what result.now }
{
    match what {
        What::Form(_) => "form",
        What::Login => "login",
        What::Page => "page",
        What::End => "end",
        What::Moved => "moved",
        What::Code(_) => "code",
        What::Status => "status",
    }
}

/// The words of an answer.
pub(crate) fn answer_words(alloc: Global, site: Site, seen: Seen) -> Result<String, NoMemory>
    ensures { IfOk result (λ words. string_bytes words ≡ spec.answer_words site seen) }
{
    let name = site_name(site);
    let status = seen.status;
    if let What::Code(number) = seen.what {
        return Ok(format!(in alloc; "{name} {status} code {number}")?);
    }
    let what = what_name(seen.what);
    Ok(format!(in alloc; "{name} {status} {what}")?)
}

/// That a node's disk stopped.
pub(crate) fn stopped_words(site: Site) -> &'static str
    ensures { result.now ≡ spec.stopped_words site }
{
    match site {
        Site::Sp => "sp stopped",
        Site::Idp => "idp stopped",
    }
}

/// A line of the step of this number.
pub(crate) fn line(alloc: Global, number: usize, words: &str) -> Result<String, NoMemory>
    ensures { IfOk result (λ line. string_bytes line ≡ spec.line number words.now) }
{
    Ok(format!(in alloc; "{number} {words}\n")?)
}

/// The last line.
pub(crate) fn summary(alloc: Global, tally: Tally) -> Result<String, NoMemory>
    ensures { IfOk result (λ line. string_bytes line ≡ spec.summary tally) }
{
    let Tally {
        opened,
        responses,
        refused,
        restarts,
    } = tally;
    Ok(format!(in alloc;
        "opened {opened} responses {responses} refused {refused} restarts {restarts}\n"
    )?)
}
