// One line of a schedule.

ghost use Rattle.std.specs.Prelude.{◌≡◌, IfOk};
ghost use Rattle.std.specs.Option.{option_map, option_zip};
ghost use Rattle.schedules.specs.Line as spec;

use crate::step::{LAST_MOMENT, MOST_CALLS, MOST_PIECE, Pick, Step};
use owned_values::{NoMemory, Text};
use post_agent::Site;
use std::alloc::Global;
use text_lines::{number_of, positive, words_of};

/// The agent that a word names.
fn agent_of(word: &str) -> Option<char>
    ensures { result ≡ spec.agent_of word.now }
{
    if word.len() != 1 || !word.as_bytes()[0].is_ascii_lowercase() {
        return None;
    }
    Some(char::from(word.as_bytes()[0]))
}

/// The node that a word names.
fn site_of(word: &str) -> Option<Site>
    ensures { result ≡ spec.site_of word.now }
{
    match word {
        "sp" => Some(Site::Sp),
        "idp" => Some(Site::Idp),
        _ => None,
    }
}

/// What a disk is to hold behind a stop, as a word says it.
fn pick_of(word: &str) -> Option<Pick>
    ensures { result ≡ spec.pick_of word.now }
{
    match word {
        "0" => Some(Pick::Synced),
        "1" => Some(Pick::Pending),
        "2" => Some(Pick::Marked),
        _ => None,
    }
}

/// A step of two words.
fn two_words(key: &str, word: &str) -> Option<Step>
    ensures { result ≡ spec.two_words key.now word.now }
{
    match key {
        "now" => Some(Step::Now {
            moment: number_of(word, LAST_MOMENT)?,
        }),
        "submit" => Some(Step::Submit {
            agent: agent_of(word)?,
        }),
        "lose" => Some(Step::Lose {
            agent: agent_of(word)?,
        }),
        "follow" => Some(Step::Follow {
            agent: agent_of(word)?,
        }),
        "fresh" => Some(Step::Fresh {
            agent: agent_of(word)?,
        }),
        "restart" => Some(Step::Restart {
            site: site_of(word)?,
        }),
        "compact" => Some(Step::Compact {
            site: site_of(word)?,
        }),
        _ => None,
    }
}

/// The step `visit AGENT PATH`.
fn visit(alloc: Global, agent: &str, path: &str) -> Result<Option<Step>, NoMemory>
    ensures { IfOk result (λ step. step ≡ option_map (λ agent. Step.Visit agent path.now) (spec.agent_of agent.now)) }
{
    match agent_of(agent) {
        Some(agent) => Ok(Some(Step::Visit {
            agent,
            path: Text::of(alloc, path)?,
        })),
        None => Ok(None),
    }
}

/// The step `leave AGENT NODE`.
fn leave(agent: &str, site: &str) -> Option<Step>
    ensures { result ≡ option_map (λ said. Step.Leave said.0 said.1)
        (option_zip (spec.agent_of agent.now) (spec.site_of site.now)) }
{
    let agent = agent_of(agent)?;
    let site = site_of(site)?;
    Some(Step::Leave { agent, site })
}

/// The step `fail NODE CALL`.
fn fail(site: &str, call: &str) -> Option<Step>
    ensures { result ≡ option_map (λ said. Step.Fail said.0 said.1)
        (option_zip (spec.site_of site.now) (spec.positive MOST_CALLS call.now)) }
{
    let site = site_of(site)?;
    let call = positive(call, MOST_CALLS)?;
    Some(Step::Fail { site, call })
}

/// A step of three words.
fn three_words(
    alloc: Global,
    key: &str,
    first: &str,
    second: &str,
) -> Result<Option<Step>, NoMemory>
    ensures { IfOk result (λ step. step ≡ spec.three_words key.now first.now second.now) }
{
    match key {
        "visit" => visit(alloc, first, second),
        "leave" => Ok(leave(first, second)),
        "fail" => Ok(fail(first, second)),
        _ => Ok(None),
    }
}

/// The step `login AGENT USER PASSWORD`.
fn login(alloc: Global, agent: &str, user: &str, password: &str) -> Result<Option<Step>, NoMemory>
    ensures { IfOk result
        (λ step. step ≡ option_map (λ agent. Step.Login agent user.now password.now) (spec.agent_of agent.now)) }
{
    match agent_of(agent) {
        Some(agent) => Ok(Some(Step::Login {
            agent,
            user: Text::of(alloc, user)?,
            password: Text::of(alloc, password)?,
        })),
        None => Ok(None),
    }
}

/// The step `pair AGENT AGENT PIECE`.
fn pair(first: &str, second: &str, piece: &str) -> Option<Step>
    ensures { result ≡ option_map (λ said. Step.Pair said.0 said.1.0 said.1.1)
        (option_zip (spec.agent_of first.now)
        (option_zip (spec.agent_of second.now) (spec.positive MOST_PIECE piece.now))) }
{
    let first = agent_of(first)?;
    let second = agent_of(second)?;
    let piece = positive(piece, MOST_PIECE)?;
    Some(Step::Pair {
        first,
        second,
        piece: piece as usize,
    })
}

/// The step `crash NODE CALL PICK`.
fn crash(site: &str, call: &str, pick: &str) -> Option<Step>
    ensures { result ≡ option_map (λ said. Step.Crash said.0 said.1.0 said.1.1)
        (option_zip (spec.site_of site.now)
        (option_zip (spec.positive MOST_CALLS call.now) (spec.pick_of pick.now))) }
{
    let site = site_of(site)?;
    let call = positive(call, MOST_CALLS)?;
    let pick = pick_of(pick)?;
    Some(Step::Crash { site, call, pick })
}

/// A step of four words.
fn four_words(
    alloc: Global,
    key: &str,
    first: &str,
    second: &str,
    third: &str,
) -> Result<Option<Step>, NoMemory>
    ensures { IfOk result (λ step. step ≡ spec.four_words key.now first.now second.now third.now) }
{
    match key {
        "login" => login(alloc, first, second, third),
        "pair" => Ok(pair(first, second, third)),
        "crash" => Ok(crash(first, second, third)),
        _ => Ok(None),
    }
}

/// The step of these words.
fn step_by(alloc: Global, words: &[Text]) -> Result<Option<Step>, NoMemory>
    ensures { IfOk result (λ step. step ≡ spec.step_by words.now) }
{
    match words {
        [key, word] => Ok(two_words(key.as_str(), word.as_str())),
        [key, first, second] => {
            three_words(alloc, key.as_str(), first.as_str(), second.as_str())
        }
        [key, first, second, third] => four_words(
            alloc,
            key.as_str(),
            first.as_str(),
            second.as_str(),
            third.as_str(),
        ),
        _ => Ok(None),
    }
}

/// The step that a text spells.
pub(crate) fn step_of(alloc: Global, text: &str) -> Result<Option<Step>, NoMemory>
    ensures { IfOk result (λ step. step ≡ spec.step_of text.now) }
{
    match words_of(alloc, text)? {
        Some(words) => step_by(alloc, words.as_slice()),
        None => Ok(None),
    }
}
