// One line of a config.

ghost use Rattle.std.specs.Prelude.{◌≡◌, ◌≤◌, ◌*◌, IfOk, IfSome};
ghost use Rattle.std.specs.Option.{option_map};
ghost use Rattle.provider_config.specs.Config.{AreInOrder, IsSound};
ghost use Rattle.provider_config.specs.Shared.{AreTexts};
ghost use Rattle.xml_spec.specs.Characters.{IsText};
ghost use Rattle.provider_config.specs.Line as spec;

use crate::config::{AskedLine, OpenedLine, RegistryLine, Times};
use owned_values::{NoMemory, Text};
use saml_time::LAST;
use std::alloc::Global;
use text_lines::{number_of, words_of};

/// The most seconds by which clocks may be said to differ.
pub const MOST_SKEW: u64 = 300;

/// The milliseconds of a second.
pub const MILLIS: u64 = 1000;

/// What a config is read for.
#[derive(Clone, Copy, Debug, PartialEq, Eq)]
pub enum Purpose {
    /// To check one form: lines may say what was asked and opened before.
    Check,
    /// To serve.
    Serve,
}

impl Purpose {
    /// Whether lines may say what was asked and opened.
    fn takes_rows(self) -> bool
        ensures { result ≡ spec.takes_rows self }
    {
        match self {
            Purpose::Check => true,
            Purpose::Serve => false,
        }
    }
}

/// A line of a service provider's config.
#[derive(Debug, Drop)]
pub(crate) enum SpLine {
    Entity(Text),
    Base(Text),
    Listen(Text),
    Idp(Text),
    KeyIn(Text),
    KeyOut(Text),
    IdKey(Text),
    /// In milliseconds.
    Skew(u64),
    NextIn { file: Text, times: Times },
    Policy(Text),
    Registry(RegistryLine),
    Guard,
    Asked(AskedLine),
    Opened(OpenedLine),
}

/// Milliseconds, which the word says in seconds.
pub(crate) fn skew_of(word: &str) -> Option<u64>
    ensures value { result ≡ spec.skew_of word.now }
    ensures most { IfSome result (λ milliseconds. milliseconds ≤ MILLIS * MOST_SKEW) }
{
    let seconds = number_of(word, MOST_SKEW)?;
    Some(MILLIS * seconds)
}

/// The line of a key and one word behind it.
fn valued(alloc: Global, key: &str, value: &str) -> Result<Option<SpLine>, NoMemory>
    requires { IsText value.now }
    ensures value { IfOk result (λ line. line ≡ spec.valued key.now value.now) }
    ensures sound { IfOk result (λ line. IfSome line IsSound) }
{
    let line = match key {
        "skew" => return Ok(skew_of(value).map(SpLine::Skew)),
        "entity" => SpLine::Entity(Text::of(alloc, value)?),
        "base" => SpLine::Base(Text::of(alloc, value)?),
        "listen" => SpLine::Listen(Text::of(alloc, value)?),
        "idp" => SpLine::Idp(Text::of(alloc, value)?),
        "key_in" => SpLine::KeyIn(Text::of(alloc, value)?),
        "key_out" => SpLine::KeyOut(Text::of(alloc, value)?),
        "id_key" => SpLine::IdKey(Text::of(alloc, value)?),
        "policy" => SpLine::Policy(Text::of(alloc, value)?),
        _ => return Ok(None),
    };
    Ok(Some(line))
}

/// From when and until when, where the two are moments in order.
fn times_of(from: &str, until: &str) -> Option<Times>
    ensures value { result ≡ spec.times_of from.now until.now }
    ensures order { IfSome result AreInOrder }
{
    let from = number_of(from, LAST)?;
    let until = number_of(until, LAST)?;
    if from > until {
        return None;
    }
    Some(Times { from, until })
}

/// The line of a file and two moments.
fn next_in(file: &Text, from: &str, until: &str) -> Result<Option<SpLine>, NoMemory>
    ensures value { IfOk result (λ line. line ≡ option_map (λ times. SpLine.NextIn file.now times) (spec.times_of from.now until.now)) }
    ensures sound { IfOk result (λ line. IfSome line IsSound) }
{
    let Some(times) = times_of(from, until) else {
        return Ok(None);
    };
    let file = file.copy()?;
    Ok(Some(SpLine::NextIn { file, times }))
}

/// The line of a registry.
fn registry(file: &Text, key: &Text, entity: &Text) -> Result<SpLine, NoMemory>
    ensures { IfOk result (λ line. line ≡ SpLine.Registry (record { file = file.now; key = key.now; entity = entity.now })) }
{
    Ok(SpLine::Registry(RegistryLine {
        file: file.copy()?,
        key: key.copy()?,
        entity: entity.copy()?,
    }))
}

/// The line of a key and three words behind it.
fn of_three(
    key: &str,
    first: &Text,
    second: &Text,
    third: &Text,
) -> Result<Option<SpLine>, NoMemory>
    ensures value { IfOk result (λ line. line ≡ spec.of_three key.now first.now second.now third.now) }
    ensures sound { IfOk result (λ line. IfSome line IsSound) }
{
    match key {
        "next_in" => next_in(first, second.as_str(), third.as_str()),
        "registry" => Ok(Some(registry(first, second, third)?)),
        _ => Ok(None),
    }
}

/// The line of what was asked.
fn asked(
    request: &Text,
    relay: &Text,
    target: &Text,
    until: &str,
) -> Result<Option<SpLine>, NoMemory>
    ensures value { IfOk result (λ line. line ≡ spec.asked request.now relay.now target.now until.now) }
    ensures sound { IfOk result (λ line. IfSome line IsSound) }
{
    let Some(until) = number_of(until, u64::MAX) else {
        return Ok(None);
    };
    Ok(Some(SpLine::Asked(AskedLine {
        request: request.copy()?,
        relay: relay.copy()?,
        target: target.copy()?,
        until,
    })))
}

/// The line of what was opened.
fn opened(
    request: &Text,
    issuer: &Text,
    assertion: &Text,
    until: &str,
) -> Result<Option<SpLine>, NoMemory>
    ensures value { IfOk result (λ line. line ≡ spec.opened request.now issuer.now assertion.now until.now) }
    ensures sound { IfOk result (λ line. IfSome line IsSound) }
{
    let Some(until) = number_of(until, u64::MAX) else {
        return Ok(None);
    };
    Ok(Some(SpLine::Opened(OpenedLine {
        request: request.copy()?,
        issuer: issuer.copy()?,
        assertion: assertion.copy()?,
        until,
    })))
}

/// The line of these words.
pub(crate) fn spelled(
    alloc: Global,
    purpose: Purpose,
    words: &[Text],
) -> Result<Option<SpLine>, NoMemory>
    requires { AreTexts words.now }
    ensures value { IfOk result (λ line. line ≡ spec.spelled purpose words.now) }
    ensures sound { IfOk result (λ line. IfSome line IsSound) }
{
    match words {
        [key] if key.as_str() == "guard" => Ok(Some(SpLine::Guard)),
        [key, value] => valued(alloc, key.as_str(), value.as_str()),
        [key, first, second, third] => of_three(key.as_str(), first, second, third),
        [key, request, relay, target, until] if purpose.takes_rows() && key.as_str() == "asked" => {
            asked(request, relay, target, until.as_str())
        }
        [key, request, issuer, assertion, until]
            if purpose.takes_rows() && key.as_str() == "opened" => {
            opened(request, issuer, assertion, until.as_str())
        }
        _ => Ok(None),
    }
}

/// The line that a text spells.
pub(crate) fn line_of(
    alloc: Global,
    purpose: Purpose,
    text: &str,
) -> Result<Option<SpLine>, NoMemory>
    requires { IsText text.now }
    ensures value { IfOk result (λ line. line ≡ spec.line_of purpose text.now) }
    ensures sound { IfOk result (λ line. IfSome line IsSound) }
{
    match words_of(alloc, text)? {
        Some(words) => spelled(alloc, purpose, words.as_slice()),
        None => Ok(None),
    }
}
