// One line of an identity provider's config.

ghost use Rattle.std.specs.Prelude.{◌≡◌, IfOk, IfSome};
ghost use Rattle.provider_config.specs.IdpConfig.{IsSound};
ghost use Rattle.provider_config.specs.Shared.{AreTexts};
ghost use Rattle.xml_spec.specs.Characters.{IsText};
ghost use Rattle.provider_config.specs.IdpLine as spec;

use crate::idp_config::{PeerFiles, SignMode};
use crate::line::skew_of;
use owned_values::{NoMemory, Text};
use std::alloc::Global;
use text_lines::words_of;

/// A line of an identity provider's config.
#[derive(Debug, Drop)]
pub(crate) enum IdpLine {
    Entity(Text),
    Base(Text),
    Listen(Text),
    Users(Text),
    IdKey(Text),
    /// In milliseconds.
    Skew(u64),
    Sign(SignMode),
    Fanout,
    Peer(PeerFiles),
}

/// What is signed.
fn sign_of(word: &str) -> Option<SignMode>
    ensures { result ≡ spec.sign_of word.now }
{
    match word {
        "assertion" => Some(SignMode::Assertion),
        "response" => Some(SignMode::Response),
        "both" => Some(SignMode::Both),
        _ => None,
    }
}

/// The line of a key and one word behind it.
fn valued(alloc: Global, key: &str, value: &str) -> Result<Option<IdpLine>, NoMemory>
    requires { IsText value.now }
    ensures value { IfOk result (λ line. line ≡ spec.valued key.now value.now) }
    ensures sound { IfOk result (λ line. IfSome line IsSound) }
{
    let line = match key {
        "skew" => return Ok(skew_of(value).map(IdpLine::Skew)),
        "sign" => return Ok(sign_of(value).map(IdpLine::Sign)),
        "entity" => IdpLine::Entity(Text::of(alloc, value)?),
        "base" => IdpLine::Base(Text::of(alloc, value)?),
        "listen" => IdpLine::Listen(Text::of(alloc, value)?),
        "users" => IdpLine::Users(Text::of(alloc, value)?),
        "id_key" => IdpLine::IdKey(Text::of(alloc, value)?),
        _ => return Ok(None),
    };
    Ok(Some(line))
}

/// The line of a peer's three files.
fn peer(line: u32, metadata: &Text, key_in: &Text, key_out: &Text) -> Result<IdpLine, NoMemory>
    ensures { IfOk result (λ made. made ≡ IdpLine.Peer (record { line = line; metadata = metadata.now; key_in = key_in.now; key_out = key_out.now })) }
{
    Ok(IdpLine::Peer(PeerFiles {
        line,
        metadata: metadata.copy()?,
        key_in: key_in.copy()?,
        key_out: key_out.copy()?,
    }))
}

/// The line of these words, which has this number.
pub(crate) fn spelled(
    alloc: Global,
    number: u32,
    words: &[Text],
) -> Result<Option<IdpLine>, NoMemory>
    requires { AreTexts words.now }
    ensures value { IfOk result (λ line. line ≡ spec.spelled number words.now) }
    ensures sound { IfOk result (λ line. IfSome line IsSound) }
{
    match words {
        [key] if key.as_str() == "fanout" => Ok(Some(IdpLine::Fanout)),
        [key, value] => valued(alloc, key.as_str(), value.as_str()),
        [key, metadata, key_in, key_out] if key.as_str() == "peer" => {
            Ok(Some(peer(number, metadata, key_in, key_out)?))
        }
        _ => Ok(None),
    }
}

/// The line that a text spells, which has this number.
pub(crate) fn line_of(alloc: Global, number: u32, text: &str) -> Result<Option<IdpLine>, NoMemory>
    requires { IsText text.now }
    ensures value { IfOk result (λ line. line ≡ spec.line_of number text.now) }
    ensures sound { IfOk result (λ line. IfSome line IsSound) }
{
    match words_of(alloc, text)? {
        Some(words) => spelled(alloc, number, words.as_slice()),
        None => Ok(None),
    }
}
