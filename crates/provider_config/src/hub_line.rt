// One line of a hub's config.

ghost use Rattle.std.specs.Prelude.{◌≡◌, IfOk, IfSome};
ghost use Rattle.provider_config.specs.Config as sp;
ghost use Rattle.provider_config.specs.HubConfig.{IsSound};
ghost use Rattle.provider_config.specs.Shared.{AreTexts};
ghost use Rattle.xml_spec.specs.Characters.{IsText};
ghost use Rattle.provider_config.specs.HubLine as spec;

use crate::idp_config::PeerFiles;
use crate::idp_line::{self, IdpLine};
use crate::line::{self, Purpose, SpLine};
use owned_values::{NoMemory, Text};
use std::alloc::Global;
use text_lines::words_of;

/// A line of a hub's config.
#[derive(Debug, Drop)]
pub(crate) enum HubLine {
    /// A line that a service provider's config has too.
    Above(SpLine),
    /// The files of a provider below.
    Peer(PeerFiles),
}

/// The line as a hub's config has it; none where it has no such line.
fn above(line: SpLine) -> Option<HubLine>
    requires { sp.IsSound line }
    ensures value { result ≡ spec.above line }
    ensures sound { IfSome result IsSound }
{
    match line {
        SpLine::Policy(_) | SpLine::Registry(_) | SpLine::Guard => None,
        line => Some(HubLine::Above(line)),
    }
}

/// The line of a peer; none where it is of anything else.
fn below(line: IdpLine) -> Option<HubLine>
    ensures value { result ≡ spec.below line }
    ensures sound { IfSome result IsSound }
{
    match line {
        IdpLine::Peer(files) => Some(HubLine::Peer(files)),
        _ => None,
    }
}

/// The line of these words, which has this number.
fn spelled(alloc: Global, number: u32, words: &[Text]) -> Result<Option<HubLine>, NoMemory>
    requires { AreTexts words.now }
    ensures value { IfOk result (λ line. line ≡ spec.spelled number words.now) }
    ensures sound { IfOk result (λ line. IfSome line IsSound) }
{
    let peer = idp_line::spelled(alloc, number, words)?.and_then(below);
    if peer.is_some() {
        return Ok(peer);
    }
    match line::spelled(alloc, Purpose::Serve, words)? {
        Some(line) => Ok(above(line)),
        None => Ok(None),
    }
}

/// The line that a text spells, which has this number.
pub(crate) fn line_of(alloc: Global, number: u32, text: &str) -> Result<Option<HubLine>, NoMemory>
    requires { IsText text.now }
    ensures value { IfOk result (λ line. line ≡ spec.line_of number text.now) }
    ensures sound { IfOk result (λ line. IfSome line IsSound) }
{
    match words_of(alloc, text)? {
        Some(words) => spelled(alloc, number, words.as_slice()),
        None => Ok(None),
    }
}
