// What is found in the lines of a hub's config so far.

ghost use Rattle.std.specs.Prelude.{◌≡◌, ◌≤◌, ◌*◌, [], IfSome, OnOk, count_by};
ghost use Rattle.std.specs.Option.{option_map};
ghost use Rattle.xml_spec.specs.Characters.{IsText};
ghost use Rattle.provider_config.specs.Config as sp;
ghost use Rattle.provider_config.specs.HubConfig.{IsSound};
ghost use Rattle.provider_config.specs.HubDrafts as drafts;
ghost use Rattle.provider_config.specs.HubViews as views;

use crate::draft::Draft;
use crate::hub_config::{HubFile, HubLines};
use crate::hub_line::HubLine;
use crate::idp_config::MAX_PEERS;
use crate::line::{MILLIS, MOST_SKEW};
use owned_values::NoMemory;
use std::alloc::Global;
use std::marker::Model;

impl HubFile {
    /// Whether it is of a peer.
    fn is_peer(&self) -> bool
        ensures { result ≡ views.is_peer_file self.now }
    {
        matches!(self, HubFile::Peer(_))
    }
}

/// Whether a peer is named.
fn has_peer(files: &[HubFile]) -> bool
    ensures { result ≡ views.has_peer files.now }
{
    files.iter().any(|file| file.is_peer())
}

/// How many peers are named.
fn peer_count(files: &[HubFile]) -> usize
    ensures { result ≡ count_by views.is_peer_file files.now }
{
    files.iter().filter(|file| file.is_peer()).count()
}

/// What is found so far.
#[derive(Drop)]
pub(crate) struct HubDraft {
    /// In the lines that a service provider's config has too.
    above: Draft,
    /// The files of all lines, in their order.
    files: Vec<HubFile>,
}

impl Model for HubDraft {
    ghost use Rattle.provider_config.specs.HubDrafts as drafts;

    ghost Value = { drafts.Found };

    ghost view = { λ d. record { above = d.above; files = d.files.items } };
}

impl HubDraft {
    /// Nothing is found.
    pub(crate) fn new(alloc: Global) -> HubDraft
        ensures { result ≡ drafts.found [] }
    {
        HubDraft {
            above: Draft::new(alloc),
            files: Vec::new(alloc),
        }
    }

    /// Whether the key of the line was found as often as it may stand.
    pub(crate) fn stands(&self, line: &HubLine) -> bool
        ensures { result ≡ drafts.stands line.now self.now }
    {
        match line {
            HubLine::Above(line) => self.above.stands(line),
            HubLine::Peer(_) => MAX_PEERS <= peer_count(self.files.as_slice()),
        }
    }

    /// The line is found too.
    pub(crate) fn take(&mut self, line: HubLine) -> Result<(), NoMemory>
        requires { IsSound line }
        ensures { OnOk result (self.new ≡ drafts.taken line self.old) }
    {
        match line {
            HubLine::Above(line) => {
                if let Some(named) = line.file()? {
                    self.files.push(HubFile::Above(named))?;
                }
                self.above.take(line)?;
            }
            HubLine::Peer(names) => self.files.push(HubFile::Peer(names))?,
        }
        Ok(())
    }

    /// The lines of the config; none where a key is missing.
    pub(crate) fn complete(self) -> Option<HubLines>
        ensures value { option_map views.config_view result ≡ drafts.complete self }
        ensures skew { IfSome result (λ lines. lines.skew ≤ MILLIS * MOST_SKEW) }
        ensures times { IfSome result (λ lines. IfSome lines.next_in sp.AreInOrder) }
        ensures texts { IfSome result (λ lines. IsText lines.entity × IsText lines.base × IsText lines.listen) }
    {
        let HubDraft { above, files } = self;
        let above = above.complete()?;
        if !has_peer(files.as_slice()) {
            return None;
        }
        Some(HubLines {
            entity: above.entity,
            base: above.base,
            listen: above.listen,
            skew: above.skew,
            files,
            next_in: above.next_in,
        })
    }
}
