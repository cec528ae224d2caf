// What is found in the lines of an identity provider's config so far.

ghost use Rattle.std.specs.Prelude.{◌≡◌, ◌≤◌, ◌*◌, [], IfSome, IsTrue, OnOk, count_by};
ghost use Rattle.std.specs.Option.{option_map};
ghost use Rattle.xml_spec.specs.Characters.{IsText};
ghost use Rattle.provider_config.specs.IdpConfig as spec;
ghost use Rattle.provider_config.specs.IdpDrafts as drafts;

use crate::idp_config::{IdpFile, IdpLines, MAX_PEERS, SignMode};
use crate::idp_line::IdpLine;
use crate::line::{MILLIS, MOST_SKEW};
use owned_values::{NoMemory, Text};
use std::alloc::Global;
use std::marker::Model;

impl IdpFile {
    /// Whether it is the file of the users.
    fn is_users(&self) -> bool
        ensures { result ≡ spec.is_users self.now }
    {
        matches!(self, IdpFile::Users(_))
    }

    /// Whether it is the key that IDs are made with.
    fn is_id_key(&self) -> bool
        ensures { result ≡ spec.is_id_key self.now }
    {
        matches!(self, IdpFile::IdKey(_))
    }

    /// Whether it is of a peer.
    fn is_peer(&self) -> bool
        ensures { result ≡ spec.is_peer_file self.now }
    {
        matches!(self, IdpFile::Peer(_))
    }
}

/// Whether the users are named.
fn has_users(files: &[IdpFile]) -> bool
    ensures { result ≡ spec.has_users files.now }
{
    files.iter().any(|file| file.is_users())
}

/// Whether the key is named that IDs are made with.
fn has_id_key(files: &[IdpFile]) -> bool
    ensures { result ≡ spec.has_id_key files.now }
{
    files.iter().any(|file| file.is_id_key())
}

/// Whether a peer is named.
fn has_peer(files: &[IdpFile]) -> bool
    ensures { result ≡ spec.has_peer files.now }
{
    files.iter().any(|file| file.is_peer())
}

/// How many peers are named.
fn peer_count(files: &[IdpFile]) -> usize
    ensures { result ≡ count_by spec.is_peer_file files.now }
{
    files.iter().filter(|file| file.is_peer()).count()
}

/// What is found so far.
#[derive(Drop)]
pub(crate) struct IdpDraft {
    entity: Option<Text>,
    base: Option<Text>,
    listen: Option<Text>,
    skew: Option<u64>,
    sign: Option<SignMode>,
    fanout: bool,
    files: Vec<IdpFile>,
}

impl Model for IdpDraft {
    ghost use Rattle.std.specs.Prelude.{◌≤◌, ◌*◌};
    ghost use Rattle.std.specs.Option.{ForSome};
    ghost use Rattle.xml_spec.specs.Characters.{IsText};
    ghost use Rattle.provider_config.specs.IdpDrafts as drafts;
    ghost use Rattle.provider_config.specs.declared.line.TheConstants.{MILLIS, MOST_SKEW};

    ghost Value = { drafts.Found };

    ghost view = { λ d. record { entity = d.entity; base = d.base; listen = d.listen; skew = d.skew; sign = d.sign; fanout = d.fanout; files = d.files.items } };

    ghost invariant = { λ d. ForSome d.entity IsText × ForSome d.base IsText × ForSome d.listen IsText
        × ForSome d.skew (λ milliseconds. milliseconds ≤ MILLIS * MOST_SKEW) };
}

impl IdpDraft {
    /// Nothing is found.
    pub(crate) fn new(alloc: Global) -> IdpDraft
        ensures { result ≡ drafts.found [] }
    {
        IdpDraft {
            entity: None,
            base: None,
            listen: None,
            skew: None,
            sign: None,
            fanout: false,
            files: Vec::new(alloc),
        }
    }

    /// Whether the key of the line was found as often as it may stand.
    pub(crate) fn stands(&self, line: &IdpLine) -> bool
        ensures { result ≡ drafts.stands line.now self.now }
    {
        match line {
            IdpLine::Entity(_) => self.entity.is_some(),
            IdpLine::Base(_) => self.base.is_some(),
            IdpLine::Listen(_) => self.listen.is_some(),
            IdpLine::Users(_) => has_users(self.files.as_slice()),
            IdpLine::IdKey(_) => has_id_key(self.files.as_slice()),
            IdpLine::Skew(_) => self.skew.is_some(),
            IdpLine::Sign(_) => self.sign.is_some(),
            IdpLine::Fanout => self.fanout,
            IdpLine::Peer(_) => MAX_PEERS <= peer_count(self.files.as_slice()),
        }
    }

    /// The line is found too.
    pub(crate) fn take(&mut self, line: IdpLine) -> Result<(), NoMemory>
        requires { spec.IsSound line }
        ensures { OnOk result (self.new ≡ drafts.taken line self.old) }
    {
        match line {
            IdpLine::Entity(name) => self.entity = Some(name),
            IdpLine::Base(address) => self.base = Some(address),
            IdpLine::Listen(place) => self.listen = Some(place),
            IdpLine::Users(name) => self.files.push(IdpFile::Users(name))?,
            IdpLine::IdKey(name) => self.files.push(IdpFile::IdKey(name))?,
            IdpLine::Skew(milliseconds) => self.skew = Some(milliseconds),
            IdpLine::Sign(mode) => self.sign = Some(mode),
            IdpLine::Fanout => self.fanout = true,
            IdpLine::Peer(files) => self.files.push(IdpFile::Peer(files))?,
        }
        Ok(())
    }

    /// The lines of the config; none where a key is missing.
    pub(crate) fn complete(self) -> Option<IdpLines>
        ensures value { option_map spec.config_view result ≡ drafts.complete self }
        ensures skew { IfSome result (λ lines. lines.skew ≤ MILLIS * MOST_SKEW) }
        ensures texts { IfSome result (λ lines. IsText lines.entity × IsText lines.base × IsText lines.listen) }
        ensures files { IfSome result (λ lines. IsTrue (spec.has_files lines.files.items)) }
    {
        let IdpDraft {
            entity,
            base,
            listen,
            skew,
            sign,
            fanout,
            files,
        } = self;
        if !has_users(files.as_slice())
            || !has_id_key(files.as_slice())
            || !has_peer(files.as_slice())
        {
            return None;
        }
        Some(IdpLines {
            entity: entity?,
            base: base?,
            listen: listen?,
            skew: skew?,
            files,
            sign: sign.unwrap_or(SignMode::Assertion),
            fanout,
        })
    }
}
