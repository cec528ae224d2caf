// What is kept of the descriptors that an aggregate lists.

ghost use Rattle.std.specs.Prelude.{◌≡◌, IfOk};
ghost use Rattle.owned_values.specs.Gives.{Gives};
ghost use Rattle.tree_read.specs.Views.{tree_of};
ghost use Rattle.metadata.specs.Metadata.{peer_of};
ghost use Rattle.meta_registry.specs.Aggregate.{entry_of, says_of, has_name, answer_of};
ghost use Rattle.meta_registry.specs.Faults.{peer_fault};

use crate::fault::PeerFault;
use metadata::{MetaFault, Peer, Role, read_peer_at};
use owned_values::{NoMemory, Text};
use std::alloc::Global;
use tree_read::{At, attr_text};

/// What an EntityDescriptor says (SAML Metadata, 2.3.2).
#[derive(Debug, Drop)]
pub(crate) struct Entry {
    /// Its entityID as it stands; none where it has none.
    pub(crate) name: Option<Text>,
    /// The identity provider that it describes.
    pub(crate) idp: Result<Peer, MetaFault>,
    /// The service provider that it describes.
    pub(crate) sp: Result<Peer, MetaFault>,
}

/// The provider that an EntityDescriptor describes in this role, or why it describes none.
fn said(alloc: Global, at: At<'_, '_>, role: Role) -> Result<Result<Peer, MetaFault>, NoMemory>
    ensures { IfOk result (λ said. said ≡ peer_of (tree_of at.entry) at.entry.node.0 role) }
{
    match read_peer_at(alloc, at, role) {
        Ok(peer) => Ok(Ok(peer)),
        Err(MetaFault::NoMemory) => Err(NoMemory),
        Err(MetaFault::Tree(fault)) => Ok(Err(MetaFault::Tree(fault))),
        Err(MetaFault::WrongShape) => Ok(Err(MetaFault::WrongShape)),
        Err(MetaFault::NoPostService) => Ok(Err(MetaFault::NoPostService)),
    }
}

/// A copy of the text, where there is one.
fn copy_if_any(alloc: Global, text: &Option<Text>) -> Result<Option<Text>, NoMemory>
    ensures { IfOk result (λ copy. copy ≡ text.now) }
{
    match text {
        Some(text) => Ok(Some(Text::of(alloc, text.as_str())?)),
        None => Ok(None),
    }
}

/// A copy of what is known of a provider.
fn copy_of(alloc: Global, peer: &Peer) -> Result<Peer, NoMemory>
    ensures { IfOk result (λ copy. copy ≡ peer.now) }
{
    Ok(Peer {
        entity: Text::of(alloc, peer.entity.as_str())?,
        service: Text::of(alloc, peer.service.as_str())?,
        logout: copy_if_any(alloc, &peer.logout)?,
    })
}

impl Entry {
    /// What this EntityDescriptor says, read once for each role.
    pub(crate) fn read(alloc: Global, at: At<'_, '_>) -> Result<Entry, NoMemory>
        ensures { IfOk result (λ entry. entry ≡ entry_of (tree_of at.entry) at.entry.node.0) }
    {
        Ok(Entry {
            name: attr_text(alloc, at, "entityID")?,
            idp: said(alloc, at, Role::Idp)?,
            sp: said(alloc, at, Role::Sp)?,
        })
    }

    /// Whether it is of the provider of this name, which is compared byte by byte.
    pub(crate) fn has_name(&self, entity: &str) -> bool
        ensures { result ≡ has_name entity.now self.now }
    {
        match &self.name {
            Some(name) => name.as_str() == entity,
            None => false,
        }
    }

    /// What it says of its provider in this role.
    fn says_of(&self, role: Role) -> &Result<Peer, MetaFault>
        ensures { result.now ≡ says_of role self.now }
    {
        match role {
            Role::Idp => &self.idp,
            Role::Sp => &self.sp,
        }
    }

    /// Its provider in this role.
    ///
    /// # Errors
    ///
    /// `Meta`, exactly where it describes none, with the reason.
    pub(crate) fn peer(&self, alloc: Global, role: Role) -> Result<Peer, PeerFault>
        ensures { Gives (λ peer. peer) peer_fault result (answer_of (says_of role self.now)) }
    {
        match self.says_of(role) {
            Ok(peer) => Ok(copy_of(alloc, peer)?),
            Err(fault) => Err(PeerFault::Meta(*fault)),
        }
    }
}
