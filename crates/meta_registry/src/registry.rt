// Aggregates that are read, and the providers that they list.

ghost use Rattle.std.specs.Prelude.{◌≡◌, ◌≤◌, ◌<◌, ◌^◌, length, map, codes, is_some, IfOk, IfErr, find};
ghost use Rattle.std.specs.List.{count_by};
ghost use Rattle.std.specs.Option.{option_copied};
ghost use Rattle.owned_values.specs.Gives.{Gives};
ghost use Rattle.tree_read.specs.Texts.{attribute_text};
ghost use Rattle.tree_read.specs.Views.{tree_of};
ghost use Rattle.metadata.specs.Metadata.{not_empty};
ghost use Rattle.assertion_model.specs.Instants.{moment_of};
ghost use Rattle.meta_registry.specs.Aggregate.{is_aggregate, valid_until, descriptors, entry_of, has_name, peer_in};
ghost use Rattle.meta_registry.specs.Faults.{peer_fault, IsRegistryOf, IsNoRegistry, IsRead, IsRefused};

use crate::entry::Entry;
use crate::fault::{PeerFault, RegistryFault};
use metadata::{Peer, Role};
use owned_values::NoMemory;
use saml_names::md;
use saml_time::read_instant;
use saml_tree::{Doc, read_document};
use sig_reference::verify_first;
use std::alloc::Global;
use std::marker::Model;
use tree_read::{At, ElementChildren, attr_text};
use xml_spec::MAX_DOCUMENT_LENGTH;

/// What is kept of a signed aggregate: until when it is valid, and the providers that it lists. `read_registry` alone
/// makes one.
#[derive(Debug, Drop)]
pub struct Registry {
    valid_until: u64,
    entries: Vec<Entry>,
}

impl Model for Registry {
    ghost use Rattle.std.specs.Prelude.{◌<◌, ◌^◌, length};
    ghost use Rattle.meta_registry.specs.Aggregate.{RegistryView};

    ghost Value = { RegistryView };

    ghost view = { λ r. record { valid_until = r.valid_until; entries = r.entries.items } };

    ghost invariant = { λ r. length r.entries.items < 2 ^ 32 };
}

/// Whether an element has an ID that is not empty.
fn has_id(alloc: Global, at: At<'_, '_>) -> Result<bool, NoMemory>
    ensures { IfOk result (λ has. has ≡ is_some (not_empty (attribute_text (tree_of at.entry) at.entry.node.0 (codes "ID")))) }
{
    match attr_text(alloc, at, "ID")? {
        Some(id) => Ok(!id.is_empty()),
        None => Ok(false),
    }
}

/// Whether an element is an EntitiesDescriptor to which a signature can refer (SAML Metadata, 2.3.1).
fn is_aggregate(alloc: Global, at: At<'_, '_>) -> Result<bool, NoMemory>
    ensures { IfOk result (λ is. is ≡ is_aggregate (tree_of at.entry) at.entry.node.0) }
{
    if !at.is_named(md("EntitiesDescriptor")) {
        return Ok(false);
    }
    has_id(alloc, at)
}

/// The moment that a text tells (SAML Core, 1.3.3).
fn moment(text: &str) -> Option<u64>
    ensures { result ≡ moment_of text.now }
{
    read_instant(text)
}

/// The moment until which an aggregate is valid, in milliseconds since 1970; none where the element is none, or tells none.
fn read_valid_until(alloc: Global, at: At<'_, '_>) -> Result<Option<u64>, NoMemory>
    ensures { IfOk result (λ until. until ≡ valid_until (tree_of at.entry) at.entry.node.0) }
{
    if !is_aggregate(alloc, at)? {
        return Ok(None);
    }
    match attr_text(alloc, at, "validUntil")? {
        Some(text) => Ok(moment(text.as_str())),
        None => Ok(None),
    }
}

/// How many descriptors of providers an aggregate lists.
fn descriptor_count(at: At<'_, '_>) -> u32
    ensures { result ≡ length (descriptors (tree_of at.entry) at.entry.node.0) }
{
    ElementChildren::of(at).count(md("EntityDescriptor"))
}

/// What the descriptors that an aggregate lists say, in document order.
fn read_entries(alloc: Global, at: At<'_, '_>) -> Result<Vec<Entry>, NoMemory>
    ensures entries { IfOk result (λ entries. entries.items ≡ map (entry_of (tree_of at.entry)) (descriptors (tree_of at.entry) at.entry.node.0)) }
    ensures few { IfOk result (λ entries. length entries.items < 2 ^ 32) }
{
    let count = descriptor_count(at);
    let mut entries = Vec::with_capacity(alloc, count as usize)?;
    let mut left = ElementChildren::of(at);
    while let Some(descriptor) = left.next_named(md("EntityDescriptor")) {
        entries.push(Entry::read(alloc, descriptor)?)?;
    }
    Ok(entries)
}

/// The registry of the root of a document.
///
/// # Errors
///
/// The first of `WrongShape` and `Signature` that holds.
fn read_root(alloc: Global, doc: &Doc<'_>, key: &[u8]) -> Result<Registry, RegistryFault>
    ensures ok { IfOk result (IsRegistryOf key.now doc.now.tree 0) }
    ensures refused { IfErr result (IsNoRegistry key.now doc.now.tree 0) }
{
    let root = At {
        doc,
        node: doc.root(),
    };
    let Some(valid_until) = read_valid_until(alloc, root)? else {
        return Err(RegistryFault::WrongShape);
    };
    let vouched = verify_first(alloc, doc, root.node, key)?;
    let entries = read_entries(alloc, vouched.at())?;
    Ok(Registry {
        valid_until,
        entries,
    })
}

/// Reads a signed aggregate of metadata (SAML Metadata, 2.3.1 and 3.1): the text, of at most `MAX_DOCUMENT_LENGTH` bytes,
/// and the key of its signature, which may have any length. It takes time in proportion to the text and to the canonical forms
/// that are signed, in which declarations of namespaces are repeated.
///
/// # Errors
///
/// The first of these that holds: `Tree`, the text is no document that is read, with the reader's fault; `WrongShape`, its
/// root is no EntitiesDescriptor with an ID that is not empty and a `validUntil` that tells a moment; `Signature`, no
/// signature that stands in front of all other children of the root vouches for it under the key, with the reason.
/// `NoMemory` may come in place of any other answer.
pub fn read_registry(alloc: Global, text: &[u8], key: &[u8]) -> Result<Registry, RegistryFault>
    requires { length text.now ≤ MAX_DOCUMENT_LENGTH }
    ensures ok { IfOk result (IsRead text.now key.now) }
    ensures refused { IfErr result (IsRefused text.now key.now) }
{
    let doc = read_document(alloc, text)?;
    read_root(alloc, &doc, key)
}

/// How many of these entries are of the provider of this name.
fn count_of(entries: &[Entry], entity: &str) -> usize
    ensures { result ≡ count_by (has_name entity.now) entries.now }
{
    entries
        .iter()
        .filter(|entry| entry.has_name(entity))
        .count()
}

/// The first of these entries that is of the provider of this name.
fn first_of<'r>(entries: &'r [Entry], entity: &str) -> Option<&'r Entry>
    ensures { option_copied result ≡ find (has_name entity.now) entries.now }
{
    entries.iter().find(|entry| entry.has_name(entity))
}

impl Registry {
    /// The moment until which the aggregate is valid, in milliseconds since 1970: from this moment on it is not. It takes
    /// no memory.
    pub fn valid_until(&self) -> u64
        ensures { result ≡ self.now.valid_until }
    {
        self.valid_until
    }

    /// What the aggregate says of the provider of this name in this role. The name is compared byte by byte. It takes time
    /// in proportion to what is kept.
    ///
    /// # Errors
    ///
    /// `NotListed`, exactly where the aggregate does not list just one descriptor of that name, with their number; else
    /// `Meta`, exactly where that descriptor describes no such provider, with the reason. `NoMemory` may come in place of
    /// any other answer.
    pub fn peer(&self, alloc: Global, entity: &str, role: Role) -> Result<Peer, PeerFault>
        ensures { Gives (λ peer. peer) peer_fault result (peer_in self.now entity.now role) }
    {
        let entries = self.entries.as_slice();
        let Some(entry) = first_of(entries, entity) else {
            return Err(PeerFault::NotListed(0));
        };
        let count = count_of(entries, entity);
        if count == 1 {
            entry.peer(alloc, role)
        } else {
            Err(PeerFault::NotListed(count as u32))
        }
    }
}
