// Metadata that is read (SAML Metadata, 2.3 and 2.4).

ghost use Rattle.std.specs.Prelude.{◌≡◌, ◌≤◌, codes, length, IfOk, IfErr, Ok};
ghost use Rattle.owned_values.specs.Gives.{Gives};
ghost use Rattle.tree_read.specs.Texts.{attribute_text};
ghost use Rattle.tree_read.specs.Views.{tree_of};
ghost use Rattle.saml_names.specs.Uris as uris;
ghost use Rattle.owned_values.specs.Options.{is_there};
ghost use Rattle.metadata.specs.Metadata.{address, not_empty, entity, peer_of};
ghost use Rattle.metadata.specs.Faults.{fault_of, IsRead, IsRefused};

use crate::fault::MetaFault;
use crate::peer::{Peer, Role};
use owned_values::{NoMemory, Text};
use saml_names::{MD, POST, md};
use saml_tree::{TreeFault, read_document};
use std::alloc::Global;
use tree_read::{At, ElementChildren, attr_text, only_child};
use xml_spec::MAX_DOCUMENT_LENGTH;

/// The text, where it is not empty.
fn not_empty(text: Option<Text>) -> Option<Text>
    ensures { result ≡ not_empty text }
{
    match text {
        Some(text) => { if text.is_empty() { None } else { Some(text) } }
        None => None,
    }
}

/// The name of the provider that an EntityDescriptor describes; none where the element is no EntityDescriptor or the name
/// is empty.
fn read_entity(alloc: Global, at: At<'_, '_>) -> Result<Option<Text>, NoMemory>
    ensures { IfOk result (λ name. name ≡ entity (tree_of at.entry) at.entry.node.0) }
{
    if !at.is_named(md("EntityDescriptor")) {
        return Ok(None);
    }
    let name = attr_text(alloc, at, "entityID")?;
    Ok(not_empty(name))
}

/// Whether the binding of an endpoint is HTTP POST (SAML Metadata, 2.2.2).
fn takes_post(alloc: Global, endpoint: At<'_, '_>) -> Result<bool, NoMemory>
    ensures { IfOk result (λ is. is ≡ is_there uris.post (attribute_text (tree_of endpoint.entry) endpoint.entry.node.0 (codes "Binding"))) }
{
    match attr_text(alloc, endpoint, "Binding")? {
        Some(binding) => Ok(binding.as_str() == POST),
        None => Ok(false),
    }
}

/// The Location of the first endpoint of this name below a descriptor whose binding is HTTP POST.
fn read_address(alloc: Global, at: At<'_, '_>, local: &str) -> Result<Option<Text>, NoMemory>
    ensures { IfOk result (λ found. found ≡ address (tree_of at.entry) at.entry.node.0 local.now) }
{
    let mut left = ElementChildren::of(at);
    while let Some(endpoint) = left.next_named(md(local)) {
        if takes_post(alloc, endpoint)? {
            return attr_text(alloc, endpoint, "Location");
        }
    }
    Ok(None)
}

/// The provider that an EntityDescriptor describes in this role (SAML Metadata, 2.3.2).
///
/// # Errors
///
/// The first of these: `WrongShape`, exactly where the element is no EntityDescriptor with a name that has just one
/// descriptor of the role; `NoPostService`, exactly where the first endpoint of HTTP POST for sign-on has no address, or
/// there is none. `NoMemory` may come in place of any other answer. `Tree` does not come.
pub fn read_peer_at(alloc: Global, at: At<'_, '_>, role: Role) -> Result<Peer, MetaFault>
    ensures { Gives (λ peer. peer) fault_of result (peer_of (tree_of at.entry) at.entry.node.0 role) }
{
    let Some(entity) = read_entity(alloc, at)? else {
        return Err(MetaFault::WrongShape);
    };
    let Ok(descriptor) = only_child(at, MD, role.descriptor()) else {
        return Err(MetaFault::WrongShape);
    };
    let Some(service) = not_empty(read_address(alloc, descriptor, role.sign_on())?) else {
        return Err(MetaFault::NoPostService);
    };
    let logout = read_address(alloc, descriptor, "SingleLogoutService")?;
    Ok(Peer {
        entity,
        service,
        logout,
    })
}

/// The provider that the root of a document describes in this role. The text has at most `MAX_DOCUMENT_LENGTH` bytes.
///
/// # Errors
///
/// `Tree`, exactly where the text is no document that is read, with the reader's fault; then those of `read_peer_at`.
/// `NoMemory` may come in place of any other answer.
pub fn read_peer(alloc: Global, text: &[u8], role: Role) -> Result<Peer, MetaFault>
    requires { length text.now ≤ MAX_DOCUMENT_LENGTH }
    ensures ok { IfOk result (λ peer. IsRead text.now role (Ok peer)) }
    ensures refused { IfErr result (IsRefused text.now role) }
{
    match read_document(alloc, text) {
        Ok(doc) => {
            let at = At {
                doc: &doc,
                node: doc.root(),
            };
            read_peer_at(alloc, at, role)
        }
        Err(TreeFault::NoMemory) => Err(MetaFault::NoMemory),
        Err(fault) => Err(MetaFault::Tree(fault)),
    }
}
