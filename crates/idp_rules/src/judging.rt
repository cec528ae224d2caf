// The verdict on a posted request (SAML Profiles, 4.1.4.1; SAML Bindings, 3.5).

ghost use Rattle.std.specs.Prelude.{◌≡◌, ◌≤◌, ◌<◌, List, ℕ, codes, length, true, Some, unwrap_or, IfOk, IfErr, OnOk};
ghost use Rattle.saml_names.specs.Names.{ds};
ghost use Rattle.tree_read.specs.Children.{children};
ghost use Rattle.tree_read.specs.Views.{tree_of};
ghost use Rattle.post_binding.specs.Form.{form};
ghost use Rattle.protocol_messages.specs.Messages.{is_any, IsAuthnRequest};
ghost use Rattle.fault_verdicts.specs.Judging.{IsJudged};
ghost use Rattle.idp_rules.specs.Asking as asking;
ghost use Rattle.idp_rules.specs.Asking.{Posts, IsAuthentic, IsAsked};
ghost use Rattle.idp_rules.specs.Verdict.{form_refusal, IsRefused};
ghost use Rattle.idp_rules.specs.Views.{IsNoRequest, IsSender, IsNoSender, IsForged};

use crate::asked::Asked;
use fault_verdicts::Judged;
use owned_values::{Blob, NoMemory, Text};
use peer_keys::{LogoutPeer, place_of};
use post_binding::{Field, MESSAGE_LIMIT, read_form};
use protocol_messages::{AuthnRequest, read_authn};
use saml_names::ds;
use saml_tree::{Doc, read_document};
use sig_reference::{SigFault, verify};
use std::alloc::Global;
use tree_read::{At, ElementChildren, ShapeFault};
use verdict_codes::{Verdict, ask};

/// The message of a form in which a request was posted, with its relay.
fn read_posted(alloc: Global, body: &[u8]) -> Result<(Blob, Option<Text>), Judged>
    ensures posts { IfOk result (λ posted. Posts body.now posted.0 posted.1) }
    ensures small { IfOk result (λ posted. length posted.0 ≤ MESSAGE_LIMIT) }
    ensures refused { IfErr result (IsJudged (λ verdict. form_refusal (form body.now) ≡ Some verdict)) }
{
    let posted = read_form(alloc, body)?;
    match posted.field {
        Field::Request => Ok((posted.message, posted.relay)),
        Field::Response => Err(Judged::Code(Verdict::BadForm)),
    }
}

/// What the AuthnRequest at the root of a document says.
fn read_request(alloc: Global, root: At<'_, '_>) -> Result<AuthnRequest, Judged>
    ensures ok { IfOk result (IsAuthnRequest (tree_of root.entry) root.entry.node.0) }
    ensures refused { IfErr result (IsJudged (IsNoRequest (tree_of root.entry) root.entry.node.0)) }
{
    match read_authn(alloc, root) {
        Ok(request) => Ok(request),
        Err(ShapeFault::WrongShape) => Err(Judged::Code(Verdict::NotAuthnRequest)),
        Err(ShapeFault::NoMemory) => Err(Judged::NoMemory),
    }
}

/// Whether a message has a Signature.
fn is_signed(root: At<'_, '_>) -> bool
    ensures { result ≡ is_any (children (tree_of root.entry) root.entry.node.0 (ds (codes "Signature"))) }
{
    let left = ElementChildren::of(root);
    !left.has_no(ds("Signature"))
}

/// Whether a Destination is this address; where there is none the message may not be signed.
fn is_destination(address: &str, signed: bool, destination: &Option<Text>) -> bool
    ensures { result ≡ asking.is_destination address.now signed destination.now }
{
    match destination {
        Some(destination) if !destination.is_empty() => destination.as_str() == address,
        _ => !signed,
    }
}

/// Whether the Response is wanted by HTTP POST at the address of the peer's metadata.
fn is_wanted_at(peer: &LogoutPeer, request: &AuthnRequest) -> bool
    ensures { result ≡ asking.is_wanted_at peer.now request.now }
{
    let consumer = match &request.consumer {
        Some(consumer) => consumer.as_str() == peer.peer.service.as_str(),
        None => true,
    };
    consumer && !request.other_binding
}

/// The place of the peer that sent a request to this address, and wants its Response where the peer's metadata has it.
fn sender_of(
    peers: &[LogoutPeer],
    address: &str,
    signed: bool,
    request: &AuthnRequest,
) -> Result<usize, Verdict>
    ensures ok { IfOk result (IsSender peers.now address.now signed request.now) }
    ensures there { IfOk result (λ place. place < length peers.now) }
    ensures refused { IfErr result (IsNoSender peers.now address.now signed request.now) }
{
    let Some(place) = place_of(peers, request.issuer.as_str()) else {
        return Err(Verdict::UnknownIssuer);
    };
    ask(
        is_destination(address, signed, &request.destination),
        Verdict::RequestDestination,
    )?;
    ask(is_wanted_at(&peers[place], request), Verdict::WrongConsumer)?;
    Ok(place)
}

/// Asks that the Signature of a message, where it has one, vouches for it.
fn authenticate(
    alloc: Global,
    peer: &LogoutPeer,
    root: At<'_, '_>,
    signed: bool,
) -> Result<(), SigFault>
    requires top { root.node.0 ≡ 0 }
    requires signed { signed ≡ asking.is_signed (tree_of root) }
    ensures ok { OnOk result (IsAuthentic peer.now (tree_of root.entry)) }
    ensures refused { IfErr result (IsForged peer.now (tree_of root.entry)) }
{
    if signed {
        verify(alloc, root.doc, root.node, peer.key_in.as_slice())?;
    }
    Ok(())
}

/// Where the Response goes: to the address that is asked for, and else to that of the peer's metadata.
fn consumer_of(consumer: Option<Text>, peer: &LogoutPeer) -> Result<Text, NoMemory>
    ensures { IfOk result (λ address. address ≡ unwrap_or consumer peer.now.peer.service) }
{
    match consumer {
        Some(consumer) => Ok(consumer),
        None => peer.peer.service.copy(),
    }
}

/// The verdict on a document that was posted with a relay.
fn judge_document(
    alloc: Global,
    peers: &[LogoutPeer],
    address: &str,
    doc: &Doc<'_>,
    relay: Option<Text>,
) -> Result<Asked, Judged>
    ensures accepted { IfOk result (λ asked. (body : List ℕ) → Posts body doc.now.text relay → IsAsked peers.now address.now body asked) }
    ensures place { IfOk result (λ asked. asked.peer < length peers.now) }
    ensures refused { IfErr result (λ judged. (body : List ℕ) → Posts body doc.now.text relay → IsJudged (IsRefused peers.now address.now body) judged) }
{
    let root = At {
        doc,
        node: doc.root(),
    };
    let request = read_request(alloc, root)?;
    let signed = is_signed(root);
    let place = sender_of(peers, address, signed, &request)?;
    authenticate(alloc, &peers[place], root, signed)?;
    let consumer = consumer_of(request.consumer, &peers[place])?;
    Ok(Asked {
        peer: place,
        request: request.id,
        consumer,
        relay,
        force: request.force,
        passive: request.passive,
    })
}

/// Judges a form that was posted to an identity provider's address for sign-on.
///
/// # Errors
///
/// The verdict of the first condition that fails. `NoMemory` may come in place of any other answer.
pub fn judge_request(
    alloc: Global,
    peers: &[LogoutPeer],
    address: &str,
    body: &[u8],
) -> Result<Asked, Judged>
    ensures accepted { IfOk result (IsAsked peers.now address.now body.now) }
    ensures place { IfOk result (λ asked. asked.peer < length peers.now) }
    ensures refused { IfErr result (IsJudged (IsRefused peers.now address.now body.now)) }
{
    let (message, relay) = read_posted(alloc, body)?;
    let doc = read_document(alloc, message.as_slice())?;
    judge_document(alloc, peers, address, &doc, relay)
}
