// Requests for an authentication (SAML Core, 3.4.1).

ghost use Rattle.std.specs.Prelude.{◌≡◌, IfOk, IfErr};
ghost use Rattle.tree_read.specs.Faults.{IsShapeFault};
ghost use Rattle.tree_read.specs.Texts.{attribute_text};
ghost use Rattle.tree_read.specs.Views.{tree_of};
ghost use Rattle.std.specs.Prelude.{codes};
ghost use Rattle.protocol_messages.specs.Messages.{is_other_binding, IsAuthnRequest};
ghost use Rattle.protocol_messages.specs.declared.authn.AuthnRequest.{AuthnRequest};

use crate::parts::{read_flag, read_head, read_issuer};
use owned_values::{NoMemory, Text};
use saml_names::POST;
use std::alloc::Global;
use tree_read::{At, ShapeFault, attr_text};

/// A request for an authentication.
#[derive(Debug, Drop)]
pub struct AuthnRequest {
    /// Its ID, of 1 to 256 bytes.
    pub id: Text,
    /// The provider that sent it.
    pub issuer: Text,
    /// Where it was sent to.
    pub destination: Option<Text>,
    /// Where the response is to be sent to: AssertionConsumerServiceURL.
    pub consumer: Option<Text>,
    /// Whether the response is wanted in another binding than HTTP POST.
    pub other_binding: bool,
    /// Whether the user has to be authenticated anew: ForceAuthn.
    pub force: bool,
    /// Whether the user may not be asked: IsPassive.
    pub passive: bool,
    /// When it was issued, in milliseconds since 1970.
    pub issued: u64,
}

/// Whether the response is wanted in another binding than HTTP POST.
fn wants_other_binding(alloc: Global, at: At<'_, '_>) -> Result<bool, NoMemory>
    ensures { IfOk result (λ other. is_other_binding (attribute_text (tree_of at.entry) at.entry.node.0 (codes "ProtocolBinding")) ≡ other) }
{
    match attr_text(alloc, at, "ProtocolBinding")? {
        Some(binding) => Ok(binding.as_str() != POST),
        None => Ok(false),
    }
}

/// Reads an AuthnRequest (SAML Core, 3.4.1).
///
/// # Errors
///
/// `WrongShape`, exactly where the element is none.
pub fn read_authn(alloc: Global, at: At<'_, '_>) -> Result<AuthnRequest, ShapeFault>
    ensures ok { IfOk result (λ message. IsAuthnRequest (tree_of at.entry) at.entry.node.0 message) }
    ensures other { IfErr result (λ fault. IsShapeFault fault ((message : AuthnRequest) → ¬ (IsAuthnRequest (tree_of at.entry) at.entry.node.0 message))) }
{
    let head = read_head(alloc, at, "AuthnRequest")?;
    let issuer = read_issuer(alloc, at)?;
    let force = read_flag(alloc, at, "ForceAuthn")?;
    let passive = read_flag(alloc, at, "IsPassive")?;
    let destination = attr_text(alloc, at, "Destination")?;
    let consumer = attr_text(alloc, at, "AssertionConsumerServiceURL")?;
    let other_binding = wants_other_binding(alloc, at)?;
    Ok(AuthnRequest {
        id: head.id,
        issuer,
        destination,
        consumer,
        other_binding,
        force,
        passive,
        issued: head.issued,
    })
}
