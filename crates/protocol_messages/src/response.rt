// Responses to a request for an authentication (SAML Core, 3.3.3).

ghost use Rattle.std.specs.Prelude.{◌≡◌, IfOk, IfErr, Some, None, codes};
ghost use Rattle.std.specs.List.{AllByRecursion};
ghost use Rattle.std.specs.Option.{option_map};
ghost use Rattle.saml_names.specs.Names.{saml};
ghost use Rattle.saml_names.specs.Views.{name_of};
ghost use Rattle.saml_tree.specs.Elements.{IsElement};
ghost use Rattle.tree_read.specs.Children.{children};
ghost use Rattle.tree_read.specs.Faults.{IsShapeFault};
ghost use Rattle.tree_read.specs.Views.{tree_of};
ghost use Rattle.protocol_messages.specs.Messages.{issuer_named, at_most_one, is_any, IsResponse};
ghost use Rattle.protocol_messages.specs.declared.response.ResponseHead.{ResponseHead};

use crate::parts::{read_head, read_status};
use owned_values::Text;
use saml_names::{ExpandedName, SAML, SUCCESS, ds, saml};
use std::alloc::Global;
use tree_read::{
    At, ElementChildren, Nodes, ShapeFault, at_most_one, attr_text, children, trimmed,
};

/// What a Response says outside its Assertions.
#[derive(Debug, Drop)]
pub struct ResponseHead {
    /// Its ID, of 1 to 256 bytes.
    pub id: Text,
    /// The provider that sent it.
    pub issuer: Option<Text>,
    /// Where it was sent to.
    pub destination: Option<Text>,
    /// The ID of the request that it answers: InResponseTo.
    pub request: Option<Text>,
    /// Whether its status is Success.
    pub success: bool,
    /// Whether it has a Signature of its own.
    pub has_signature: bool,
    /// Its Assertions.
    pub assertions: Nodes,
}

/// The provider that the Issuer of a Response names; none where it has no Issuer.
///
/// # Errors
///
/// `WrongShape`, exactly where it has several.
fn read_issuer_at_most(alloc: Global, at: At<'_, '_>) -> Result<Option<Text>, ShapeFault>
    ensures ok { IfOk result (λ issuer. option_map (option_map (issuer_named (tree_of at.entry)))
        (at_most_one (children (tree_of at.entry) at.entry.node.0 (saml (codes "Issuer")))) ≡ Some issuer) }
    ensures other { IfErr result (λ fault. IsShapeFault fault (at_most_one (children (tree_of at.entry) at.entry.node.0 (saml (codes "Issuer"))) ≡ None)) }
{
    match at_most_one(at, saml("Issuer"))? {
        Some(issuer) => Ok(Some(trimmed(alloc, issuer)?)),
        None => Ok(None),
    }
}

/// Whether an element has a child of this name.
fn has_child(at: At<'_, '_>, name: ExpandedName<'_>) -> bool
    ensures { result ≡ is_any (children (tree_of at.entry) at.entry.node.0 (name_of name.entry)) }
{
    let left = ElementChildren::of(at);
    !left.has_no(name)
}

/// Reads a Response (SAML Core, 3.3.3). Its Assertions are not looked into.
///
/// # Errors
///
/// `WrongShape`, exactly where the element is none.
pub fn read_response(alloc: Global, at: At<'_, '_>) -> Result<ResponseHead, ShapeFault>
    ensures ok { IfOk result (λ message. IsResponse (tree_of at.entry) at.entry.node.0 message) }
    ensures elements { IfOk result (λ message. AllByRecursion (λ n. IsElement (tree_of at.entry) n) message.assertions) }
    ensures other { IfErr result (λ fault. IsShapeFault fault ((message : ResponseHead) → ¬ (IsResponse (tree_of at.entry) at.entry.node.0 message))) }
{
    let head = read_head(alloc, at, "Response")?;
    let issuer = read_issuer_at_most(alloc, at)?;
    let status = read_status(alloc, at)?;
    let destination = attr_text(alloc, at, "Destination")?;
    let request = attr_text(alloc, at, "InResponseTo")?;
    let assertions = children(alloc, at, SAML, "Assertion")?;
    Ok(ResponseHead {
        id: head.id,
        issuer,
        destination,
        request,
        success: status.top.as_str() == SUCCESS,
        has_signature: has_child(at, ds("Signature")),
        assertions,
    })
}
