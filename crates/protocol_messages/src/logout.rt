// Requests and responses of a logout (SAML Core, 3.7).

ghost use Rattle.std.specs.Prelude.{◌≡◌, IfOk, IfErr, Some, None, codes, map};
ghost use Rattle.std.specs.Option.{option_map};
ghost use Rattle.saml_names.specs.Names.{saml, samlp};
ghost use Rattle.tree_read.specs.Children.{children};
ghost use Rattle.tree_read.specs.Faults.{IsShapeFault};
ghost use Rattle.tree_read.specs.Texts.{text_of};
ghost use Rattle.tree_read.specs.Views.{tree_of};
ghost use Rattle.owned_values.specs.Options.{is_there};
ghost use Rattle.protocol_messages.specs.Messages.{only, outcome_of, IsLogoutRequest, IsLogoutResponse};
ghost use Rattle.protocol_messages.specs.declared.logout.LogoutRequest.{LogoutRequest};
ghost use Rattle.protocol_messages.specs.declared.logout.LogoutResponse.{LogoutResponse};

use crate::parts::{Status, one, read_head, read_issuer, read_moment, read_status};
use owned_values::{NoMemory, Text, Texts};
use saml_names::{PARTIAL_LOGOUT, SUCCESS, saml, samlp};
use std::alloc::Global;
use tree_read::{At, ElementChildren, ShapeFault, attr_text, text_of};

/// A request to end sessions of a user.
#[derive(Debug, Drop)]
pub struct LogoutRequest {
    /// Its ID, of 1 to 256 bytes.
    pub id: Text,
    /// The provider that sent it.
    pub issuer: Text,
    /// Where it was sent to.
    pub destination: Option<Text>,
    /// From when on it is not to be taken, in milliseconds since 1970: NotOnOrAfter.
    pub until: Option<u64>,
    /// The name of the user: NameID.
    pub name: Text,
    /// The sessions: each SessionIndex.
    pub indexes: Texts,
}

/// What became of a logout.
#[derive(Clone, Copy, Debug, PartialEq, Eq)]
pub enum Outcome {
    /// All sessions ended.
    Success,
    /// Not all participants were reached.
    Partial,
    /// Neither is said.
    Other,
}

/// A response to a request to end sessions.
#[derive(Debug, Drop)]
pub struct LogoutResponse {
    /// Its ID, of 1 to 256 bytes.
    pub id: Text,
    /// The provider that sent it.
    pub issuer: Text,
    /// Where it was sent to.
    pub destination: Option<Text>,
    /// The ID of the request that it answers: InResponseTo.
    pub request: Text,
    /// What became of the logout.
    pub outcome: Outcome,
}

/// The name of the user in the one NameID.
///
/// # Errors
///
/// `WrongShape`, exactly where there is not just one NameID.
fn read_name(alloc: Global, at: At<'_, '_>) -> Result<Text, ShapeFault>
    ensures ok { IfOk result (λ name. option_map (text_of (tree_of at.entry)) (only (children (tree_of at.entry) at.entry.node.0 (saml (codes "NameID")))) ≡ Some name) }
    ensures other { IfErr result (λ fault. IsShapeFault fault (only (children (tree_of at.entry) at.entry.node.0 (saml (codes "NameID"))) ≡ None)) }
{
    let name = one(at, saml("NameID"))?;
    Ok(text_of(alloc, name)?)
}

/// The text of each SessionIndex, in document order.
fn read_indexes(alloc: Global, at: At<'_, '_>) -> Result<Texts, NoMemory>
    ensures { IfOk result (λ indexes. map (text_of (tree_of at.entry)) (children (tree_of at.entry) at.entry.node.0 (samlp (codes "SessionIndex"))) ≡ indexes) }
{
    let mut indexes = Texts::new(alloc);
    let mut left = ElementChildren::of(at);
    while let Some(index) = left.next_named(samlp("SessionIndex")) {
        indexes.push(text_of(alloc, index)?)?;
    }
    Ok(indexes)
}

/// Reads a LogoutRequest (SAML Core, 3.7.1).
///
/// # Errors
///
/// `WrongShape`, exactly where the element is none.
pub fn read_logout_request(alloc: Global, at: At<'_, '_>) -> Result<LogoutRequest, ShapeFault>
    ensures ok { IfOk result (λ message. IsLogoutRequest (tree_of at.entry) at.entry.node.0 message) }
    ensures other { IfErr result (λ fault. IsShapeFault fault ((message : LogoutRequest) → ¬ (IsLogoutRequest (tree_of at.entry) at.entry.node.0 message))) }
{
    let head = read_head(alloc, at, "LogoutRequest")?;
    let issuer = read_issuer(alloc, at)?;
    let until = read_moment(alloc, at, "NotOnOrAfter")?;
    let name = read_name(alloc, at)?;
    let destination = attr_text(alloc, at, "Destination")?;
    let indexes = read_indexes(alloc, at)?;
    Ok(LogoutRequest {
        id: head.id,
        issuer,
        destination,
        until,
        name,
        indexes,
    })
}

/// Whether a text is given, and is this one.
fn is_given(wanted: &str, text: &Option<Text>) -> bool
    ensures { result ≡ is_there wanted.now text.now }
{
    match text {
        Some(text) => text.as_str() == wanted,
        None => false,
    }
}

/// What a status says of a logout (SAML Core, 3.7.3.2).
fn outcome_of(status: &Status) -> Outcome
    ensures { result ≡ outcome_of status.now }
{
    if is_given(PARTIAL_LOGOUT, &status.inner) {
        Outcome::Partial
    } else if status.top.as_str() == SUCCESS {
        Outcome::Success
    } else {
        Outcome::Other
    }
}

/// Reads a LogoutResponse (SAML Core, 3.7.2).
///
/// # Errors
///
/// `WrongShape`, exactly where the element is none.
pub fn read_logout_response(alloc: Global, at: At<'_, '_>) -> Result<LogoutResponse, ShapeFault>
    ensures ok { IfOk result (λ message. IsLogoutResponse (tree_of at.entry) at.entry.node.0 message) }
    ensures other { IfErr result (λ fault. IsShapeFault fault ((message : LogoutResponse) → ¬ (IsLogoutResponse (tree_of at.entry) at.entry.node.0 message))) }
{
    let head = read_head(alloc, at, "LogoutResponse")?;
    let issuer = read_issuer(alloc, at)?;
    let status = read_status(alloc, at)?;
    let Some(request) = attr_text(alloc, at, "InResponseTo")? else {
        return Err(ShapeFault::WrongShape);
    };
    let destination = attr_text(alloc, at, "Destination")?;
    Ok(LogoutResponse {
        id: head.id,
        issuer,
        destination,
        request,
        outcome: outcome_of(&status),
    })
}
