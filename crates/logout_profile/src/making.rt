// The messages of a logout that are sent.

ghost use Rattle.std.specs.Prelude.{◌≡◌, ◌≢◌, ◌≤◌, [], IfOk, IsSomeAnd, Some};
ghost use Rattle.std.specs.List.{AllByRecursion};
ghost use Rattle.xml_spec.specs.Characters.{IsText};
ghost use Rattle.sig_reference.specs.Signing.{CanBeSigned};
ghost use Rattle.logout_profile.specs.Making.{IsSigned, IsRequest, IsResponse};

use element_make::Made;
use owned_values::{Blob, NoMemory, Texts};
use peer_keys::LogoutPeer;
use protocol_messages::{make_logout_request, make_logout_response};
use saml_time::LAST;
use sig_reference::sign;
use std::alloc::Global;

/// The address to which messages of a logout go.
fn address_of(peer: &LogoutPeer) -> &str
    requires { IsSomeAnd peer.now.peer.logout IsText }
    ensures given { peer.now.peer.logout ≡ Some result.now }
    ensures text { IsText result.now }
{
    peer.peer.logout.as_ref().unwrap().as_str()
}

/// What is written of a message that is signed with the peer's key.
fn signed(alloc: Global, peer: &LogoutPeer, message: Made) -> Result<Blob, NoMemory>
    requires { CanBeSigned message }
    ensures { IfOk result (IsSigned peer.now message) }
{
    let made = sign(alloc, message, peer.key_out.as_slice())?;
    let mut out = Vec::new(alloc);
    made.put(&mut out)?;
    Blob::of(alloc, out.as_slice())
}

/// The bytes of a LogoutRequest to the peer's address for logout, signed with the peer's key (SAML Core, 3.7.1): `issuer` asks to end
/// the sessions `indexes` of the user `name`, all of them where none is listed. It is issued at `issued`, in milliseconds since
/// 1970-01-01T00:00:00Z, and expires 300 seconds later, or with the last moment that has a written form.
///
/// # Errors
///
/// `NoMemory` alone.
pub fn logout_request(
    alloc: Global,
    peer: &LogoutPeer,
    id: &str,
    issuer: &str,
    issued: u64,
    name: &str,
    indexes: &Texts,
) -> Result<Blob, NoMemory>
    requires address { IsSomeAnd peer.now.peer.logout IsText }
    requires id { IsText id.now }
    requires named { id.now ≢ [] }
    requires issuer { IsText issuer.now }
    requires issued { issued ≤ LAST }
    requires name { IsText name.now }
    requires indexes { AllByRecursion IsText indexes.now }
    ensures { IfOk result (IsRequest peer.now id.now issuer.now issued name.now indexes.now) }
{
    let address = address_of(peer);
    let message = make_logout_request(alloc, id, issuer, address, issued, name, indexes)?;
    signed(alloc, peer, message)
}

/// The bytes of a LogoutResponse to the peer's address for logout, signed with the peer's key (SAML Core, 3.7.2): `issuer` replies to
/// the request with the ID `request` that the logout succeeded or, where it is partial, that not all sessions ended. It is issued at
/// `issued`, in milliseconds since 1970-01-01T00:00:00Z.
///
/// # Errors
///
/// `NoMemory` alone.
pub fn logout_response(
    alloc: Global,
    peer: &LogoutPeer,
    id: &str,
    issuer: &str,
    issued: u64,
    request: &str,
    partial: bool,
) -> Result<Blob, NoMemory>
    requires address { IsSomeAnd peer.now.peer.logout IsText }
    requires id { IsText id.now }
    requires named { id.now ≢ [] }
    requires issuer { IsText issuer.now }
    requires issued { issued ≤ LAST }
    requires request { IsText request.now }
    ensures { IfOk result (IsResponse peer.now id.now issuer.now issued request.now partial) }
{
    let address = address_of(peer);
    let message = make_logout_response(alloc, id, issuer, address, request, issued, partial)?;
    signed(alloc, peer, message)
}
