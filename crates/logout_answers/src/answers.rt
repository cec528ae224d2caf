// The answers of a logout.

ghost use Rattle.std.specs.Prelude.{◌≡◌, ◌≢◌, ◌≤◌, [], IfOk, None};
ghost use Rattle.std.specs.List.{AllByRecursion};
ghost use Rattle.std.specs.Option.{option_map, ForSome};
ghost use Rattle.xml_spec.specs.Characters.{IsText};
ghost use Rattle.post_binding.specs.Pages.{auto_form};
ghost use Rattle.http_wire.specs.Answers.{answer};
ghost use Rattle.logout_answers.specs.Answers as spec;

use http_wire::full_answer;
use logout_profile::{logout_request, logout_response};
use owned_values::{Blob, NoMemory, Text, Texts};
use peer_keys::LogoutPeer;
use post_binding::{Field, auto_form, end_page};
use protocol_messages::Outcome;
use saml_time::LAST;
use std::alloc::Global;

/// The status of a page.
const OK: u16 = 200;

/// The address to which messages of a logout are posted at the provider whose addresses begin with `base` (SAML Metadata, 2.4.2,
/// SingleLogoutService).
///
/// # Errors
///
/// `NoMemory` alone.
pub fn logout_address(alloc: Global, base: &str) -> Result<Text, NoMemory>
    ensures { IfOk result (λ address. address ≡ spec.logout_address base.now) }
{
    let mut address = Text::of(alloc, base)?;
    address.push("/slo")?;
    Ok(address)
}

/// Whether a logout ended in part at most (SAML Core, 3.2.2.2).
pub fn is_in_part(outcome: Outcome) -> bool
    ensures { result ≡ spec.is_in_part outcome }
{
    match outcome {
        Outcome::Success => false,
        Outcome::Partial | Outcome::Other => true,
    }
}

/// The answer with a form that sends a message on to this address, with the relay where there is one (SAML Bindings, 3.5.4).
fn form_answer(
    alloc: Global,
    address: &str,
    field: Field,
    message: &[u8],
    relay: Option<&str>,
) -> Result<Blob, NoMemory>
    ensures { IfOk result (λ bytes. bytes ≡ answer 200 None None (auto_form address.now field message.now (option_map (λ text. text.now) relay.entry))) }
{
    let page = auto_form(alloc, address, field, message, relay)?;
    full_answer(alloc, OK, None, None, page.as_slice())
}

/// The answer that shows how a logout ended: `PartialLogout` where it did not end at each participant, else `Success` (the names of
/// SAML Core, 3.2.2.2).
///
/// # Errors
///
/// `NoMemory` alone.
pub fn end_answer(alloc: Global, partial: bool) -> Result<Blob, NoMemory>
    ensures { IfOk result (λ bytes. bytes ≡ spec.end_answer partial) }
{
    let page = end_page(alloc, partial)?;
    full_answer(alloc, OK, None, None, page.as_slice())
}

/// The answer to a user who leaves: a form that sends on a LogoutRequest with this ID for the user `name` and the sessions `indexes`,
/// all of them where none is listed (SAML Profiles, 4.4.3.1). It is issued at `now`, in milliseconds since 1970-01-01T00:00:00Z, and
/// signed with the key that is shared with the peer. Where the peer has no address for logout, the answer shows that the logout is
/// partial.
///
/// # Errors
///
/// `NoMemory` alone.
pub fn leaving_answer(
    alloc: Global,
    peer: &LogoutPeer,
    id: &str,
    issuer: &str,
    now: u64,
    name: &str,
    indexes: &Texts,
) -> Result<Blob, NoMemory>
    requires address { ForSome peer.now.peer.logout IsText }
    requires id { IsText id.now }
    requires named { id.now ≢ [] }
    requires issuer { IsText issuer.now }
    requires now { now ≤ LAST }
    requires name { IsText name.now }
    requires indexes { AllByRecursion IsText indexes.now }
    ensures { IfOk result (spec.Leaving peer.now id.now issuer.now now name.now indexes.now) }
{
    let Some(address) = &peer.peer.logout else {
        return end_answer(alloc, true);
    };
    let message = logout_request(alloc, peer, id, issuer, now, name, indexes)?;
    form_answer(
        alloc,
        address.as_str(),
        Field::Request,
        message.as_slice(),
        None,
    )
}

/// The answer to a peer that asked to end sessions by the request with the ID `request`: a form that sends on a LogoutResponse with
/// this ID, Success or, where it is partial, that not all sessions ended, with the relay of the request, where there was one (SAML
/// Profiles, 4.4.3.4; SAML Bindings, 3.5.3). It is issued at `now`, in milliseconds since 1970-01-01T00:00:00Z, and signed with the
/// key that is shared with the peer. Where the peer has no address for logout, the answer shows how the logout ended.
///
/// # Errors
///
/// `NoMemory` alone.
pub fn ending_answer(
    alloc: Global,
    peer: &LogoutPeer,
    id: &str,
    issuer: &str,
    now: u64,
    request: &str,
    partial: bool,
    relay: Option<&str>,
) -> Result<Blob, NoMemory>
    requires address { ForSome peer.now.peer.logout IsText }
    requires id { IsText id.now }
    requires named { id.now ≢ [] }
    requires issuer { IsText issuer.now }
    requires now { now ≤ LAST }
    requires request { IsText request.now }
    ensures { IfOk result (spec.Ending peer.now id.now issuer.now now request.now partial (option_map (λ text. text.now) relay.entry)) }
{
    let Some(address) = &peer.peer.logout else {
        return end_answer(alloc, partial);
    };
    let message = logout_response(alloc, peer, id, issuer, now, request, partial)?;
    form_answer(
        alloc,
        address.as_str(),
        Field::Response,
        message.as_slice(),
        relay,
    )
}
