// What a posted form asks or replies of a logout.

ghost use Rattle.std.specs.Prelude.{◌≡◌, ◌≤◌, ℕ, List, IfOk, IfErr, Ok, None, Some, length};
ghost use Rattle.std.specs.Option.{option_map};
ghost use Rattle.saml_tree.specs.Documents.{IsSpelled};
ghost use Rattle.post_binding.specs.Form.{form};
ghost use Rattle.fault_verdicts.specs.Judging.{IsJudged};
ghost use Rattle.logout_profile.specs.Carrying.{Posts};
ghost use Rattle.logout_profile.specs.Verdict.{form_refusal, IsRefused, IsAccepted};

use crate::logout::Logout;
use crate::meant::ask_meant;
use crate::message::read_message;
use crate::vouching::ask_vouched;
use fault_verdicts::Judged;
use owned_values::Text;
use peer_keys::{LogoutPeer, place_of};
use post_binding::{Field, MESSAGE_LIMIT, Posted, read_form};
use saml_time::LAST;
use saml_tree::{Doc, read_document};
use std::alloc::Global;
use tree_read::At;
use verdict_codes::Verdict;

/// The message of a form, in its field and with its relay.
fn read_posted(alloc: Global, body: &[u8]) -> Result<Posted, Judged>
    ensures posts { IfOk result (λ posted. form body.now ≡ Ok posted) }
    ensures small { IfOk result (λ posted. length posted.message ≤ MESSAGE_LIMIT) }
    ensures refused { IfErr result (IsJudged (λ verdict. form_refusal (form body.now) ≡ Some verdict)) }
{
    let posted = read_form(alloc, body)?;
    Ok(posted)
}

/// What a document asks or replies that was posted in this field with a relay.
fn judge_document(
    alloc: Global,
    peers: &[LogoutPeer],
    second: Option<&[u8]>,
    address: &str,
    skew: u64,
    now: u64,
    field: Field,
    doc: &Doc<'_>,
    relay: Option<Text>,
) -> Result<Logout, Judged>
    requires now { now ≤ LAST }
    requires spelled { IsSpelled doc.now.text doc.now.tree }
    ensures accepted { IfOk result (λ logout. (body : List ℕ) → Posts body field doc.now.text relay →
        IsAccepted peers.now (option_map (λ key. key.now) second.entry) address.now skew now body logout) }
    ensures refused { IfErr result (λ judged. (body : List ℕ) → Posts body field doc.now.text relay →
        IsJudged (IsRefused peers.now (option_map (λ key. key.now) second.entry) address.now skew now body) judged) }
{
    let root = At {
        doc,
        node: doc.root(),
    };
    let message = read_message(alloc, field, root)?;
    let Some(place) = place_of(peers, message.issuer().as_str()) else {
        return Err(Judged::Code(Verdict::UnknownPeer));
    };
    ask_vouched(alloc, root, peers[place].key_in.as_slice(), second)?;
    ask_meant(address, skew, now, &message)?;
    Ok(message.into_logout(place, relay))
}

/// Judges a form as [`judge_logout`] does, where for a time a second key counts for the messages of each of these peers: it is tried
/// exactly where the peer's own key does not make the tag of a signature.
///
/// # Errors
///
/// The verdict of the first condition that fails. `NoMemory` may come in place of any other answer.
pub fn judge_logout_with(
    alloc: Global,
    peers: &[LogoutPeer],
    second: Option<&[u8]>,
    address: &str,
    skew: u64,
    now: u64,
    body: &[u8],
) -> Result<Logout, Judged>
    requires { now ≤ LAST }
    ensures accepted { IfOk result (IsAccepted peers.now (option_map (λ key. key.now) second.entry) address.now skew now body.now) }
    ensures refused { IfErr result (IsJudged (IsRefused peers.now (option_map (λ key. key.now) second.entry) address.now skew now body.now)) }
{
    let Posted {
        field,
        message,
        relay,
    } = read_posted(alloc, body)?;
    let doc = read_document(alloc, message.as_slice())?;
    judge_document(alloc, peers, second, address, skew, now, field, &doc, relay)
}

/// Judges a form that was posted to a provider's address for logout at the moment `now`, in milliseconds since 1970-01-01T00:00:00Z
/// (SAML Profiles, 4.4.3 and 4.4.4; SAML Bindings, 3.5). The clocks of the providers may differ by `skew` milliseconds.
///
/// # Errors
///
/// The verdict of the first condition that fails. `NoMemory` may come in place of any other answer.
pub fn judge_logout(
    alloc: Global,
    peers: &[LogoutPeer],
    address: &str,
    skew: u64,
    now: u64,
    body: &[u8],
) -> Result<Logout, Judged>
    requires { now ≤ LAST }
    ensures accepted { IfOk result (IsAccepted peers.now None address.now skew now body.now) }
    ensures refused { IfErr result (IsJudged (IsRefused peers.now None address.now skew now body.now)) }
{
    judge_logout_with(alloc, peers, None, address, skew, now, body)
}
