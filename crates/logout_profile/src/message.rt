// The message that a form carries.

ghost use Rattle.std.specs.Prelude.{◌≡◌, IfOk, IfErr};
ghost use Rattle.tree_read.specs.Views.{tree_of};
ghost use Rattle.verdict_codes.specs.declared.codes.Verdict.TheVariants.{NotLogout};
ghost use Rattle.fault_verdicts.specs.Judging.{judged_of, IsJudged};
ghost use Rattle.logout_profile.specs.Carrying.{IsMessage, issuer_of, destination_of, until_of, logout_of};
ghost use Rattle.logout_profile.specs.Verdict.{of_shape};
ghost use Rattle.logout_profile.specs.declared.message.Message.{Message};

use crate::logout::Logout;
use fault_verdicts::Judged;
use owned_values::Text;
use post_binding::Field;
use protocol_messages::{
    LogoutRequest, LogoutResponse, ShapeFault, read_logout_request, read_logout_response,
};
use std::alloc::Global;
use tree_read::At;
use verdict_codes::Verdict;

/// A message of a logout.
#[derive(Drop)]
pub(crate) enum Message {
    Ask(LogoutRequest),
    Reply(LogoutResponse),
}

impl Message {
    /// Who sent it.
    pub(crate) fn issuer(&self) -> &Text
        ensures { result.now ≡ issuer_of self.now }
    {
        match self {
            Message::Ask(request) => &request.issuer,
            Message::Reply(response) => &response.issuer,
        }
    }

    /// Where it was sent to, where it says so.
    pub(crate) fn destination(&self) -> &Option<Text>
        ensures { result.now ≡ destination_of self.now }
    {
        match self {
            Message::Ask(request) => &request.destination,
            Message::Reply(response) => &response.destination,
        }
    }

    /// When it expires, where it says so.
    pub(crate) fn until(&self) -> Option<u64>
        ensures { result ≡ until_of self.now }
    {
        match self {
            Message::Ask(request) => request.until,
            Message::Reply(_) => None,
        }
    }

    /// What it asks or replies, as a message of the peer at this place that came with this relay.
    pub(crate) fn into_logout(self, peer: usize, relay: Option<Text>) -> Logout
        ensures { result ≡ logout_of self peer relay }
    {
        match self {
            Message::Ask(request) => Logout::Ask {
                request,
                peer,
                relay,
            },
            Message::Reply(response) => Logout::Reply { response, peer },
        }
    }
}

/// The refusal of a root that is no message of a logout.
fn not_logout(fault: ShapeFault) -> Judged
    ensures { result ≡ judged_of (of_shape fault) }
{
    match fault {
        ShapeFault::WrongShape => Judged::Code(Verdict::NotLogout),
        ShapeFault::NoMemory => Judged::NoMemory,
    }
}

/// Reads the message of a logout that stood in this field (SAML Bindings, 3.5.4).
///
/// # Errors
///
/// `NotLogout`, exactly where the element is no message of a logout that fits the field.
pub(crate) fn read_message(alloc: Global, field: Field, at: At<'_, '_>) -> Result<Message, Judged>
    ensures ok { IfOk result (IsMessage field (tree_of at.entry) at.entry.node.0) }
    ensures other { IfErr result (IsJudged (λ verdict. (verdict ≡ NotLogout) × ((message : Message) → ¬ (IsMessage field (tree_of at.entry) at.entry.node.0 message)))) }
{
    match field {
        Field::Request => match read_logout_request(alloc, at) {
            Ok(request) => Ok(Message::Ask(request)),
            Err(fault) => Err(not_logout(fault)),
        },
        Field::Response => match read_logout_response(alloc, at) {
            Ok(response) => Ok(Message::Reply(response)),
            Err(fault) => Err(not_logout(fault)),
        },
    }
}
