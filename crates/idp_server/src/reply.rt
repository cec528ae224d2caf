//! How a request is replied to with a record.
ghost use Rattle.std.specs.Prelude.{◌≤◌, IfSome, IsSome};
ghost use Rattle.saml_time.specs.declared.TheConstants.{LAST};
ghost use Rattle.idp_ledger.specs.Drafts.{DraftsSome};
ghost use Rattle.record_ledger.specs.Drafts.{SameLedger};
ghost use Rattle.idp_server.specs.Replies.{CanDraft, IsXmlReply, found_record, is_nothing};

use idp_ledger::{
    Ask, Draft, DraftFault, IdpLedger, draft_confirm, draft_end, draft_issue, draft_leave,
    draft_login, draft_pending, draft_round, draft_speak, draft_told,
};
use logout_fanout::Plan;
use logout_turns::{Asker, Turn};
use owned_values::{Attributes, Text, Texts};
use protocol_messages::LogoutRequest;

/// A reply that stands for a record.
#[derive(Debug, Drop)]
pub enum Reply {
    /// An Assertion in the live session of this cookie, for the peer at this place.
    InSession {
        cookie: Text,
        ask: Ask,
        peer: usize,
    },
    /// A Response without an Assertion, as the user may not be asked (SAML Core, 3.4.1, IsPassive).
    Passive {
        ask: Ask,
    },
    /// The page where the user logs in.
    Question {
        ask: Ask,
    },
    /// An Assertion for the pending login of this ID in a new session of this user, for the peer at this place.
    Login {
        pending: Text,
        user: Text,
        attributes: Attributes,
        peer: usize,
    },
    /// A LogoutRequest, as this user leaves the live session of this cookie, which has this index (SAML Profiles,
    /// 4.4.3.1).
    Leave {
        cookie: Text,
        user: Text,
        index: Text,
    },
    /// A LogoutResponse to the peer at this place, of this name, which asks to end sessions (SAML Core, 3.7.3.2).
    End {
        asked: LogoutRequest,
        peer: usize,
        name: Text,
        relay: Option<Text>,
    },
    /// The page at the end of the logout of this request: it ended at each participant, or in part.
    Confirm {
        request: Text,
        partial: bool,
    },
    /// A LogoutRequest to the first of those whom the plan asks, as the sessions of these cookies end (SAML Profiles,
    /// 4.4.3.3).
    AskAll {
        cookies: Texts,
        asker: Option<Asker>,
        plan: Plan,
    },
    /// What follows the answer of the provider of this name to this request, which confirms the logout or not.
    Told {
        request: Text,
        peer: Text,
        confirms: bool,
        follows: Follows,
    },
}

/// What follows the answer of a provider that was asked in its turn.
#[derive(Debug, Drop)]
pub enum Follows {
    /// A LogoutRequest to the provider of this turn (SAML Profiles, 4.4.3.3).
    Turn(Turn),
    /// Each has answered: a LogoutResponse of this ID to the provider that asked for the logout (SAML Profiles,
    /// 4.4.3.4), or the page at the end where none did. `partial` where not each confirmed, or some were not asked.
    End {
        message: Text,
        asker: Option<Asker>,
        partial: bool,
    },
}

impl Reply {
    /// Drafts the record of the reply; none where there is nothing to record.
    pub(crate) fn draft(
        &self,
        ledger: &mut IdpLedger,
        now: u64,
    ) -> Result<Option<Draft>, DraftFault>
        requires moment { now ≤ LAST }
        requires texts { IsXmlReply self.now }
        requires found { IsSome (found_record ledger.old.key ledger.old.held now self.now) }
        requires live { CanDraft ledger.old.held now self.now }
        ensures drafts { IfSome (found_record ledger.old.key ledger.old.held now self.now)
            (λ r. DraftsSome ledger.old ledger.new (is_nothing ledger.old.held now self.now) r result) }
        ensures same { SameLedger ledger.old ledger.new }
    {
        match self {
            Reply::InSession { cookie, ask, .. } => {
                Ok(Some(draft_issue(ledger, now, cookie.as_str(), ask)?))
            }
            Reply::Passive { ask } => { Ok(Some(draft_speak(ledger, now, ask)?)) }
            Reply::Question { ask } => { Ok(Some(draft_pending(ledger, now, ask)?)) }
            Reply::Login {
                pending,
                user,
                attributes,
                ..
            } => {
                Ok(Some(draft_login(ledger, now, pending.as_str(), user.as_str(), attributes)?))
            }
            Reply::Leave { cookie, .. } => { Ok(Some(draft_leave(ledger, now, cookie.as_str())?)) }
            Reply::End { asked, name, .. } => {
                let (user, request) = (asked.name.as_str(), asked.id.as_str());
                draft_end(ledger, now, name.as_str(), user, &asked.indexes, request)
            }
            Reply::Confirm { request, .. } => draft_confirm(ledger, now, request.as_str()),
            Reply::AskAll {
                cookies,
                asker,
                plan,
            } => {
                let turns = plan.turns.as_slice();
                Ok(Some(draft_round(ledger, now, cookies, asker.as_ref(), turns, plan.skipped)?))
            }
            Reply::Told {
                request,
                peer,
                confirms,
                ..
            } => draft_told(ledger, now, request.as_str(), peer.as_str(), *confirms),
        }
    }
}
