//! How a request is replied to with a record.
ghost use Rattle.std.specs.Prelude.{◌≡◌, ◌≤◌, IfOk, IfSome, Some};
ghost use Rattle.std.specs.Option.{option_map};
ghost use Rattle.request_ledger.specs.Draft.{IsDrawn, drawn_id};
ghost use Rattle.request_ledger.specs.Drafts.{DraftsSome};
ghost use Rattle.record_ledger.specs.Drafts.{SameLedger};
ghost use Rattle.saml_ids.specs.Laws.{IsUsableId};
ghost use Rattle.sp_answers.specs.Answers.{HoldsTexts};
ghost use Rattle.xml_spec.specs.Characters.{IsText};
ghost use Rattle.sp_server.specs.Replies.{CanDraft, DrawsId, HoldsAddresses, IsAnswerable, IsAnswerTo, IsAskingAnswer, IsEndingAnswer, IsOpeningAnswer, is_nothing, record_for};

use crate::peer::idp_at;
use logout_answers::{end_answer, ending_answer, is_in_part, leaving_answer};
use owned_values::{Blob, NoMemory, Text, Texts};
use protocol_messages::{LogoutRequest, LogoutResponse};
use request_ledger::{
    Draft, DraftFault, Ledger, draft_ask, draft_confirm, draft_end, draft_leave, draft_session,
    first_id, second_id,
};
use saml_time::LAST;
use sp_answers::{ask_answer, opened_answer};
use sp_rules::{Accepted, SpConfig};
use std::alloc::Global;

/// A reply that stands for a record.
#[derive(Drop)]
pub enum Reply {
    /// A form that asks the identity provider for a login (SAML Profiles, 4.1.3.3).
    Ask {
        /// The path to which the user is sent once it is answered.
        target: Text,
    },
    /// The session that a posted form opens (SAML Profiles, 4.1.3.6).
    Open {
        /// What the form was accepted for.
        accepted: Accepted,
    },
    /// A user leaves a session (SAML Profiles, 4.4.3.1).
    Leave {
        /// The token of the session.
        token: Text,
        /// The name of the user.
        name: Text,
        /// The index of the session at the identity provider, where it gave one.
        indexes: Texts,
    },
    /// The identity provider asks to end sessions (SAML Core, 3.7.1).
    End {
        /// What it asks.
        asked: LogoutRequest,
        /// The relay state that the response has to repeat, where there was one.
        relay: Option<Text>,
    },
    /// The identity provider replies to a logout that began here (SAML Core, 3.7.2).
    Confirm {
        /// What it replies.
        response: LogoutResponse,
    },
}

/// A relay state, where there is one.
fn relay_of(relay: &Option<Text>) -> Option<&str>
    ensures { option_map (λ text. text.now) result ≡ relay.now }
{
    match relay {
        Some(relay) => Some(relay.as_str()),
        None => None,
    }
}

/// The first ID that a draft draws.
fn drawn_id_of(draft: &Draft) -> &str
    requires { DrawsId draft.now }
    ensures is { Some result.now ≡ drawn_id draft.now 0 }
    ensures usable { IsUsableId result.now }
{
    first_id(draft.entry())
}

impl Reply {
    /// Drafts the record of the reply; none where there is nothing to record.
    pub(crate) fn draft(
        &self,
        config: &SpConfig,
        ledger: &mut Ledger,
        now: u64,
    ) -> Result<Option<Draft>, DraftFault>
        requires moment { now ≤ LAST }
        requires can { CanDraft ledger.old.held now self.now }
        ensures drafts { DraftsSome ledger.old ledger.new (is_nothing config.now ledger.old.held now self.now)
            (record_for ledger.old.key config.now ledger.old.held now self.now) result }
        ensures same { SameLedger ledger.old ledger.new }
    {
        match self {
            Reply::Ask { target } => {
                let draft = draft_ask(ledger, now, target.as_str())?;
                Ok(Some(draft))
            }
            Reply::Open { accepted } => {
                let draft = draft_session(ledger, now, &accepted.session)?;
                Ok(Some(draft))
            }
            Reply::Leave { token, .. } => {
                let draft = draft_leave(ledger, now, token.as_str())?;
                Ok(Some(draft))
            }
            Reply::End { asked, .. } => draft_end(
                ledger,
                now,
                config.idp.entity.as_str(),
                asked.name.as_str(),
                &asked.indexes,
                asked.id.as_str(),
            ),
            Reply::Confirm { response } => draft_confirm(ledger, now, response.request.as_str()),
        }
    }

    /// The answer that asks for a login, whose request was drafted.
    fn asking(alloc: Global, config: &SpConfig, draft: &Draft, now: u64) -> Result<Blob, NoMemory>
        requires moment { now ≤ LAST }
        requires texts { HoldsTexts config.now }
        requires drawn { DrawsId draft.now × IsDrawn draft.now 1 }
        ensures { IfOk result (IsAskingAnswer config.now draft.now now) }
    {
        let id = drawn_id_of(draft);
        let relay = second_id(draft.entry());
        ask_answer(alloc, config, id, relay, now)
    }

    /// The answer to a form that opens a session, whose record was drafted.
    fn opening(alloc: Global, accepted: &Accepted, draft: &Draft) -> Result<Blob, NoMemory>
        requires { DrawsId draft.now }
        ensures { IfOk result (IsOpeningAnswer accepted.now draft.now) }
    {
        let token = drawn_id_of(draft);
        opened_answer(alloc, accepted.target.as_str(), token)
    }

    /// The answer to the identity provider that asked to end sessions, whose end was drafted.
    fn ending(
        alloc: Global,
        config: &SpConfig,
        draft: &Draft,
        now: u64,
        asked: &LogoutRequest,
        relay: &Option<Text>,
    ) -> Result<Blob, NoMemory>
        requires moment { now ≤ LAST }
        requires addresses { HoldsAddresses config.now }
        requires times { IfSome config.now.next_in (λ next. next.from ≤ next.until) }
        requires answerable { DrawsId draft.now × IsText asked.now.id }
        ensures { IfOk result (IsEndingAnswer config.now draft.now now asked.now.id relay.now) }
    {
        let idp = idp_at(alloc, config, now)?;
        let id = drawn_id_of(draft);
        let entity = config.entity.as_str();
        let relay = relay_of(relay);
        let request = asked.id.as_str();
        ending_answer(alloc, &idp, id, entity, now, request, false, relay)
    }

    /// The answer of the reply, whose record was drafted.
    pub(crate) fn answer(
        &self,
        alloc: Global,
        config: &SpConfig,
        draft: &Draft,
        now: u64,
    ) -> Result<Blob, NoMemory>
        requires moment { now ≤ LAST }
        requires addresses { HoldsAddresses config.now }
        requires times { IfSome config.now.next_in (λ next. next.from ≤ next.until) }
        requires answerable { IsAnswerable draft.now self.now }
        ensures { IfOk result (IsAnswerTo config.now draft.now now self.now) }
    {
        match self {
            Reply::Ask { .. } => Reply::asking(alloc, config, draft, now),
            Reply::Open { accepted } => Reply::opening(alloc, accepted, draft),
            Reply::Leave { name, indexes, .. } => {
                let idp = idp_at(alloc, config, now)?;
                let id = drawn_id_of(draft);
                let entity = config.entity.as_str();
                leaving_answer(alloc, &idp, id, entity, now, name.as_str(), indexes)
            }
            Reply::End { asked, relay } => {
                Reply::ending(alloc, config, draft, now, asked, relay)
            }
            Reply::Confirm { response } => end_answer(alloc, is_in_part(response.outcome)),
        }
    }
}
