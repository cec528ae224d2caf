//! Logouts at which each other provider is asked in turn (SAML Profiles, 4.4.3.3): what is replied, and the pages of
//! it.
ghost use Rattle.std.specs.Prelude.{◌≡◌, ◌≤◌, ◌<◌, [], ◌∷◌, true, length, IfOk, IfSome, None, Some, option_copied};
ghost use Rattle.std.specs.Option.{is_some};
ghost use Rattle.http_wire.specs.declared.answer.Answer.TheVariants.{Full};
ghost use Rattle.saml_time.specs.declared.TheConstants.{LAST};
ghost use Rattle.idp_server.specs.Messages.{IsRequestTo, IsRoundEnd};
ghost use Rattle.idp_server.specs.Replies.{CanAsk, CanEnd, HasFirstTurn, HasNextStep, IsAskAll, IsAskingPage, IsToldPage, IsToldReply};
ghost use Rattle.idp_server.specs.Rounds as spec;
ghost use Rattle.idp_server.specs.Step.{ending_by};
ghost use Rattle.idp_server.specs.Rounds.{asks_others, follows_of, skips_for, turns_for};

use crate::reply::{Follows, Reply};
use crate::role::IdpRole;
use idp_answers::just;
use idp_answers::laws::what_is_recorded_may_stand;
use idp_ledger::{IdpLedger, RoundRow, ending, first_id, parts, turn};
use ledger_records::IdpRecord;
use logout_answers::{end_answer, ending_answer, leaving_answer};
use logout_fanout::{Next, Plan, Round, make_plan};
use logout_turns::{Asker, Turn, copy_of_asker};
use owned_values::{Blob, NoMemory, Text, Texts, chars_if_any, copy_if_any};
use protocol_messages::LogoutRequest;

/// The name of the provider that asks, where one does.
fn name_of(asker: &Option<Asker>) -> Option<&str>
    ensures { option_copied result ≡ spec.name_of asker.now }
{
    match asker {
        Some(asker) => Some(asker.peer.as_str()),
        None => None,
    }
}

/// What follows the answer in a round of the provider whose turn it is.
fn follows(row: &RoundRow, confirms: bool) -> Result<Follows, NoMemory>
    requires counted { row.now.confirmed ≤ row.now.told }
    requires turn { row.now.told < length row.now.turns }
    ensures { IfOk result (λ follows. Some follows ≡ follows_of row.now confirms) }
{
    let turns = row.turns.len();
    let mut round = Round::at(
        turns,
        row.skipped,
        row.told as usize,
        row.confirmed as usize,
    );
    match round.told(confirms) {
        Next::Ask(place) => Ok(Follows::Turn(row.turns.at(place).copy()?)),
        Next::Done { partial } => Ok(Follows::End {
            message: row.message.copy()?,
            asker: copy_of_asker(row.asker.as_ref())?,
            partial,
        }),
    }
}

impl IdpRole {
    /// Whom to ask where the sessions of these cookies end; none where nobody is asked.
    fn plan_for(
        &self,
        ledger: &IdpLedger,
        asker: &Option<Asker>,
        cookies: &Texts,
    ) -> Result<Option<Plan>, NoMemory>
        requires fanout { self.now.fanout ≡ true }
        ensures some { IfOk result (λ plan. is_some plan ≡ asks_others self.now ledger.now.held asker.now cookies.now) }
        ensures turns { IfOk result (λ plan. IfSome plan
            (λ p. p.turns ≡ turns_for self.now ledger.now.held asker.now cookies.now)) }
        ensures skipped { IfOk result (λ plan. IfSome plan
            (λ p. p.skipped ≡ skips_for self.now ledger.now.held asker.now cookies.now)) }
    {
        let parts = parts(ledger, cookies)?;
        let peers = self.config.peers.as_slice();
        let plan = make_plan(self.alloc, parts.as_slice(), name_of(asker), peers)?;
        if plan.turns.is_empty() {
            Ok(None)
        } else {
            Ok(Some(plan))
        }
    }

    /// The reply that asks all others where the sessions of these cookies end; none where nobody is asked, and then the
    /// provider that asks and the cookies are let go.
    fn ask_all(
        &self,
        ledger: &IdpLedger,
        asker: Option<Asker>,
        cookies: Texts,
    ) -> Result<Option<Reply>, NoMemory>
        requires fanout { self.now.fanout ≡ true }
        ensures { IfOk result (IsAskAll self.now ledger.now.held asker cookies) }
    {
        what_is_recorded_may_stand();
        ledger.holds_records();
        let Some(plan) = self.plan_for(ledger, &asker, &cookies)? else {
            return Ok(None);
        };
        Ok(Some(Reply::AskAll {
            cookies,
            asker,
            plan,
        }))
    }

    /// The same where a user leaves the session of this cookie; none where the provider is not set up to ask others,
    /// too.
    pub(crate) fn ask_for_user(
        &self,
        ledger: &IdpLedger,
        cookie: &Text,
    ) -> Result<Option<Reply>, NoMemory>
        ensures { IfOk result (IsAskAll self.now ledger.now.held None (cookie.now ∷ [])) }
    {
        if !self.config.fanout {
            return Ok(None);
        }
        let cookies = just(self.alloc, cookie)?;
        self.ask_all(ledger, None, cookies)
    }

    /// The same where the peer of this name asks for the end of sessions, with this relay.
    pub(crate) fn ask_for_peer(
        &self,
        ledger: &IdpLedger,
        asked: &LogoutRequest,
        name: &Text,
        relay: &Option<Text>,
        now: u64,
    ) -> Result<Option<Reply>, NoMemory>
        ensures { IfOk result (IsAskAll self.now ledger.now.held
            (Some (record { peer = name.now; request = asked.now.id; relay = relay.now }))
            (ending_by ledger.now.held now name.now asked.now)) }
    {
        if !self.config.fanout {
            return Ok(None);
        }
        let cookies = ending(
            ledger,
            now,
            name.as_str(),
            asked.name.as_str(),
            &asked.indexes,
        )?;
        let asker = Asker {
            peer: name.copy()?,
            request: asked.id.copy()?,
            relay: copy_if_any(relay)?,
        };
        self.ask_all(ledger, Some(asker), cookies)
    }

    /// The reply to the answer of the provider of this name to a request, where a round waits for it.
    pub(crate) fn told(
        &self,
        ledger: &IdpLedger,
        request: &Text,
        peer: &Text,
        confirms: bool,
        now: u64,
    ) -> Result<Option<Reply>, NoMemory>
        ensures { IfOk result (IsToldReply self.now ledger.now.held now request.now peer.now confirms) }
    {
        if !self.config.fanout {
            return Ok(None);
        }
        what_is_recorded_may_stand();
        ledger.holds_records();
        let Some(row) = turn(ledger, request.as_str(), peer.as_str(), now) else {
            return Ok(None);
        };
        Ok(Some(Reply::Told {
            request: request.copy()?,
            peer: peer.copy()?,
            confirms,
            follows: follows(row, confirms)?,
        }))
    }

    /// A request with this ID to the provider of a turn, where it is known.
    fn request_page(&self, turn: &Turn, id: &str, now: u64) -> Result<Blob, NoMemory>
        requires moment { now ≤ LAST }
        requires shown { CanAsk self.now turn.now id.now }
        ensures { IfOk result (λ bytes. IsRequestTo self.now turn.now.peer id.now turn.now.name turn.now.indexes now
            bytes) }
    {
        let Some(place) = self.config.peers.place_of(turn.peer.as_str()) else {
            return end_answer(self.alloc, true);
        };
        leaving_answer(
            self.alloc,
            self.config.peers.at(place),
            id,
            self.config.entity.as_str(),
            now,
            turn.name.as_str(),
            &turn.indexes,
        )
    }

    /// The answer at the end of a round: to the provider that asked for the logout, where it is known.
    fn end_page(
        &self,
        message: &Text,
        asker: &Option<Asker>,
        partial: bool,
        now: u64,
    ) -> Result<Blob, NoMemory>
        requires moment { now ≤ LAST }
        requires shown { CanEnd self.now message.now asker.now }
        ensures { IfOk result (λ bytes. IsRoundEnd self.now message.now asker.now partial now bytes) }
    {
        let Some(asker) = asker else {
            return end_answer(self.alloc, partial);
        };
        let Some(place) = self.config.peers.place_of(asker.peer.as_str()) else {
            return end_answer(self.alloc, partial);
        };
        ending_answer(
            self.alloc,
            self.config.peers.at(place),
            message.as_str(),
            self.config.entity.as_str(),
            now,
            asker.request.as_str(),
            partial,
            chars_if_any(&asker.relay),
        )
    }

    /// The answer that begins a round: a request to the provider of its first turn.
    pub(crate) fn asking_page(
        &self,
        plan: &Plan,
        entry: &IdpRecord,
        now: u64,
    ) -> Result<Blob, NoMemory>
        requires moment { now ≤ LAST }
        requires shown { HasFirstTurn self.now plan.now entry.now }
        ensures { IfOk result (λ bytes. IsAskingPage self.now entry.now now (Full bytes)) }
    {
        self.request_page(plan.turns.at(0), first_id(entry), now)
    }

    /// The answer to a provider that answered in its turn.
    pub(crate) fn told_page(
        &self,
        follows: &Follows,
        entry: &IdpRecord,
        now: u64,
    ) -> Result<Blob, NoMemory>
        requires moment { now ≤ LAST }
        requires shown { HasNextStep self.now follows.now entry.now }
        ensures { IfOk result (λ bytes. IsToldPage self.now follows.now entry.now now (Full bytes)) }
    {
        match follows {
            Follows::Turn(turn) => self.request_page(turn, first_id(entry), now),
            Follows::End {
                message,
                asker,
                partial,
            } => self.end_page(message, asker, *partial, now),
        }
    }
}
