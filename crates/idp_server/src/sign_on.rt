//! POST of a form at the address for sign-on.
ghost use Rattle.std.specs.Prelude.{◌≡◌, ◌≤◌, ◌<◌, length, slice_get, IfErr, IfOk, None, Some, option_copied, if◌then◌else◌};
ghost use Rattle.fault_verdicts.specs.Judging.{IsJudged};
ghost use Rattle.http_wire.specs.Views.{request_view};
ghost use Rattle.http_wire.specs.declared.answer.Answer.TheVariants.{Fixed};
ghost use Rattle.saml_time.specs.declared.TheConstants.{LAST};
ghost use Rattle.verdict_codes.specs.Codes.{number_of};
ghost use Rattle.peer_keys.specs.declared.peers.LogoutPeer.{LogoutPeer};
ghost use Rattle.idp_rules.specs.Asking.{IsAsked};
ghost use Rattle.idp_rules.specs.Config.{sign_on};
ghost use Rattle.idp_rules.specs.Verdict.{IsRefused};
ghost use Rattle.service_routes.specs.declared.route.Route.TheVariants.{To};
ghost use Rattle.idp_server.specs.declared.route.Service.TheVariants.{SignOn};
ghost use Rattle.idp_server.specs.Routes.{route};
ghost use Rattle.idp_server.specs.Step.{Answers, ask_of, session_for};
ghost use Rattle.idp_server.specs.Replies.{Wants};

use crate::reply::Reply;
use crate::role::IdpRole;
use fault_verdicts::Judged;
use http_wire::{HttpRequest, cookie_of};
use idp_answers::laws::{each_moment_is_told, what_is_recorded_may_stand};
use idp_ledger::{Ask, IdpLedger, SessionRow, session};
use idp_rules::laws::the_texts_of_a_request_are_texts;
use idp_rules::{Asked, judge_request, sign_on_address};
use owned_values::NoMemory;

/// The name of the cookie of a session.
const SESSION_COOKIE: &str = "idp_sid";

/// The live session of a request's cookie.
pub(crate) fn session_for<'a>(
    ledger: &'a IdpLedger,
    request: &HttpRequest<'_>,
    now: u64,
) -> Option<&'a SessionRow>
    ensures { option_copied result ≡ session_for ledger.now.held now (request_view request.now) }
{
    let cookie = cookie_of(request.cookie?, SESSION_COOKIE)?;
    session(ledger, cookie, now)
}

/// The same where the user need not be authenticated anew.
fn session_used<'a>(
    ledger: &'a IdpLedger,
    force: bool,
    request: &HttpRequest<'_>,
    now: u64,
) -> Option<&'a SessionRow>
    ensures { option_copied result ≡ (if force then None else session_for ledger.now.held now
        (request_view request.now)) }
{
    if force {
        return None;
    }
    session_for(ledger, request, now)
}

impl IdpRole {
    /// What is asked of the ledger.
    fn ask_of(&self, asked: Asked) -> Result<Ask, NoMemory>
        requires { asked.peer < length self.now.peers }
        ensures { IfOk result (λ ask. (peer : LogoutPeer) → slice_get self.now.peers asked.peer ≡ Some peer
            → ask ≡ ask_of asked peer) }
    {
        let peer = self.config.peers.at(asked.peer).peer.entity.copy()?;
        Ok(Ask {
            request: asked.request,
            peer,
            consumer: asked.consumer,
            relay: asked.relay,
        })
    }

    /// The reply to a request for a login.
    fn reply_to(
        &self,
        ledger: &IdpLedger,
        request: &HttpRequest<'_>,
        asked: Asked,
        now: u64,
    ) -> Result<Reply, NoMemory>
        requires moment { now ≤ LAST }
        requires route { route (request_view request.now) ≡ To SignOn }
        requires asked { IsAsked self.now.peers (sign_on self.now) request.now.body.now asked }
        requires known { asked.peer < length self.now.peers }
        ensures { IfOk result (Wants self.now ledger.now.held (request_view request.now) now) }
    {
        self.has_usable_config();
        the_texts_of_a_request_are_texts();
        ledger.holds_records();
        what_is_recorded_may_stand();
        each_moment_is_told();
        let (peer, passive) = (asked.peer, asked.passive);
        let session = session_used(ledger, asked.force, request, now);
        let ask = self.ask_of(asked)?;
        if let Some(row) = session {
            let cookie = row.cookie.copy()?;
            return Ok(Reply::InSession { cookie, ask, peer });
        }
        if passive {
            Ok(Reply::Passive { ask })
        } else {
            Ok(Reply::Question { ask })
        }
    }

    /// What a form that was posted for sign-on asks for.
    ///
    /// # Errors
    ///
    /// The verdict on the form. `NoMemory` may come in place of any other answer.
    fn asked_by(&self, request: &HttpRequest<'_>) -> Result<Asked, Judged>
        ensures accepted { IfOk result (IsAsked self.now.peers (sign_on self.now) request.now.body.now) }
        ensures known { IfOk result (λ asked. asked.peer < length self.now.peers) }
        ensures refused { IfErr result (IsJudged (IsRefused self.now.peers (sign_on self.now) request.now.body.now)) }
    {
        let address = sign_on_address(self.alloc, &self.config)?;
        let peers = self.config.peers.as_slice();
        judge_request(self.alloc, peers, address.as_str(), request.body)
    }

    /// The reply to a form that was posted for sign-on, or why there is none.
    ///
    /// # Errors
    ///
    /// The verdict on the form. `NoMemory` may come in place of any other answer.
    pub(crate) fn sign_on(
        &self,
        ledger: &IdpLedger,
        request: &HttpRequest<'_>,
        now: u64,
    ) -> Result<Reply, Judged>
        requires moment { now ≤ LAST }
        requires route { route (request_view request.now) ≡ To SignOn }
        ensures reply { IfOk result (Wants self.now ledger.now.held (request_view request.now) now) }
        ensures refused { IfErr result (IsJudged (λ verdict. Answers self.now ledger.now.held (request_view request.now)
            now (Fixed (number_of verdict)) None)) }
    {
        match self.asked_by(request) {
            Ok(asked) => Ok(self.reply_to(ledger, request, asked, now)?),
            Err(judged) => Err(judged),
        }
    }
}
