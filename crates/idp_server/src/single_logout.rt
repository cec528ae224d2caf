//! POST of a message of a logout.
ghost use Rattle.std.specs.Prelude.{◌≡◌, ◌≤◌, IfErr, IfOk};
ghost use Rattle.fault_verdicts.specs.Judging.{IsJudged};
ghost use Rattle.http_wire.specs.Views.{request_view};
ghost use Rattle.saml_time.specs.declared.TheConstants.{LAST};
ghost use Rattle.logout_profile.specs.declared.logout.Logout.TheVariants as messages;
ghost use Rattle.service_routes.specs.declared.route.Route.TheVariants.{To};
ghost use Rattle.idp_server.specs.declared.route.Service.TheVariants.{SingleLogout};
ghost use Rattle.idp_server.specs.Routes.{route};
ghost use Rattle.idp_server.specs.Step.{IsNotObeyed, IsObeyed};
ghost use Rattle.idp_server.specs.Replies.{Wants};

use crate::reply::Reply;
use crate::role::IdpRole;
use fault_verdicts::Judged;
use http_wire::HttpRequest;
use idp_answers::laws::each_moment_is_told;
use idp_ledger::IdpLedger;
use logout_answers::{is_in_part, logout_address};
use logout_profile::laws::what_an_obeyed_form_says;
use logout_profile::{Logout, judge_logout};
use owned_values::{NoMemory, Text};
use protocol_messages::{LogoutRequest, LogoutResponse};

impl IdpRole {
    /// What a posted form asks or replies of a logout.
    ///
    /// # Errors
    ///
    /// The verdict on the form. `NoMemory` may come in place of any other answer.
    fn logout_by(&self, request: &HttpRequest<'_>, now: u64) -> Result<Logout, Judged>
        requires moment { now ≤ LAST }
        ensures obeyed { IfOk result (IsObeyed self.now now request.now.body.now) }
        ensures refused { IfErr result (IsJudged (IsNotObeyed self.now now request.now.body.now)) }
    {
        let address = logout_address(self.alloc, self.config.base.as_str())?;
        let peers = self.config.peers.as_slice();
        let skew = self.config.skew;
        judge_logout(self.alloc, peers, address.as_str(), skew, now, request.body)
    }

    /// The reply to a peer that asks to end sessions.
    fn end(
        &self,
        ledger: &IdpLedger,
        request: &HttpRequest<'_>,
        asked: LogoutRequest,
        peer: usize,
        relay: Option<Text>,
        now: u64,
    ) -> Result<Reply, NoMemory>
        requires moment { now ≤ LAST }
        requires route { route (request_view request.now) ≡ To SingleLogout }
        requires obeyed { IsObeyed self.now now request.now.body.now (messages.Ask asked peer relay) }
        ensures { IfOk result (Wants self.now ledger.now.held (request_view request.now) now) }
    {
        what_an_obeyed_form_says();
        each_moment_is_told();
        let name = self.config.peers.at(peer).peer.entity.copy()?;
        if let Some(reply) = self.ask_for_peer(ledger, &asked, &name, &relay, now)? {
            return Ok(reply);
        }
        Ok(Reply::End {
            asked,
            peer,
            name,
            relay,
        })
    }

    /// The reply to a peer that replies to a logout that began here.
    fn reply_to_response(
        &self,
        ledger: &IdpLedger,
        request: &HttpRequest<'_>,
        response: LogoutResponse,
        peer: usize,
        now: u64,
    ) -> Result<Reply, NoMemory>
        requires moment { now ≤ LAST }
        requires route { route (request_view request.now) ≡ To SingleLogout }
        requires obeyed { IsObeyed self.now now request.now.body.now (messages.Reply response peer) }
        ensures { IfOk result (Wants self.now ledger.now.held (request_view request.now) now) }
    {
        each_moment_is_told();
        let partial = is_in_part(response.outcome);
        let name = &self.config.peers.at(peer).peer.entity;
        if let Some(reply) = self.told(ledger, &response.request, name, !partial, now)? {
            return Ok(reply);
        }
        Ok(Reply::Confirm {
            partial,
            request: response.request,
        })
    }

    /// The reply to a posted message of a logout, or why there is none.
    ///
    /// # Errors
    ///
    /// The verdict on the form. `NoMemory` may come in place of any other answer.
    pub(crate) fn single_logout(
        &self,
        ledger: &IdpLedger,
        request: &HttpRequest<'_>,
        now: u64,
    ) -> Result<Reply, Judged>
        requires moment { now ≤ LAST }
        requires route { route (request_view request.now) ≡ To SingleLogout }
        ensures reply { IfOk result (Wants self.now ledger.now.held (request_view request.now) now) }
        ensures refused { IfErr result (IsJudged (IsNotObeyed self.now now request.now.body.now)) }
    {
        match self.logout_by(request, now)? {
            Logout::Ask {
                request: asked,
                peer,
                relay,
            } => Ok(self.end(ledger, request, asked, peer, relay, now)?),
            Logout::Reply { response, peer } => {
                Ok(self.reply_to_response(ledger, request, response, peer, now)?)
            }
        }
    }
}
