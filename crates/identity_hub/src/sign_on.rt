//! POST of a form at the address to which providers below post requests for a login.
ghost use Rattle.std.specs.Prelude.{◌≡◌, ◌≤◌, ◌<◌, length, slice_get, IfOk, Some};
ghost use Rattle.http_wire.specs.Views.{request_view};
ghost use Rattle.saml_time.specs.declared.TheConstants.{LAST};
ghost use Rattle.service_routes.specs.declared.route.Route.TheVariants.{To};
ghost use Rattle.peer_keys.specs.declared.peers.LogoutPeer.{LogoutPeer};
ghost use Rattle.idp_rules.specs.Asking.{IsAsked};
ghost use Rattle.identity_hub.specs.declared.route.Service.TheVariants.{SignOn};
ghost use Rattle.identity_hub.specs.Config.{sign_on};
ghost use Rattle.identity_hub.specs.Routes.{route};
ghost use Rattle.identity_hub.specs.Step.{below_of};
ghost use Rattle.identity_hub.specs.Replies.{RepliesTo, Wants};

use crate::reply::Reply;
use crate::role::HubRole;
use fault_verdicts::Judged;
use http_wire::HttpRequest;
use hub_ledger::{BelowRow, HubLedger};
use idp_answers::laws::each_moment_is_told;
use idp_rules::laws::the_texts_of_a_request_are_texts;
use idp_rules::{Asked, judge_request};
use owned_values::{NoMemory, Text};
use provider_node::Replied;

impl HubRole {
    /// The address to which requests for a login are posted (SAML Metadata, 2.4.3, SingleSignOnService).
    fn sign_on_address(&self) -> Result<Text, NoMemory>
        ensures { IfOk result (λ address. address ≡ sign_on self.now) }
    {
        let mut address = self.config.upstream.base.copy()?;
        address.push("/sso")?;
        Ok(address)
    }

    /// The request of a provider below, as the ledger keeps it.
    fn below_of(&self, asked: Asked) -> Result<BelowRow, NoMemory>
        requires { asked.peer < length self.now.peers }
        ensures { IfOk result (λ below. (peer : LogoutPeer) → slice_get self.now.peers asked.peer ≡ Some peer
            → below ≡ below_of asked peer) }
    {
        let peer = self.config.peers.at(asked.peer).peer.entity.copy()?;
        Ok(BelowRow {
            peer,
            consumer: asked.consumer,
            request: asked.request,
            relay: asked.relay,
        })
    }

    /// The reply to a request for a login. The hub keeps no sessions: the user is known by the provider above, which
    /// may ask.
    fn reply_to(
        &self,
        ledger: &HubLedger,
        request: &HttpRequest<'_>,
        asked: Asked,
        now: u64,
    ) -> Result<Reply, NoMemory>
        requires moment { now ≤ LAST }
        requires route { route (request_view request.now) ≡ To SignOn }
        requires asked { IsAsked self.now.peers (sign_on self.now) request.now.body.now asked }
        requires known { asked.peer < length self.now.peers }
        ensures { IfOk result (Wants self.now ledger.now.held (request_view request.now) now) }
    {
        let _usable = &self.config;
        the_texts_of_a_request_are_texts();
        each_moment_is_told();
        let passive = asked.passive;
        let below = self.below_of(asked)?;
        if passive {
            Ok(Reply::Speak { below })
        } else {
            Ok(Reply::Ask { below })
        }
    }

    /// What is replied to a form that was posted for sign-on.
    ///
    /// # Errors
    ///
    /// The verdict on the form. `NoMemory` may come in place of any other answer.
    pub(crate) fn reply_sign_on(
        &self,
        ledger: &HubLedger,
        request: &HttpRequest<'_>,
        now: u64,
    ) -> Result<Replied<Reply>, Judged>
        requires moment { now ≤ LAST }
        requires route { route (request_view request.now) ≡ To SignOn }
        ensures { RepliesTo self.now ledger.now.held (request_view request.now) now result }
    {
        let address = self.sign_on_address()?;
        let peers = self.config.peers.as_slice();
        let asked = judge_request(self.alloc, peers, address.as_str(), request.body)?;
        let reply = self.reply_to(ledger, request, asked, now)?;
        Ok(Replied::ForRecord(reply))
    }
}
