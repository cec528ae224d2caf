//! POST of a message of a logout.
ghost use Rattle.std.specs.Prelude.{◌≡◌, ◌≤◌, IfErr, IfOk};
ghost use Rattle.fault_verdicts.specs.Judging.{IsJudged};
ghost use Rattle.http_wire.specs.Views.{request_view};
ghost use Rattle.sp_server.specs.Peer.{IsNotObeyed};
ghost use Rattle.sp_server.specs.Replies.{IsOfForm, RepliesTo};
ghost use Rattle.service_routes.specs.declared.route.Route.TheVariants.{To};
ghost use Rattle.sp_server.specs.declared.route.Service.TheVariants.{SingleLogout};
ghost use Rattle.sp_server.specs.Routes.{route};

use crate::peer::{idp_at, second_key};
use crate::reply::Reply;
use crate::role::SpRole;
use http_wire::HttpRequest;
use logout_answers::logout_address;
use logout_profile::laws::what_an_obeyed_form_says;
use logout_profile::{Judged, Logout, judge_logout_with};
use provider_node::Replied;
use request_ledger::Ledger;
use saml_time::LAST;
use verdict_codes::Verdict;

impl SpRole {
    /// What a posted message of a logout asks for.
    ///
    /// # Errors
    ///
    /// The verdict of the first condition of a logout that fails.
    fn asked_by(&self, now: u64, body: &[u8]) -> Result<Reply, Judged>
        requires { now ≤ LAST }
        ensures ok { IfOk result (IsOfForm self.now.config now body.now) }
        ensures err { IfErr result (IsJudged (IsNotObeyed self.now.config now body.now)) }
    {
        what_an_obeyed_form_says();
        let config = &self.config;
        let peers = [idp_at(self.alloc, config, now)?];
        let address = logout_address(self.alloc, config.base.as_str())?;
        let second = second_key(config, now);
        let logout = judge_logout_with(
            self.alloc,
            &peers,
            second,
            address.as_str(),
            config.skew,
            now,
            body,
        )?;
        match logout {
            Logout::Ask { request, relay, .. } => Ok(Reply::End {
                asked: request,
                relay,
            }),
            Logout::Reply { response, .. } => Ok(Reply::Confirm { response }),
        }
    }

    /// What is replied to a posted message of a logout.
    ///
    /// # Errors
    ///
    /// `RegistryExpired` where the registry has ended; else the verdict on the message. `NoMemory` may come in place of
    /// any other answer.
    pub(crate) fn reply_logout(
        &self,
        ledger: &Ledger,
        request: &HttpRequest<'_>,
        now: u64,
    ) -> Result<Replied<Reply>, Judged>
        requires moment { now ≤ LAST }
        requires route { route (request_view request.now) ≡ To SingleLogout }
        ensures { RepliesTo self.now ledger.now.held (request_view request.now) now result }
    {
        if self.is_expired(now) {
            return Err(Judged::Code(Verdict::RegistryExpired));
        }
        Ok(Replied::ForRecord(self.asked_by(now, request.body)?))
    }
}
