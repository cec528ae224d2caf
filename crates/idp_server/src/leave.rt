//! POST of a user who leaves.
ghost use Rattle.std.specs.Prelude.{◌≡◌, ◌≤◌, IfErr, IfOk, None};
ghost use Rattle.fault_verdicts.specs.Judging.{IsJudged};
ghost use Rattle.http_wire.specs.Views.{request_view};
ghost use Rattle.http_wire.specs.declared.answer.Answer.TheVariants.{Fixed};
ghost use Rattle.saml_time.specs.declared.TheConstants.{LAST};
ghost use Rattle.verdict_codes.specs.Codes.{number_of};
ghost use Rattle.service_routes.specs.declared.route.Route.TheVariants.{To};
ghost use Rattle.idp_server.specs.declared.route.Service.TheVariants.{Logout};
ghost use Rattle.idp_server.specs.Routes.{route};
ghost use Rattle.idp_server.specs.Step.{Answers};
ghost use Rattle.idp_server.specs.Replies.{Wants};

use crate::reply::Reply;
use crate::role::IdpRole;
use crate::sign_on::session_for;
use fault_verdicts::Judged;
use http_wire::HttpRequest;
use idp_answers::laws::{each_moment_is_told, what_is_recorded_may_stand};
use idp_ledger::IdpLedger;
use verdict_codes::Verdict;

impl IdpRole {
    /// The reply to a user who leaves, or why there is none.
    ///
    /// # Errors
    ///
    /// `NoSuchSession` where the user has no live session. `NoMemory` may come in place of any other answer.
    pub(crate) fn leave(
        &self,
        ledger: &IdpLedger,
        request: &HttpRequest<'_>,
        now: u64,
    ) -> Result<Reply, Judged>
        requires moment { now ≤ LAST }
        requires route { route (request_view request.now) ≡ To Logout }
        ensures reply { IfOk result (Wants self.now ledger.now.held (request_view request.now) now) }
        ensures refused { IfErr result (IsJudged (λ verdict. Answers self.now ledger.now.held (request_view request.now)
            now (Fixed (number_of verdict)) None)) }
    {
        self.has_usable_config();
        what_is_recorded_may_stand();
        each_moment_is_told();
        ledger.holds_records();
        let Some(row) = session_for(ledger, request, now) else {
            return Err(Judged::Code(Verdict::NoSuchSession));
        };
        if let Some(reply) = self.ask_for_user(ledger, &row.cookie)? {
            return Ok(reply);
        }
        Ok(Reply::Leave {
            cookie: row.cookie.copy()?,
            user: row.user.copy()?,
            index: row.index.copy()?,
        })
    }
}
