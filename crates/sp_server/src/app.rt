//! GET of a page of the application.
ghost use Rattle.std.specs.Prelude.{◌≡◌, IfOk, option_copied};
ghost use Rattle.http_wire.specs.Views.{request_view};
ghost use Rattle.sp_server.specs.Replies.{RepliesTo};
ghost use Rattle.service_routes.specs.declared.route.Route.TheVariants.{To};
ghost use Rattle.sp_server.specs.declared.route.Service.TheVariants.{App};
ghost use Rattle.sp_server.specs.Routes.{route};
ghost use Rattle.sp_server.specs.Step.{session_for, shown_to};

use crate::reply::Reply;
use crate::role::SpRole;
use fault_verdicts::Judged;
use http_wire::{Answer, HttpRequest, cookie_of};
use owned_values::{Blob, NoMemory, Text};
use provider_node::Replied;
use request_ledger::{Ledger, session};
use request_rows::OpenedRow;
use sp_answers::{denied_answer, user_answer};
use verdict_codes::Verdict;

/// The name of the cookie that holds the token of a session.
const SESSION_COOKIE: &str = "sp_sid";

/// The live session of a request's cookie.
pub(crate) fn session_for<'a>(
    ledger: &'a Ledger,
    request: &HttpRequest<'_>,
    now: u64,
) -> Option<&'a OpenedRow>
    ensures { option_copied result ≡ session_for ledger.now.held now (request_view request.now) }
{
    let token = cookie_of(request.cookie?, SESSION_COOKIE)?;
    session(ledger, token, now)
}

impl SpRole {
    /// What a session is answered.
    fn shown(&self, path: &str, row: &OpenedRow) -> Result<Blob, NoMemory>
        ensures { IfOk result (λ bytes. bytes ≡ shown_to self.now.policy path.now row.now) }
    {
        if let Some(policy) = &self.policy {
            let decision = policy.decide(path, row.name.as_str(), &row.attributes);
            if !decision.allowed {
                return denied_answer(self.alloc, decision.rule);
            }
        }
        user_answer(self.alloc, &row.name, &row.attributes)
    }

    /// What is replied to a request for a page.
    ///
    /// # Errors
    ///
    /// `RegistryExpired` where the user has no live session and the registry has ended. `NoMemory` may come in place of
    /// any other answer.
    pub(crate) fn reply_app(
        &self,
        ledger: &Ledger,
        request: &HttpRequest<'_>,
        now: u64,
    ) -> Result<Replied<Reply>, Judged>
        requires { route (request_view request.now) ≡ To App }
        ensures { RepliesTo self.now ledger.now.held (request_view request.now) now result }
    {
        if let Some(row) = session_for(ledger, request, now) {
            let bytes = self.shown(request.path, row)?;
            return Ok(Replied::Plain(Answer::Full(bytes)));
        }
        if self.is_expired(now) {
            return Err(Judged::Code(Verdict::RegistryExpired));
        }
        let target = Text::of(self.alloc, request.path)?;
        Ok(Replied::ForRecord(Reply::Ask { target }))
    }
}
