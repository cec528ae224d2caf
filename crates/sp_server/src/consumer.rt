//! POST of a form at the address to which responses are sent.
ghost use Rattle.std.specs.Prelude.{◌≡◌, ◌≤◌};
ghost use Rattle.http_wire.specs.Views.{request_view};
ghost use Rattle.sp_server.specs.Replies.{RepliesTo};
ghost use Rattle.service_routes.specs.declared.route.Route.TheVariants.{To};
ghost use Rattle.sp_server.specs.declared.route.Service.TheVariants.{Consumer};
ghost use Rattle.sp_server.specs.Routes.{route};

use crate::reply::Reply;
use crate::role::SpRole;
use http_wire::HttpRequest;
use provider_node::Replied;
use request_ledger::{Ledger, rows};
use saml_time::LAST;
use sp_answers::laws::{like_rows_are_judged_alike, what_is_accepted_can_be_recorded};
use sp_rules::{Judged, judge};
use verdict_codes::Verdict;

impl SpRole {
    /// What is replied to a posted form.
    ///
    /// # Errors
    ///
    /// `RegistryExpired` where the registry has ended; else the verdict on the form. `NoMemory` may come in place of
    /// any other answer.
    pub(crate) fn reply_form(
        &self,
        ledger: &Ledger,
        request: &HttpRequest<'_>,
        now: u64,
    ) -> Result<Replied<Reply>, Judged>
        requires moment { now ≤ LAST }
        requires route { route (request_view request.now) ≡ To Consumer }
        ensures { RepliesTo self.now ledger.now.held (request_view request.now) now result }
    {
        if self.is_expired(now) {
            return Err(Judged::Code(Verdict::RegistryExpired));
        }
        // The ledger holds texts of characters that a document may hold: those of a session stand in one.
        what_is_accepted_can_be_recorded();
        like_rows_are_judged_alike();
        let horizon = ledger.header().horizon;
        let accepted = judge(
            self.alloc,
            &self.config,
            rows(ledger),
            horizon,
            now,
            request.body,
        )?;
        Ok(Replied::ForRecord(Reply::Open { accepted }))
    }
}
