//! POST of a form at the address to which the provider above sends its responses.
ghost use Rattle.std.specs.Prelude.{◌≡◌, ◌≤◌};
ghost use Rattle.http_wire.specs.Views.{request_view};
ghost use Rattle.saml_time.specs.declared.TheConstants.{LAST};
ghost use Rattle.service_routes.specs.declared.route.Route.TheVariants.{To};
ghost use Rattle.sp_answers.specs.Judging.{CanBeRecorded};
ghost use Rattle.sp_rules.specs.Shown.{IsOpening};
ghost use Rattle.hub_ledger.specs.RowsOf.{rows_of};
ghost use Rattle.identity_hub.specs.declared.route.Service.TheVariants.{Consumer};
ghost use Rattle.identity_hub.specs.Replies.{RepliesTo};
ghost use Rattle.identity_hub.specs.Routes.{route};
ghost use Rattle.identity_hub.specs.Step.{rows_seen};

use crate::reply::Reply;
use crate::role::HubRole;
use http_wire::HttpRequest;
use hub_ledger::laws::the_texts_of_a_routed_request_may_stand;
use hub_ledger::{HubLedger, routed, rows};
use idp_answers::laws::{each_moment_is_told, what_is_recorded_may_stand};
use provider_node::Replied;
use saml_time::LAST;
use sp_answers::laws::{like_rows_are_judged_alike, what_is_accepted_can_be_recorded};
use sp_rules::{Accepted, Judged, judge};
use verdict_codes::Verdict;

impl HubRole {
    /// What is replied to a form that brings a login: it is passed on to the provider below for which it was asked,
    /// where this is still known.
    ///
    /// # Errors
    ///
    /// `UnknownIssuer` where it is not.
    fn reply_login(
        &self,
        ledger: &HubLedger,
        request: &HttpRequest<'_>,
        accepted: Accepted,
        now: u64,
    ) -> Result<Replied<Reply>, Judged>
        requires moment { now ≤ LAST }
        requires route { route (request_view request.now) ≡ To Consumer }
        requires opens { IsOpening self.now.upstream (rows_seen (rows_of ledger.now.held.records))
            ledger.now.held.header.horizon now request.now.body.now accepted }
        requires recordable { CanBeRecorded accepted.session }
        ensures { RepliesTo self.now ledger.now.held (request_view request.now) now result }
    {
        ledger.holds_records();
        what_is_recorded_may_stand();
        each_moment_is_told();
        the_texts_of_a_routed_request_may_stand();
        let Some(row) = routed(ledger, accepted.session.request.as_str(), now) else {
            return Err(Judged::Code(Verdict::UnknownIssuer));
        };
        let Some(peer) = self.config.peers.place_of(row.below.peer.as_str()) else {
            return Err(Judged::Code(Verdict::UnknownIssuer));
        };
        Ok(Replied::ForRecord(Reply::Pass { accepted, peer }))
    }

    /// What is replied to a posted form.
    ///
    /// # Errors
    ///
    /// The verdict on the form, or `UnknownIssuer`. `NoMemory` may come in place of any other answer.
    pub(crate) fn reply_form(
        &self,
        ledger: &HubLedger,
        request: &HttpRequest<'_>,
        now: u64,
    ) -> Result<Replied<Reply>, Judged>
        requires moment { now ≤ LAST }
        requires route { route (request_view request.now) ≡ To Consumer }
        ensures { RepliesTo self.now ledger.now.held (request_view request.now) now result }
    {
        like_rows_are_judged_alike();
        what_is_accepted_can_be_recorded();
        let upstream = &self.config.upstream;
        let horizon = ledger.header().horizon;
        let accepted = judge(
            self.alloc,
            upstream,
            rows(ledger),
            horizon,
            now,
            request.body,
        )?;
        self.reply_login(ledger, request, accepted, now)
    }
}
