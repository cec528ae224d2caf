//! How a hub replies: where a request goes, and how a reply is drafted and shown.

use crate::reply::Reply;
use crate::role::HubRole;
use crate::route::{Service, service_at};
use fault_verdicts::Judged;
use http_wire::{Answer, HttpRequest};
use hub_ledger::laws::compactions_change_no_answer;
use hub_ledger::{Draft, HubLedger, HubStanding};
use idp_answers::laws::each_login_has_an_answer;
use idp_answers::plain_metadata_answer;
use owned_values::{Blob, NoMemory};
use provider_node::{DraftOutcome, Replied, Role};
use service_routes::{Route, route_to};
use sp_answers::laws::like_rows_are_judged_alike;
use verdict_codes::Verdict;

impl Role for HubRole {
    ghost use Rattle.identity_hub.specs.Replies.{hub_replies};
    ghost use Rattle.identity_hub.specs.Step.{Answers};

    type Rows = HubStanding;

    type Reply = Reply;

    ghost key = { λ role. role.upstream.id_key };

    ghost answers = { Answers };

    ghost replies = { hub_replies };

    fn id_key(&self) -> [u8; 32] {
        self.config.upstream.id_key
    }

    fn reply(
        &self,
        ledger: &HubLedger,
        request: &HttpRequest<'_>,
        now: u64,
    ) -> Result<Replied<Reply>, Judged> {
        match route_to(request, service_at(request.path)) {
            Route::Refused(status) => Ok(Replied::Plain(Answer::Fixed(status))),
            Route::To(Service::Metadata(role)) => {
                let entity = self.config.upstream.entity.as_str();
                let base = self.config.upstream.base.as_str();
                let bytes = plain_metadata_answer(self.alloc, role, entity, base)?;
                Ok(Replied::Plain(Answer::Full(bytes)))
            }
            Route::To(Service::SignOn) => self.reply_sign_on(ledger, request, now),
            Route::To(Service::Consumer) => self.reply_form(ledger, request, now),
        }
    }

    fn draft(&self, reply: &Reply, ledger: &mut HubLedger, now: u64) -> DraftOutcome<Draft> {
        DraftOutcome::of(reply.draft(ledger, now))
    }

    fn page(&self, reply: &Reply, draft: &Draft, now: u64) -> Result<Blob, NoMemory> {
        self.page_of(reply, draft.entry(), now)
    }

    // There is something to record for each reply: this is never asked.
    fn refusal(&self, _reply: &Reply) -> Verdict {
        Verdict::UnknownIssuer
    }

    fn laws_hold(&self, now: u64) {
        let _usable = &self.config;
        compactions_change_no_answer();
        each_login_has_an_answer();
        like_rows_are_judged_alike();
    }

    fn numbers_are_new() {}
}
