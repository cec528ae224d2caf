//! How an identity provider replies: where a request goes, and how a reply is drafted and shown.
ghost use Rattle.std.specs.Prelude.{◌≡◌, IfOk};
ghost use Rattle.idp_answers.specs.Answers.{metadata_answer};

use crate::reply::Reply;
use crate::role::IdpRole;
use crate::route::{Service, service_at};
use fault_verdicts::Judged;
use http_wire::{Answer, HttpRequest};
use idp_answers::laws::each_login_has_an_answer;
use idp_answers::metadata_answer;
use idp_ledger::laws::compactions_change_no_answer;
use idp_ledger::{Draft, IdpLedger, IdpStanding};
use owned_values::{Blob, NoMemory};
use provider_node::{DraftOutcome, Replied, Role};
use service_routes::{Route, route_to};
use verdict_codes::Verdict;

impl IdpRole {
    /// The metadata of the provider.
    fn metadata(&self) -> Result<Blob, NoMemory>
        ensures { IfOk result (λ bytes. bytes ≡ metadata_answer self.now.entity self.now.base) }
    {
        metadata_answer(
            self.alloc,
            self.config.entity.as_str(),
            self.config.base.as_str(),
        )
    }
}

impl Role for IdpRole {
    ghost use Rattle.idp_server.specs.Replies.{idp_replies};
    ghost use Rattle.idp_server.specs.Step.{Answers};

    type Rows = IdpStanding;

    type Reply = Reply;

    ghost key = { λ role. role.id_key };

    ghost answers = { Answers };

    ghost replies = { idp_replies };

    fn id_key(&self) -> [u8; 32] {
        self.config.id_key
    }

    fn reply(
        &self,
        ledger: &IdpLedger,
        request: &HttpRequest<'_>,
        now: u64,
    ) -> Result<Replied<Reply>, Judged> {
        match route_to(request, service_at(request.path)) {
            Route::Refused(status) => Ok(Replied::Plain(Answer::Fixed(status))),
            Route::To(Service::Metadata) => Ok(Replied::Plain(Answer::Full(self.metadata()?))),
            Route::To(Service::SignOn) => {
                Ok(Replied::ForRecord(self.sign_on(ledger, request, now)?))
            }
            Route::To(Service::Login) => Ok(Replied::ForRecord(self.log_in(ledger, request, now)?)),
            Route::To(Service::Logout) => Ok(Replied::ForRecord(self.leave(ledger, request, now)?)),
            Route::To(Service::SingleLogout) => {
                Ok(Replied::ForRecord(self.single_logout(ledger, request, now)?))
            }
        }
    }

    fn draft(&self, reply: &Reply, ledger: &mut IdpLedger, now: u64) -> DraftOutcome<Draft> {
        DraftOutcome::of(reply.draft(ledger, now))
    }

    fn page(&self, reply: &Reply, draft: &Draft, now: u64) -> Result<Blob, NoMemory> {
        self.page_of(reply, draft.entry().entry(), now)
    }

    // There is a session to end, or a logout that waits, for all others: for these it is never asked.
    fn refusal(&self, reply: &Reply) -> Verdict {
        match reply {
            Reply::Confirm { .. } => Verdict::UnknownLogout,
            _ => Verdict::NoSuchSession,
        }
    }

    fn laws_hold(&self, now: u64) {
        self.has_usable_config();
        compactions_change_no_answer();
        each_login_has_an_answer();
    }

    fn numbers_are_new() {}
}
