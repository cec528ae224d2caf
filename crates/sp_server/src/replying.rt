//! How a service provider replies: where a request goes, and how a reply is drafted and shown.

use crate::reply::Reply;
use crate::role::SpRole;
use crate::route::{Service, route_of};
use fault_verdicts::Judged;
use http_wire::{Answer, HttpRequest};
use logout_answers::laws::each_logout_has_an_answer;
use owned_values::{Blob, NoMemory};
use provider_node::{DraftOutcome, Replied, Role};
use request_ledger::laws::compactions_change_no_answer;
use request_ledger::{Draft, Ledger, Marked};
use saml_time::each_moment_is_told;
use service_routes::Route;
use sp_answers::metadata_answer;
use verdict_codes::Verdict;

impl Role for SpRole {
    ghost use Rattle.sp_server.specs.Replies.{sp_replies};
    ghost use Rattle.sp_server.specs.Step.{Answers};

    type Rows = Marked;

    type Reply = Reply;

    ghost key = { λ role. role.config.id_key };

    ghost answers = { Answers };

    ghost replies = { sp_replies };

    fn id_key(&self) -> [u8; 32] {
        self.config.id_key
    }

    fn reply(
        &self,
        ledger: &Ledger,
        request: &HttpRequest<'_>,
        now: u64,
    ) -> Result<Replied<Reply>, Judged> {
        match route_of(request) {
            Route::Refused(status) => Ok(Replied::Plain(Answer::Fixed(status))),
            Route::To(Service::Metadata) => {
                let bytes = metadata_answer(self.alloc, &self.config)?;
                Ok(Replied::Plain(Answer::Full(bytes)))
            }
            Route::To(Service::App) => self.reply_app(ledger, request, now),
            Route::To(Service::Consumer) => self.reply_form(ledger, request, now),
            Route::To(Service::Logout) => self.reply_leave(ledger, request, now),
            Route::To(Service::SingleLogout) => self.reply_logout(ledger, request, now),
            Route::To(Service::Guard) => self.reply_guard(ledger, request, now),
        }
    }

    fn draft(&self, reply: &Reply, ledger: &mut Ledger, now: u64) -> DraftOutcome<Draft> {
        DraftOutcome::of(reply.draft(&self.config, ledger, now))
    }

    fn page(&self, reply: &Reply, draft: &Draft, now: u64) -> Result<Blob, NoMemory> {
        reply.answer(self.alloc, &self.config, draft, now)
    }

    // A login is always asked for, and a session that a form opens always opened: for these it is never asked.
    fn refusal(&self, reply: &Reply) -> Verdict {
        match reply {
            Reply::Ask { .. } | Reply::Open { .. } | Reply::Leave { .. } | Reply::End { .. } => {
                Verdict::NoSuchSession
            }
            Reply::Confirm { .. } => Verdict::UnknownLogout,
        }
    }

    fn laws_hold(&self, now: u64) {
        let _usable = &self.config;
        compactions_change_no_answer();
        each_logout_has_an_answer();
        each_moment_is_told();
    }

    fn numbers_are_new() {}
}
