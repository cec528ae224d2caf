//! POST of the page where a user logs in.
ghost use Rattle.std.specs.Prelude.{◌≡◌, ◌≤◌, ◌∷◌, [], codes, IfErr, IfOk, None, Some};
ghost use Rattle.fault_verdicts.specs.Judging.{IsJudged};
ghost use Rattle.http_wire.specs.Views.{request_view};
ghost use Rattle.http_wire.specs.declared.answer.Answer.TheVariants.{Fixed};
ghost use Rattle.post_binding.specs.Form.{fields};
ghost use Rattle.saml_time.specs.declared.TheConstants.{LAST};
ghost use Rattle.verdict_codes.specs.Codes.{number_of};
ghost use Rattle.service_routes.specs.declared.route.Route.TheVariants.{To};
ghost use Rattle.idp_server.specs.declared.route.Service.TheVariants.{Login};
ghost use Rattle.idp_server.specs.Routes.{route};
ghost use Rattle.idp_server.specs.Step.{Answers};
ghost use Rattle.idp_server.specs.Replies.{Wants};

use crate::reply::Reply;
use crate::role::IdpRole;
use fault_verdicts::Judged;
use http_wire::HttpRequest;
use idp_answers::laws::{each_moment_is_told, what_is_recorded_may_stand};
use idp_ledger::IdpLedger;
use owned_values::{NoMemory, Text, Texts};
use post_binding::read_fields;
use saml_time::LAST;
use std::alloc::Global;
use verdict_codes::Verdict;

/// The names of the fields of the page.
fn field_names(alloc: Global) -> Result<Texts, NoMemory>
    ensures { IfOk result (λ names. names ≡ codes "pending" ∷ codes "user" ∷ codes "password" ∷ []) }
{
    let mut names = Texts::new(alloc);
    names.push(Text::of(alloc, "pending")?)?;
    names.push(Text::of(alloc, "user")?)?;
    names.push(Text::of(alloc, "password")?)?;
    Ok(names)
}

impl IdpRole {
    /// The reply to the page of a login with these fields, or why there is none.
    fn reply_to_fields(
        &self,
        ledger: &IdpLedger,
        request: &HttpRequest<'_>,
        given: &Texts,
        now: u64,
    ) -> Result<Reply, Judged>
        requires moment { now ≤ LAST }
        requires route { route (request_view request.now) ≡ To Login }
        requires given { fields request.now.body.now (codes "pending" ∷ codes "user" ∷ codes "password" ∷ []) ≡ Some
            given.now }
        ensures reply { IfOk result (Wants self.now ledger.now.held (request_view request.now) now) }
        ensures refused { IfErr result (IsJudged (λ verdict. Answers self.now ledger.now.held (request_view request.now)
            now (Fixed (number_of verdict)) None)) }
    {
        what_is_recorded_may_stand();
        each_moment_is_told();
        let (pending, user, password) = (given.at(0), given.at(1), given.at(2));
        ledger.holds_records();
        let Some(row) = idp_ledger::pending(ledger, pending.as_str(), now) else {
            return Err(Judged::Code(Verdict::NoSuchPending));
        };
        let Some(peer) = self.config.peers.place_of(row.peer.as_str()) else {
            return Err(Judged::Code(Verdict::NoSuchPending));
        };
        let password = password.as_str().as_bytes();
        let Some(user) = self.config.users.check(user.as_str(), password) else {
            return Err(Judged::Code(Verdict::LoginRefused));
        };
        Ok(Reply::Login {
            pending: pending.copy()?,
            user: user.name.copy()?,
            attributes: user.attributes.copy()?,
            peer,
        })
    }

    /// The reply to the page of a login, or why there is none.
    ///
    /// # Errors
    ///
    /// `BadForm` where it is no such page, `NoSuchPending` where the login is not pending or its peer is not known any
    /// more, `LoginRefused` where no user has this name and this password. `NoMemory` may come in place of any other
    /// answer.
    pub(crate) fn log_in(
        &self,
        ledger: &IdpLedger,
        request: &HttpRequest<'_>,
        now: u64,
    ) -> Result<Reply, Judged>
        requires moment { now ≤ LAST }
        requires route { route (request_view request.now) ≡ To Login }
        ensures reply { IfOk result (Wants self.now ledger.now.held (request_view request.now) now) }
        ensures refused { IfErr result (IsJudged (λ verdict. Answers self.now ledger.now.held (request_view request.now)
            now (Fixed (number_of verdict)) None)) }
    {
        let names = field_names(self.alloc)?;
        match read_fields(self.alloc, request.body, &names)? {
            Some(given) => self.reply_to_fields(ledger, request, &given, now),
            None => Err(Judged::Code(Verdict::BadForm)),
        }
    }
}
