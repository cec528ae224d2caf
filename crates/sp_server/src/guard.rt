//! The guard: a proxy in front of an application asks who a request comes from.
ghost use Rattle.std.specs.Prelude.{◌≡◌, IfOk};
ghost use Rattle.access_policy.specs.Decide.{decision_view};
ghost use Rattle.http_wire.specs.Views.{request_view};
ghost use Rattle.sp_server.specs.Guard as spec;
ghost use Rattle.sp_server.specs.Replies.{RepliesTo};
ghost use Rattle.service_routes.specs.declared.route.Route.TheVariants.{To};
ghost use Rattle.sp_server.specs.declared.route.Service.TheVariants.{Guard};
ghost use Rattle.sp_server.specs.Routes.{route};

use crate::app::session_for;
use crate::reply::Reply;
use crate::role::SpRole;
use crate::route::is_target;
use access_policy::{Decision, Policy, is_app};
use fault_verdicts::Judged;
use http_wire::{Answer, HttpRequest, Method, vouched_answer};
use owned_values::{Blob, NoMemory};
use provider_node::Replied;
use request_ledger::Ledger;
use request_rows::OpenedRow;
use sp_answers::denied_answer;

/// The path that is asked for: what stands behind `/auth`.
fn path_asked(path: &str) -> &str
    ensures { result.now ≡ spec.path_asked path.now }
{
    match path.strip_prefix("/auth") {
        Some(asked) => asked,
        None => path,
    }
}

/// Whether a segment of a path stands for another one.
fn is_dot_segment(segment: &str) -> bool
    ensures { result ≡ spec.is_dot_segment segment.now }
{
    segment == "." || segment == ".."
}

/// Whether none of the segments between slashes is a dot-segment, and none but the last is empty.
fn are_plain(segments: &str) -> bool
    ensures { result ≡ spec.are_plain (spec.between_slashes segments.now) }
{
    let mut rest = segments;
    while let Some((segment, behind)) = rest.split_once('/') {
        if segment.is_empty() || is_dot_segment(segment) {
            return false;
        }
        rest = behind;
    }
    !is_dot_segment(rest)
}

/// Whether each segment of a path is plain.
fn has_plain_segments(path: &str) -> bool
    ensures { result ≡ spec.are_plain (spec.segments path.now) }
{
    match path.split_once('/') {
        Some((_, segments)) => are_plain(segments),
        None => true,
    }
}

/// Whether a proxy passes a path on as it stands.
fn is_plain(path: &str) -> bool
    ensures { result ≡ spec.is_plain path.now }
{
    is_app(path.as_bytes()) && is_target(path) && has_plain_segments(path)
}

/// What a policy decides of a path that is asked for.
fn decide_plain<'p>(policy: &'p Policy, path: &str, row: &OpenedRow) -> Decision<'p>
    ensures { decision_view result ≡ spec.decide_plain policy.now path.now row.now }
{
    if is_plain(path) {
        policy.decide(path, row.name.as_str(), &row.attributes)
    } else {
        Decision {
            allowed: false,
            rule: "default",
        }
    }
}

impl SpRole {
    /// What a live session is answered.
    fn vouched(&self, path: &str, row: &OpenedRow) -> Result<Blob, NoMemory>
        ensures { IfOk result (λ bytes. bytes ≡ spec.vouched_to self.now.policy path.now row.now) }
    {
        if let Some(policy) = &self.policy {
            let decision = decide_plain(policy, path, row);
            if !decision.allowed {
                return denied_answer(self.alloc, decision.rule);
            }
        }
        vouched_answer(self.alloc, row.name.as_str(), &row.attributes)
    }

    /// What is replied to a proxy that asks who a request comes from. Nothing is recorded.
    ///
    /// # Errors
    ///
    /// `NoMemory` alone.
    pub(crate) fn reply_guard(
        &self,
        ledger: &Ledger,
        request: &HttpRequest<'_>,
        now: u64,
    ) -> Result<Replied<Reply>, Judged>
        requires { route (request_view request.now) ≡ To Guard }
        ensures { RepliesTo self.now ledger.now.held (request_view request.now) now result }
    {
        if !self.guard {
            return Ok(Replied::Plain(Answer::Fixed(404)));
        }
        if request.method != Method::Get {
            return Ok(Replied::Plain(Answer::Fixed(405)));
        }
        match session_for(ledger, request, now) {
            Some(row) => {
                let bytes = self.vouched(path_asked(request.path), row)?;
                Ok(Replied::Plain(Answer::Full(bytes)))
            }
            None => Ok(Replied::Plain(Answer::Fixed(401))),
        }
    }
}
