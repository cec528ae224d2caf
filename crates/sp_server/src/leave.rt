//! POST of a user who leaves.
ghost use Rattle.std.specs.Prelude.{◌≡◌, ◌∷◌, [], true, IfOk};
ghost use Rattle.std.specs.List.{AllByRecursion};
ghost use Rattle.std.specs.Option.{ForSome, option_to_list};
ghost use Rattle.xml_spec.specs.Characters.{IsText};
ghost use Rattle.http_wire.specs.Views.{request_view};
ghost use Rattle.ledger_rules.specs.Numbers.{is_xml_text};
ghost use Rattle.sp_server.specs.Replies.{Leaves, RepliesTo};
ghost use Rattle.service_routes.specs.declared.route.Route.TheVariants.{To};
ghost use Rattle.sp_server.specs.declared.route.Service.TheVariants.{Logout};
ghost use Rattle.sp_server.specs.Routes.{route};

use crate::app::session_for;
use crate::reply::Reply;
use crate::role::SpRole;
use fault_verdicts::Judged;
use http_wire::HttpRequest;
use owned_values::{NoMemory, Text, Texts};
use provider_node::Replied;
use request_ledger::Ledger;
use request_rows::OpenedRow;
use std::alloc::Global;
use verdict_codes::Verdict;

/// A list of one text.
fn one_text(alloc: Global, text: &str) -> Result<Texts, NoMemory>
    ensures { IfOk result (λ texts. texts ≡ text.now ∷ []) }
{
    let mut texts = Texts::new(alloc);
    texts.push(Text::of(alloc, text)?)?;
    Ok(texts)
}

/// The index of a session, where it has one, as a list.
fn indexes_of(alloc: Global, row: &OpenedRow) -> Result<Texts, NoMemory>
    requires { ForSome row.now.index (λ index. is_xml_text index ≡ true) }
    ensures are { IfOk result (λ indexes. indexes ≡ option_to_list row.now.index) }
    ensures texts { IfOk result (AllByRecursion IsText) }
{
    match &row.index {
        None => Ok(Texts::new(alloc)),
        Some(index) => one_text(alloc, index.as_str()),
    }
}

/// The reply to a user who leaves the session of a row.
fn leaving(alloc: Global, row: &OpenedRow) -> Result<Reply, NoMemory>
    requires name { is_xml_text row.now.name ≡ true }
    requires index { ForSome row.now.index (λ index. is_xml_text index ≡ true) }
    ensures { IfOk result (Leaves row.now) }
{
    let name = row.name.as_str();
    Ok(Reply::Leave {
        token: row.token.copy()?,
        name: Text::of(alloc, name)?,
        indexes: indexes_of(alloc, row)?,
    })
}

impl SpRole {
    /// What is replied to a user who leaves.
    ///
    /// # Errors
    ///
    /// `RegistryExpired` where the registry has ended; `NoSuchSession` where the user has no live session. `NoMemory`
    /// may come in place of any other answer.
    pub(crate) fn reply_leave(
        &self,
        ledger: &Ledger,
        request: &HttpRequest<'_>,
        now: u64,
    ) -> Result<Replied<Reply>, Judged>
        requires { route (request_view request.now) ≡ To Logout }
        ensures { RepliesTo self.now ledger.now.held (request_view request.now) now result }
    {
        if self.is_expired(now) {
            return Err(Judged::Code(Verdict::RegistryExpired));
        }
        ledger.holds_records();
        match session_for(ledger, request, now) {
            Some(row) => Ok(Replied::ForRecord(leaving(self.alloc, row)?)),
            None => Err(Judged::Code(Verdict::NoSuchSession)),
        }
    }
}
