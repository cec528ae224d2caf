// The verdict on a posted form (SAML Profiles, 4.1.4; SAML Bindings, 3.5).

ghost use Rattle.std.specs.Prelude.{◌≡◌, ◌≤◌, ℕ, List, length, None, Some, IfOk, IfErr, IfSome, OnOk};
ghost use Rattle.std.specs.List.{AllByRecursion};
ghost use Rattle.saml_tree.specs.Documents.{IsSpelled};
ghost use Rattle.saml_tree.specs.Elements.{IsElement};
ghost use Rattle.post_binding.specs.Form.{form};
ghost use Rattle.tree_read.specs.Views.{tree_of};
ghost use Rattle.fault_verdicts.specs.Judging.{IsJudged};
ghost use Rattle.sp_rules.specs.Opening.{Posts, Asserts};
ghost use Rattle.sp_rules.specs.Outstanding.{asked_for};
ghost use Rattle.sp_rules.specs.Shown.{IsOpening};
ghost use Rattle.sp_rules.specs.Verdict.{form_refusal, head_refusal, login_refusal, IsRefused};

use crate::accepted::Accepted;
use crate::config::SpConfig;
use crate::cover::cover_of;
use crate::login::{
    consumer_address, is_for, is_from, is_in_time, is_outstanding, is_relayed, is_sent_to,
    is_unseen, is_unspent,
};
use crate::reading::{head_of, login_of, places_of};
use crate::shown::accepted_of;
use assertion_model::Login;
use fault_verdicts::Judged;
use owned_values::{Blob, Text};
use post_binding::{Field, MESSAGE_LIMIT, read_form};
use protocol_messages::ResponseHead;
use request_rows::{AskedRow, Rows};
use saml_time::{GREATEST_SKEW, LAST};
use saml_tree::{Doc, read_document};
use std::alloc::Global;
use tree_read::At;
use verdict_codes::{Verdict, ask};

/// The message of a form in which a Response was posted, with its relay.
fn read_posted(alloc: Global, body: &[u8]) -> Result<(Blob, Option<Text>), Judged>
    ensures posts { IfOk result (λ posted. Posts body.now posted.0 posted.1) }
    ensures small { IfOk result (λ posted. length posted.0 ≤ MESSAGE_LIMIT) }
    ensures refused { IfErr result (IsJudged (λ verdict. form_refusal (form body.now) ≡ Some verdict)) }
{
    let posted = read_form(alloc, body)?;
    match posted.field {
        Field::Response => Ok((posted.message, posted.relay)),
        Field::Request => Err(Judged::Code(Verdict::BadForm)),
    }
}

/// The one Assertion of a successful Response.
fn the_assertion<'d, 'a>(root: At<'d, 'a>, head: &ResponseHead) -> Result<At<'d, 'a>, Verdict>
    requires elements { AllByRecursion (λ n. IsElement (tree_of root) n) head.now.assertions }
    ensures asserts { IfOk result (λ assertion. Asserts head.now assertion.node.0) }
    ensures document { IfOk result (λ assertion. assertion.doc.now ≡ root.entry.doc.now) }
    ensures refused { IfErr result (λ verdict. head_refusal head.now ≡ Some verdict) }
{
    ask(head.success, Verdict::NotSuccess)?;
    match head.assertions.as_slice() {
        [node] => Ok(At {
            doc: root.doc,
            node: *node,
        }),
        _ => Err(Verdict::NotOneAssertion),
    }
}

/// The asked row of the request that a login answers, where it is meant for this provider and its request waits for it.
fn asked_by<'r>(
    alloc: Global,
    config: &SpConfig,
    rows: &'r Rows,
    horizon: u64,
    now: u64,
    head: &ResponseHead,
    relay: &Option<Text>,
    login: &Login,
) -> Result<&'r AskedRow, Judged>
    requires now { now ≤ LAST }
    requires skew { config.now.skew ≤ GREATEST_SKEW }
    ensures asked { IfOk result (λ asked. asked_for rows.now horizon now login.now ≡ Some asked.now) }
    ensures accepted { OnOk result (login_refusal config.now rows.now horizon now head.now relay.now login.now ≡ None) }
    ensures refused { IfErr result (IsJudged (λ verdict. login_refusal config.now rows.now horizon now head.now relay.now login.now ≡ Some verdict)) }
{
    let address = consumer_address(alloc, config)?;
    let asked = rows.asked_row(login.request.as_str(), now, horizon);
    ask(is_from(config, head, login), Verdict::WrongIssuer)?;
    ask(is_for(config, login), Verdict::WrongAudience)?;
    ask(
        is_sent_to(address.as_str(), head, login),
        Verdict::WrongRecipient,
    )?;
    ask(is_in_time(config, now, login), Verdict::NotInTime)?;
    ask(is_outstanding(asked, head, login), Verdict::NotOutstanding)?;
    ask(is_unspent(rows, login), Verdict::RequestSpent)?;
    ask(is_unseen(rows, horizon, now, login), Verdict::AssertionSeen)?;
    ask(is_relayed(asked, relay), Verdict::RelayDiffers)?;
    asked.ok_or(Judged::Code(Verdict::NotOutstanding))
}

/// The verdict on a document that was posted with a relay.
fn judge_document(
    alloc: Global,
    config: &SpConfig,
    rows: &Rows,
    horizon: u64,
    now: u64,
    doc: &Doc<'_>,
    relay: &Option<Text>,
) -> Result<Accepted, Judged>
    requires now { now ≤ LAST }
    requires skew { config.now.skew ≤ GREATEST_SKEW }
    requires times { IfSome config.now.next_in (λ next. next.from ≤ next.until) }
    requires spelled { IsSpelled doc.now.text doc.now.tree }
    ensures accepted { IfOk result (λ accepted. (body : List ℕ) → Posts body doc.now.text relay.now → IsOpening config.now rows.now horizon now body accepted) }
    ensures refused { IfErr result (λ judged. (body : List ℕ) → Posts body doc.now.text relay.now → IsJudged (IsRefused config.now rows.now horizon now body) judged) }
{
    let root = At {
        doc,
        node: doc.root(),
    };
    let head = head_of(alloc, root)?;
    let assertion = the_assertion(root, &head)?;
    let cover = cover_of(alloc, config, now, root, assertion)?;
    let login = login_of(alloc, &cover.assertion)?;
    let asked = asked_by(alloc, config, rows, horizon, now, &head, relay, &login)?;
    let places = places_of(alloc, &cover.assertion)?;
    let target = asked.target.copy()?;
    Ok(accepted_of(alloc, config, now, &cover, login, target, &places)?)
}

/// Judges a form that was posted to a provider's consumer address at the moment `now`, over its rows, of which those that ended at
/// `horizon` or before may have been dropped. Both moments are in milliseconds since 1970-01-01T00:00:00Z.
///
/// A row is visible where it ends behind both. `NotOutstanding` and `RelayDiffers` look at the visible row of the request, and
/// `AssertionSeen` at the opened rows whose assertion may still be presented then; `RequestSpent` looks at every opened row,
/// visible or not, closed or not.
///
/// # Errors
///
/// The verdict of the first condition that fails. `NoMemory` may come in place of any other answer.
pub fn judge(
    alloc: Global,
    config: &SpConfig,
    rows: &Rows,
    horizon: u64,
    now: u64,
    body: &[u8],
) -> Result<Accepted, Judged>
    requires now { now ≤ LAST }
    requires skew { config.now.skew ≤ GREATEST_SKEW }
    requires times { IfSome config.now.next_in (λ next. next.from ≤ next.until) }
    ensures accepted { IfOk result (IsOpening config.now rows.now horizon now body.now) }
    ensures refused { IfErr result (IsJudged (IsRefused config.now rows.now horizon now body.now)) }
{
    let (message, relay) = read_posted(alloc, body)?;
    let doc = read_document(alloc, message.as_slice())?;
    judge_document(alloc, config, rows, horizon, now, &doc, &relay)
}
