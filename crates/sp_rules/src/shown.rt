// What is accepted of a login, and where it stands in the message.

ghost use Rattle.std.specs.Prelude.{◌≡◌, ◌≤◌, [], ◌∷◌, codes, Some, IfOk};
ghost use Rattle.std.specs.List.{AllByRecursion};
ghost use Rattle.saml_names.specs.Names.{saml};
ghost use Rattle.saml_tree.specs.Documents.{IsSpelled};
ghost use Rattle.saml_tree.specs.Elements.{IsElement};
ghost use Rattle.tree_read.specs.Children.{children};
ghost use Rattle.assertion_model.specs.Parts.{login_at};
ghost use Rattle.assertion_model.specs.Places.{name_place, value_places};
ghost use Rattle.request_rows.specs.declared.row.AskedRow.{AskedRow};
ghost use Rattle.sp_rules.specs.Keys.{usable};
ghost use Rattle.sp_rules.specs.Shown.{AreWrittenAt, session_end, session_of, IsAcceptedOf};
ghost use Rattle.sp_rules.specs.Views.{IsCoverOf};

use crate::accepted::{Accepted, Spans};
use crate::config::{SESSION_LENGTH, SpConfig};
use crate::cover::Cover;
use assertion_model::{Login, Places};
use owned_values::{NoMemory, Text};
use request_rows::NewSession;
use saml_time::{GREATEST_SKEW, LAST};
use saml_tree::Doc;
use std::alloc::Global;
use tree_read::Nodes;

/// Where elements of a document stand in its text, in order.
fn spans_of(alloc: Global, doc: &Doc<'_>, nodes: &Nodes) -> Result<Spans, NoMemory>
    requires { AllByRecursion (λ n. IsElement doc.now.tree n) nodes.now }
    ensures { IfOk result (λ spans. AreWrittenAt doc.now.text doc.now.tree nodes.now spans) }
{
    let mut spans = Spans::new(alloc);
    for node in nodes.as_slice() {
        spans.push(doc.span(*node))?;
    }
    Ok(spans)
}

/// When a session that begins now ends.
fn session_end(now: u64, granted: Option<u64>) -> u64
    requires { now ≤ LAST }
    ensures { result ≡ session_end now granted }
{
    let end = now + SESSION_LENGTH;
    match granted {
        Some(granted) => end.min(granted),
        None => end,
    }
}

/// The session of a login that the key with this number vouches for.
fn session_of(config: &SpConfig, now: u64, key: u8, login: Login) -> NewSession
    requires now { now ≤ LAST }
    requires skew { config.now.skew ≤ GREATEST_SKEW }
    requires until { login.confirm_until ≤ LAST }
    ensures { result ≡ session_of config.now now key login }
{
    NewSession {
        request: login.request,
        issuer: login.issuer,
        assertion: login.id,
        assertion_until: login.confirm_until + config.skew,
        name: login.name,
        index: login.index,
        until: session_end(now, login.session_until),
        attributes: login.attributes,
        key,
    }
}

/// What is accepted of a login that a cover vouches for, and where it stands.
pub(crate) fn accepted_of(
    alloc: Global,
    config: &SpConfig,
    now: u64,
    cover: &Cover<'_, '_>,
    login: Login,
    target: Text,
    places: &Places,
) -> Result<Accepted, NoMemory>
    requires now { now ≤ LAST }
    requires skew { config.now.skew ≤ GREATEST_SKEW }
    requires until { login.confirm_until ≤ LAST }
    requires spelled { IsSpelled cover.now.assertion.document.text cover.now.assertion.document.tree }
    requires child { children cover.now.assertion.document.tree 0 (saml (codes "Assertion")) ≡ cover.now.assertion.node ∷ [] }
    requires covers { IsCoverOf (usable config.now now) cover.now.assertion.document cover.now.assertion.node cover.now }
    requires read { login_at cover.now.assertion.document.tree cover.now.assertion.node ≡ Some login }
    requires name { name_place cover.now.assertion.document.tree cover.now.assertion.node ≡ Some places.now.name.0 }
    requires values { value_places cover.now.assertion.document.tree cover.now.assertion.node ≡ places.now.values }
    requires name_element { IsElement cover.now.assertion.document.tree places.now.name.0 }
    requires value_elements { AllByRecursion (λ n. IsElement cover.now.assertion.document.tree n) places.now.values }
    ensures { IfOk result (λ accepted. (asked : AskedRow) → asked.target ≡ target →
        IsAcceptedOf config.now now cover.now.assertion.document.text cover.now.assertion.document.tree
        cover.now.assertion.node cover.now.first.0 cover.now.key login asked accepted) }
{
    let assertion = cover.assertion.at();
    let doc = assertion.doc;
    let value_spans = spans_of(alloc, doc, &places.values)?;
    Ok(Accepted {
        session: session_of(config, now, cover.key, login),
        target,
        covered: doc.span(cover.first),
        signature: doc.span(cover.signature),
        assertion: doc.span(assertion.node),
        name_span: doc.span(places.name),
        value_spans,
    })
}
