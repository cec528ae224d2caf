// What a Response and its Assertion say, or the verdict where they say nothing (SAML Core, 2.3.3 and 3.3.3).

ghost use Rattle.std.specs.Prelude.{◌≡◌, ◌≤◌, Some, IfOk, IfErr};
ghost use Rattle.std.specs.List.{AllByRecursion};
ghost use Rattle.saml_tree.specs.Elements.{IsElement};
ghost use Rattle.tree_read.specs.Views.{tree_of};
ghost use Rattle.protocol_messages.specs.Messages.{IsResponse};
ghost use Rattle.assertion_model.specs.Parts.{login_at};
ghost use Rattle.assertion_model.specs.Places.{name_place, value_places};
ghost use Rattle.fault_verdicts.specs.Judging.{IsJudged};
ghost use Rattle.sp_rules.specs.Views.{IsNoResponse, HasNoLogin, HasNoName};

use assertion_model::{Login, LoginFault, Places, read_login, read_places};
use fault_verdicts::Judged;
use protocol_messages::{ResponseHead, read_response};
use saml_time::LAST;
use sig_reference::Vouched;
use std::alloc::Global;
use tree_read::{At, ShapeFault};
use verdict_codes::Verdict;

/// What the Response at the root of a document says.
pub(crate) fn head_of(alloc: Global, root: At<'_, '_>) -> Result<ResponseHead, Judged>
    ensures ok { IfOk result (λ head. IsResponse (tree_of root.entry) root.entry.node.0 head) }
    ensures elements { IfOk result (λ head. AllByRecursion (λ n. IsElement (tree_of root.entry) n) head.assertions) }
    ensures refused { IfErr result (IsJudged (IsNoResponse (tree_of root.entry) root.entry.node.0)) }
{
    match read_response(alloc, root) {
        Ok(head) => Ok(head),
        Err(ShapeFault::WrongShape) => Err(Judged::Code(Verdict::NotResponse)),
        Err(ShapeFault::NoMemory) => Err(Judged::NoMemory),
    }
}

/// The login of an Assertion that is covered.
pub(crate) fn login_of(alloc: Global, assertion: &Vouched<'_, '_>) -> Result<Login, Judged>
    ensures read { IfOk result (λ login. login_at assertion.now.document.tree assertion.now.node ≡ Some login) }
    ensures bound { IfOk result (λ login. login.confirm_until ≤ LAST) }
    ensures refused { IfErr result (IsJudged (HasNoLogin assertion.now.document.tree assertion.now.node)) }
{
    match read_login(alloc, assertion) {
        Ok(login) => Ok(login),
        Err(LoginFault::BadAssertion) => Err(Judged::Code(Verdict::BadAssertion)),
        Err(LoginFault::NoMemory) => Err(Judged::NoMemory),
    }
}

/// Where the login of an Assertion that is covered is read.
pub(crate) fn places_of(alloc: Global, assertion: &Vouched<'_, '_>) -> Result<Places, Judged>
    ensures name { IfOk result (λ places. name_place assertion.now.document.tree assertion.now.node ≡ Some places.name.0) }
    ensures values { IfOk result (λ places. value_places assertion.now.document.tree assertion.now.node ≡ places.values) }
    ensures elements { IfOk result (λ places. IsElement assertion.now.document.tree places.name.0
        × AllByRecursion (λ n. IsElement assertion.now.document.tree n) places.values) }
    ensures refused { IfErr result (IsJudged (HasNoName assertion.now.document.tree assertion.now.node)) }
{
    match read_places(alloc, assertion) {
        Ok(places) => Ok(places),
        Err(LoginFault::BadAssertion) => Err(Judged::Code(Verdict::BadAssertion)),
        Err(LoginFault::NoMemory) => Err(Judged::NoMemory),
    }
}
