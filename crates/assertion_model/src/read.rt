// The login of an assertion that is vouched for.
ghost use Rattle.std.specs.Prelude.{◌≡◌, ◌≤◌, codes, IfOk, IfErr};
ghost use Rattle.saml_names.specs.Names.{saml};
ghost use Rattle.tree_read.specs.Children.{is_name};
ghost use Rattle.tree_read.specs.Views.{tree_of};
ghost use Rattle.tree_read.specs.Walk.{name_of_node};
ghost use Rattle.assertion_model.specs.Faults.{IsLoginFault};
ghost use Rattle.assertion_model.specs.Login.{login_of};
ghost use Rattle.assertion_model.specs.Parts.{part_of, login_at};
ghost use Rattle.assertion_model.specs.Reading.{Reads};

use crate::conditions::read_conditions;
use crate::fault::LoginFault;
use crate::login::Login;
use crate::look::{only_child, trimmed_text_of};
use crate::statements::{read_attributes, read_authentication};
use crate::subject::{read_confirmation, read_head, read_user_name};
use saml_names::SAML;
use saml_time::LAST;
use sig_reference::Vouched;
use std::alloc::Global;
use tree_read::{At, ShapeFault};

/// Whether the element is an Assertion (SAML Core, 2.3.3).
fn is_assertion(at: At<'_, '_>) -> bool
    ensures { result ≡ is_name (saml (codes "Assertion")) (name_of_node (tree_of at.entry) at.entry.node.0) }
{
    let name = at.doc.name(at.node);
    name.namespace == SAML && name.local == "Assertion"
}

/// What an Assertion says (SAML Core, 2.3.3).
///
/// # Errors
///
/// `WrongShape`, exactly where it says no login.
fn read_assertion(alloc: Global, at: At<'_, '_>) -> Result<Login, ShapeFault>
    ensures read { Reads result (login_of (part_of at.entry)) }
    ensures bound { IfOk result (λ login. login.confirm_until ≤ LAST) }
{
    let head = read_head(alloc, at)?;
    let issuer = only_child(at, "Issuer")?;
    let subject = only_child(at, "Subject")?;
    let name = read_user_name(alloc, subject)?;
    let confirmed = read_confirmation(alloc, subject)?;
    let valid = read_conditions(alloc, at)?;
    let session = read_authentication(alloc, at)?;
    let attributes = read_attributes(alloc, at)?;
    let issuer = trimmed_text_of(alloc, issuer)?;
    Ok(Login {
        id: head.id,
        issuer,
        issued: head.issued,
        audiences: valid.audiences,
        recipient: confirmed.recipient,
        request: confirmed.request,
        confirm_until: confirmed.until,
        not_before: valid.not_before,
        not_on_or_after: valid.not_on_or_after,
        name,
        index: session.index,
        session_until: session.until,
        attributes,
    })
}

/// The login of an element that is vouched for: that of its content without its own Signature, the first that is a child
/// of it (SAML Core, 2.3.3 and 5.4; SAML Profiles, 4.1.4).
///
/// # Errors
///
/// `BadAssertion`, exactly where the element has no login.
pub fn read_login(alloc: Global, v: &Vouched<'_, '_>) -> Result<Login, LoginFault>
    ensures read { IfOk result (λ login. login_at v.now.document.tree v.now.node ≡ Some login) }
    ensures bound { IfOk result (λ login. login.confirm_until ≤ LAST) }
    ensures bad { IfErr result (λ fault. IsLoginFault fault (login_at v.now.document.tree v.now.node ≡ None)) }
{
    let at = v.at();
    if !is_assertion(at) {
        return Err(LoginFault::BadAssertion);
    }
    let login = read_assertion(alloc, at)?;
    Ok(login)
}
