//! The answers that carry a Response.
ghost use Rattle.std.specs.Prelude.{◌≡◌, ◌≢◌, ◌≤◌, [], IfOk, IsTrue};
ghost use Rattle.std.specs.Option.{option_map, ForSome};
ghost use Rattle.xml_spec.specs.Characters.{IsText};
ghost use Rattle.sig_reference.specs.Signing.{CanBeSigned};
ghost use Rattle.assertion_model.specs.Assertion.{CanBeMade};
ghost use Rattle.http_wire.specs.Answers.{is_one_line};
ghost use Rattle.idp_answers.specs.Answers as spec;

use crate::sending::{page_answer, response_form};
use assertion_model::{Login, make_assertion};
use element_make::Made;
use owned_values::{Blob, NoMemory};
use protocol_messages::make_response;
use provider_config::SignMode;
use saml_time::LAST;
use sig_reference::sign;
use std::alloc::Global;

/// The Assertion, signed where the mode signs it.
fn signed_assertion(alloc: Global, mode: SignMode, key: &[u8], made: Made) -> Result<Made, NoMemory>
    requires { CanBeSigned made }
    ensures { IfOk result (λ held. held ≡ spec.signed_assertion mode key.now made) }
{
    match mode {
        SignMode::Assertion | SignMode::Both => sign(alloc, made, key),
        SignMode::Response => Ok(made),
    }
}

/// The Response, signed where the mode signs it.
fn signed_response(alloc: Global, mode: SignMode, key: &[u8], made: Made) -> Result<Made, NoMemory>
    requires { CanBeSigned made }
    ensures { IfOk result (λ sent. sent ≡ spec.signed_response mode key.now made) }
{
    match mode {
        SignMode::Response | SignMode::Both => sign(alloc, made, key),
        SignMode::Assertion => Ok(made),
    }
}

/// The Response that is sent for a login.
fn issued(
    alloc: Global,
    mode: SignMode,
    key: &[u8],
    login: &Login,
    message: &str,
    consumer: &str,
    now: u64,
) -> Result<Made, NoMemory>
    requires login { CanBeMade login.now }
    requires login_named { login.now.id ≢ [] }
    requires message { IsText message.now }
    requires message_named { message.now ≢ [] }
    requires consumer { IsText consumer.now }
    requires now { now ≤ LAST }
    ensures { IfOk result (λ sent. spec.IsIssued mode key.now login.now message.now consumer.now now sent) }
{
    let assertion = make_assertion(alloc, login)?;
    let held = signed_assertion(alloc, mode, key, assertion)?;
    let response = make_response(
        alloc,
        message,
        login.issuer.as_str(),
        consumer,
        login.request.as_str(),
        now,
        Some(held),
    )?;
    signed_response(alloc, mode, key, response)
}

/// The answer for a login: a form that sends on a Response with this ID, which answers the login's request with Success and the
/// Assertion of the login, with the relay state, where there is one (SAML Profiles, 4.1.4.2; SAML Bindings, 3.5.4). It is
/// issued at `now`, in milliseconds since 1970-01-01T00:00:00Z, and signed with the key as the mode says: where both are
/// signed, the Assertion before the Response. Where the token of a session is given, the answer sets the cookie `idp_sid`.
///
/// # Errors
///
/// `NoMemory` alone.
pub fn issued_answer(
    alloc: Global,
    mode: SignMode,
    key: &[u8],
    login: &Login,
    message: &str,
    consumer: &str,
    relay: Option<&str>,
    cookie: Option<&str>,
    now: u64,
) -> Result<Blob, NoMemory>
    requires login { CanBeMade login.now }
    requires login_named { login.now.id ≢ [] }
    requires message { IsText message.now }
    requires message_named { message.now ≢ [] }
    requires consumer { IsText consumer.now }
    requires cookie { ForSome cookie (λ token. IsTrue (is_one_line token.now)) }
    requires now { now ≤ LAST }
    ensures { IfOk result (λ bytes. spec.IsIssuedAnswer mode key.now login.now message.now consumer.now
        (option_map (λ text. text.now) relay.entry) (option_map (λ text. text.now) cookie.entry) now bytes) }
{
    let sent = issued(alloc, mode, key, login, message, consumer, now)?;
    let page = response_form(alloc, sent, consumer, relay)?;
    page_answer(alloc, page.as_slice(), cookie)
}

/// The answer where the user could not be authenticated passively: a form that sends on a Response without an Assertion, which
/// is not signed, with the relay state, where there is one (SAML Core, 3.2.2.2; SAML Bindings, 3.5.4). It is issued at `now`,
/// in milliseconds since 1970-01-01T00:00:00Z.
///
/// # Errors
///
/// `NoMemory` alone.
pub fn no_passive_answer(
    alloc: Global,
    issuer: &str,
    message: &str,
    request: &str,
    consumer: &str,
    relay: Option<&str>,
    now: u64,
) -> Result<Blob, NoMemory>
    requires issuer { IsText issuer.now }
    requires message { IsText message.now }
    requires request { IsText request.now }
    requires consumer { IsText consumer.now }
    requires now { now ≤ LAST }
    ensures { IfOk result (λ bytes. spec.IsNoPassiveAnswer issuer.now message.now request.now consumer.now
        (option_map (λ text. text.now) relay.entry) now bytes) }
{
    let refusal = make_response(alloc, message, issuer, consumer, request, now, None)?;
    let page = response_form(alloc, refusal, consumer, relay)?;
    page_answer(alloc, page.as_slice(), None)
}
