// Messages that are made (SAML Core, 3).

ghost use Rattle.std.specs.Prelude.{◌≡◌, ◌≤◌, IfOk, OnOk, if◌then◌else◌};
ghost use Rattle.std.specs.List.{AllByRecursion};
ghost use Rattle.saml_time.specs.Instant.{TellsInFull};
ghost use Rattle.xml_spec.specs.Characters.{IsText, IsNoColonName};
ghost use Rattle.saml_names.specs.Uris.{partial_logout};
ghost use Rattle.element_make.specs.Made.{Made, NothingMade, alone, joined};
ghost use Rattle.protocol_messages.specs.Making.{with_text, issuer_made, message, status_code_made, succeeded, failed, authn_request, response_attributes, response, session_indexes, logout_request, request_end, logged_out, IsMadeAt, IsMadeFrom};

use element_make::{Made, Ns};
use owned_values::{NoMemory, Text, Texts};
use saml_names::{NO_PASSIVE, PARTIAL_LOGOUT, POST, RESPONDER, SUCCESS};
use saml_time::{LAST, put_instant};
use std::alloc::Global;

/// How long a LogoutRequest may be answered, in milliseconds.
const REQUEST_LIFE: u64 = 300_000;

/// The written form of a moment (SAML Core, 1.3.3).
fn instant(alloc: Global, moment: u64) -> Result<Text, NoMemory>
    requires { moment ≤ LAST }
    ensures told { IfOk result (λ text. TellsInFull text moment) }
    ensures text { IfOk result (λ text. IsText text) }
{
    let mut bytes = [0; 24];
    put_instant(moment, &mut bytes);
    let text = str::from_utf8(&bytes).unwrap();
    Text::of(alloc, text)
}

/// An element without attributes that holds this text.
fn with_text(alloc: Global, ns: Ns, local: &'static str, text: &str) -> Result<Made, NoMemory>
    requires name { IsNoColonName local.now }
    requires text { IsText text.now }
    ensures { IfOk result (λ made. alone made ≡ with_text ns local.now text.now) }
{
    let mut made = Made::new(alloc, ns, local);
    made.text(text)?;
    Ok(made)
}

/// A StatusCode with this Value.
fn status_code(alloc: Global, value: &str) -> Result<Made, NoMemory>
    requires { IsText value.now }
    ensures { IfOk result (λ made. alone made ≡ status_code_made value.now NothingMade) }
{
    let mut made = Made::new(alloc, Ns::Samlp, "StatusCode");
    made.attr("Value", value)?;
    Ok(made)
}

/// The Status of a request that succeeded.
fn succeeded(alloc: Global) -> Result<Made, NoMemory>
    ensures { IfOk result (λ made. alone made ≡ succeeded) }
{
    let mut made = Made::new(alloc, Ns::Samlp, "Status");
    made.child(status_code(alloc, SUCCESS)?)?;
    Ok(made)
}

/// The Status of a request that could not be performed, with the second status as the reason.
fn failed(alloc: Global, reason: &str) -> Result<Made, NoMemory>
    requires { IsText reason.now }
    ensures { IfOk result (λ made. alone made ≡ failed reason.now) }
{
    let mut code = status_code(alloc, RESPONDER)?;
    code.child(status_code(alloc, reason)?)?;
    let mut made = Made::new(alloc, Ns::Samlp, "Status");
    made.child(code)?;
    Ok(made)
}

/// Makes an AuthnRequest that asks for a response in HTTP POST at `consumer` (SAML Core, 3.4.1). It is not signed.
///
/// # Errors
///
/// `NoMemory` alone.
pub fn make_authn(
    alloc: Global,
    id: &str,
    issuer: &str,
    destination: &str,
    consumer: &str,
    issued: u64,
) -> Result<Made, NoMemory>
    requires id { IsText id.now }
    requires issuer { IsText issuer.now }
    requires destination { IsText destination.now }
    requires consumer { IsText consumer.now }
    requires issued { issued ≤ LAST }
    ensures { IfOk result (λ made. IsMadeAt issued (authn_request id.now issuer.now destination.now consumer.now) made) }
{
    let instant = instant(alloc, issued)?;
    let mut made = Made::new(alloc, Ns::Samlp, "AuthnRequest");
    made.attr("AssertionConsumerServiceURL", consumer)?;
    made.attr("Destination", destination)?;
    made.attr("ID", id)?;
    made.attr("IssueInstant", instant.as_str())?;
    made.attr("ProtocolBinding", POST)?;
    made.attr("Version", "2.0")?;
    made.child(with_text(alloc, Ns::Saml, "Issuer", issuer)?)?;
    Ok(made)
}

/// A response of this local name, with its attributes and its Issuer (SAML Core, 3.2.2).
fn answer(
    alloc: Global,
    local: &'static str,
    id: &str,
    issuer: &str,
    destination: &str,
    request: &str,
    issued: u64,
) -> Result<Made, NoMemory>
    requires name { IsNoColonName local.now }
    requires id { IsText id.now }
    requires issuer { IsText issuer.now }
    requires destination { IsText destination.now }
    requires request { IsText request.now }
    requires issued { issued ≤ LAST }
    ensures { IfOk result (λ made. IsMadeAt issued (λ instant.
        message local.now (response_attributes id.now destination.now request.now instant)
        (issuer_made issuer.now)) made) }
{
    let instant = instant(alloc, issued)?;
    let mut made = Made::new(alloc, Ns::Samlp, local);
    made.attr("Destination", destination)?;
    made.attr("ID", id)?;
    made.attr("InResponseTo", request)?;
    made.attr("IssueInstant", instant.as_str())?;
    made.attr("Version", "2.0")?;
    made.child(with_text(alloc, Ns::Saml, "Issuer", issuer)?)?;
    Ok(made)
}

/// Makes a Response (SAML Core, 3.3.3): with an Assertion its status is Success, without one it says that the user could
/// not be authenticated passively. It is not signed.
///
/// # Errors
///
/// `NoMemory` alone.
pub fn make_response(
    alloc: Global,
    id: &str,
    issuer: &str,
    destination: &str,
    request: &str,
    issued: u64,
    assertion: Option<Made>,
) -> Result<Made, NoMemory>
    requires id { IsText id.now }
    requires issuer { IsText issuer.now }
    requires destination { IsText destination.now }
    requires request { IsText request.now }
    requires issued { issued ≤ LAST }
    ensures { IfOk result (λ made. IsMadeAt issued (response id.now issuer.now destination.now request.now assertion) made) }
{
    let mut made = answer(alloc, "Response", id, issuer, destination, request, issued)?;
    match assertion {
        Some(assertion) => {
            made.child(succeeded(alloc)?)?;
            made.child(assertion)?;
            Ok(made)
        }
        None => {
            made.child(failed(alloc, NO_PASSIVE)?)?;
            Ok(made)
        }
    }
}

/// Adds a SessionIndex for each text.
fn put_indexes(alloc: Global, made: &mut Made, indexes: &Texts) -> Result<(), NoMemory>
    requires { AllByRecursion IsText indexes.now }
    ensures { OnOk result (made.new ≡ record made.old { kids = joined made.old.kids (session_indexes indexes.now) }) }
{
    for index in indexes.as_slice() {
        made.child(with_text(alloc, Ns::Samlp, "SessionIndex", index.as_str())?)?;
    }
    Ok(())
}

/// Makes a LogoutRequest for the user `name` and the sessions `indexes` (SAML Core, 3.7.1). It is not to be taken 300
/// seconds after its issue, or at the last moment that has a written form. It is not signed.
///
/// # Errors
///
/// `NoMemory` alone.
pub fn make_logout_request(
    alloc: Global,
    id: &str,
    issuer: &str,
    destination: &str,
    issued: u64,
    name: &str,
    indexes: &Texts,
) -> Result<Made, NoMemory>
    requires id { IsText id.now }
    requires issuer { IsText issuer.now }
    requires destination { IsText destination.now }
    requires issued { issued ≤ LAST }
    requires name { IsText name.now }
    requires indexes { AllByRecursion IsText indexes.now }
    ensures { IfOk result (λ made. IsMadeFrom issued (request_end issued) (logout_request id.now issuer.now destination.now name.now indexes.now) made) }
{
    let issue = instant(alloc, issued)?;
    let until = instant(alloc, (issued + REQUEST_LIFE).min(LAST))?;
    let mut made = Made::new(alloc, Ns::Samlp, "LogoutRequest");
    made.attr("Destination", destination)?;
    made.attr("ID", id)?;
    made.attr("IssueInstant", issue.as_str())?;
    made.attr("NotOnOrAfter", until.as_str())?;
    made.attr("Version", "2.0")?;
    made.child(with_text(alloc, Ns::Saml, "Issuer", issuer)?)?;
    made.child(with_text(alloc, Ns::Saml, "NameID", name)?)?;
    put_indexes(alloc, &mut made, indexes)?;
    Ok(made)
}

/// Makes a LogoutResponse (SAML Core, 3.7.2): its status is Success, or where the logout was partial Responder with
/// PartialLogout. It is not signed.
///
/// # Errors
///
/// `NoMemory` alone.
pub fn make_logout_response(
    alloc: Global,
    id: &str,
    issuer: &str,
    destination: &str,
    request: &str,
    issued: u64,
    partial: bool,
) -> Result<Made, NoMemory>
    requires id { IsText id.now }
    requires issuer { IsText issuer.now }
    requires destination { IsText destination.now }
    requires request { IsText request.now }
    requires issued { issued ≤ LAST }
    ensures { IfOk result (λ made. IsMadeAt issued (logged_out id.now issuer.now destination.now request.now
        (if partial then failed partial_logout else succeeded)) made) }
{
    let mut made = answer(
        alloc,
        "LogoutResponse",
        id,
        issuer,
        destination,
        request,
        issued,
    )?;
    if partial {
        made.child(failed(alloc, PARTIAL_LOGOUT)?)?;
    } else {
        made.child(succeeded(alloc)?)?;
    }
    Ok(made)
}
