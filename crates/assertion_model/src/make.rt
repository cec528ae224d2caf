// The assertion that is made of a login.
ghost use Rattle.std.specs.Prelude.{◌≡◌, IfOk, OnOk};
ghost use Rattle.std.specs.List.{AllByRecursion};
ghost use Rattle.xml_spec.specs.Characters.{IsText};
ghost use Rattle.element_make.specs.Made.{alone, joined};
ghost use Rattle.assertion_model.specs.Assertion.{joined_all, confirmation, subject, restriction, conditions, authentication, stated, statements, assertion, IsAssertionOf, IsStatable, CanBeMade};
ghost use Rattle.assertion_model.specs.Moments.{AllAreTexts};

use crate::audiences::Audiences;
use crate::login::Login;
use crate::moments::Moments;
use crate::pieces::{add_all_holding, add_if_any, holding};
use element_make::{Made, Ns};
use owned_values::{Attributes, NoMemory};
use saml_names::{BEARER, PASSWORD};
use std::alloc::Global;

/// The confirmation by who bears the assertion (SAML Core, 2.4.1.1).
fn confirmation(alloc: Global, login: &Login, moments: &Moments) -> Result<Made, NoMemory>
    requires login { CanBeMade login.now }
    requires moments { AllAreTexts moments.now }
    ensures { IfOk result (λ made. alone made ≡ confirmation login.now moments.now) }
{
    let mut data = Made::new(alloc, Ns::Saml, "SubjectConfirmationData");
    data.attr("InResponseTo", login.request.as_str())?;
    data.attr("NotOnOrAfter", moments.confirm_until.as_str())?;
    data.attr("Recipient", login.recipient.as_str())?;
    let mut made = Made::new(alloc, Ns::Saml, "SubjectConfirmation");
    made.attr("Method", BEARER)?;
    made.child(data)?;
    Ok(made)
}

/// Who the assertion is about (SAML Core, 2.4.1).
fn subject(alloc: Global, login: &Login, moments: &Moments) -> Result<Made, NoMemory>
    requires login { CanBeMade login.now }
    requires moments { AllAreTexts moments.now }
    ensures { IfOk result (λ made. alone made ≡ subject login.now moments.now) }
{
    let mut made = Made::new(alloc, Ns::Saml, "Subject");
    made.child(holding(alloc, "NameID", login.name.as_str())?)?;
    made.child(confirmation(alloc, login, moments)?)?;
    Ok(made)
}

/// Adds an AudienceRestriction for each list of audiences (SAML Core, 2.5.1.4).
fn add_restrictions(alloc: Global, made: &mut Made, audiences: &Audiences) -> Result<(), NoMemory>
    requires { AllByRecursion (AllByRecursion IsText) audiences.now }
    ensures { OnOk result (made.new ≡ record made.old { kids = joined made.old.kids (joined_all restriction audiences.now) }) }
{
    for i in 0..audiences.len() {
        let mut restriction = Made::new(alloc, Ns::Saml, "AudienceRestriction");
        add_all_holding(alloc, &mut restriction, "Audience", audiences.at(i))?;
        made.child(restriction)?;
    }
    Ok(())
}

/// When the assertion is valid, and for whom (SAML Core, 2.5.1).
fn conditions(alloc: Global, login: &Login, moments: &Moments) -> Result<Made, NoMemory>
    requires login { CanBeMade login.now }
    requires moments { AllAreTexts moments.now }
    ensures { IfOk result (λ made. alone made ≡ conditions login.now moments.now) }
{
    let mut made = Made::new(alloc, Ns::Saml, "Conditions");
    add_if_any(&mut made, "NotBefore", &moments.not_before)?;
    add_if_any(&mut made, "NotOnOrAfter", &moments.not_on_or_after)?;
    add_restrictions(alloc, &mut made, &login.audiences)?;
    Ok(made)
}

/// The authentication, with its session (SAML Core, 2.7.2).
fn authentication(alloc: Global, login: &Login, moments: &Moments) -> Result<Made, NoMemory>
    requires login { CanBeMade login.now }
    requires moments { AllAreTexts moments.now }
    ensures { IfOk result (λ made. alone made ≡ authentication login.now moments.now) }
{
    let mut context = Made::new(alloc, Ns::Saml, "AuthnContext");
    context.child(holding(alloc, "AuthnContextClassRef", PASSWORD)?)?;
    let mut made = Made::new(alloc, Ns::Saml, "AuthnStatement");
    made.attr("AuthnInstant", moments.issued.as_str())?;
    add_if_any(&mut made, "SessionIndex", &login.index)?;
    add_if_any(&mut made, "SessionNotOnOrAfter", &moments.session_until)?;
    made.child(context)?;
    Ok(made)
}

/// Adds an Attribute for each attribute (SAML Core, 2.7.3.1).
fn add_stated(alloc: Global, made: &mut Made, attributes: &Attributes) -> Result<(), NoMemory>
    requires { AllByRecursion IsStatable attributes.now }
    ensures { OnOk result (made.new ≡ record made.old { kids = joined made.old.kids (joined_all stated attributes.now) }) }
{
    for i in 0..attributes.len() {
        let attribute = attributes.at(i);
        let mut stated = Made::new(alloc, Ns::Saml, "Attribute");
        stated.attr("Name", attribute.name.as_str())?;
        add_all_holding(alloc, &mut stated, "AttributeValue", &attribute.values)?;
        made.child(stated)?;
    }
    Ok(())
}

/// Adds the statement of the attributes, where there are any (SAML Core, 2.7.3).
fn add_statements(alloc: Global, made: &mut Made, attributes: &Attributes) -> Result<(), NoMemory>
    requires { AllByRecursion IsStatable attributes.now }
    ensures { OnOk result (made.new ≡ record made.old { kids = joined made.old.kids (statements attributes.now) }) }
{
    if attributes.is_empty() {
        return Ok(());
    }
    let mut statement = Made::new(alloc, Ns::Saml, "AttributeStatement");
    add_stated(alloc, &mut statement, attributes)?;
    made.child(statement)?;
    Ok(())
}

/// The assertion with these moments (SAML Core, 2.3.3).
fn assertion(alloc: Global, login: &Login, moments: &Moments) -> Result<Made, NoMemory>
    requires login { CanBeMade login.now }
    requires moments { AllAreTexts moments.now }
    ensures { IfOk result (λ made. made ≡ assertion login.now moments.now) }
{
    let mut made = Made::new(alloc, Ns::Saml, "Assertion");
    made.attr("ID", login.id.as_str())?;
    made.attr("IssueInstant", moments.issued.as_str())?;
    made.attr("Version", "2.0")?;
    made.child(holding(alloc, "Issuer", login.issuer.as_str())?)?;
    made.child(subject(alloc, login, moments)?)?;
    made.child(conditions(alloc, login, moments)?)?;
    made.child(authentication(alloc, login, moments)?)?;
    add_statements(alloc, &mut made, &login.attributes)?;
    Ok(made)
}

/// The assertion of a login, without a signature (SAML Core, 2.3.3). Its moments are written in full.
///
/// # Errors
///
/// `NoMemory` alone.
pub fn make_assertion(alloc: Global, login: &Login) -> Result<Made, NoMemory>
    requires { CanBeMade login.now }
    ensures { IfOk result (IsAssertionOf login.now) }
{
    let moments = Moments::of(alloc, login)?;
    assertion(alloc, login, &moments)
}
