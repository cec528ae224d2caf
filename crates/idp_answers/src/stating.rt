//! What is stated of a user.
ghost use Rattle.std.specs.Prelude.{◌≡◌, [], ◌∷◌, IfOk};
ghost use Rattle.xml_spec.specs.Characters.{IsText};
ghost use Rattle.assertion_model.specs.Assertion.{CanBeMade};
ghost use Rattle.idp_answers.specs.Stating as spec;
ghost use Rattle.idp_answers.specs.Stating.{CanBeStated, stated_view};

use assertion_model::{Audiences, Login};
use owned_values::{Attributes, NoMemory, Text, Texts};
use std::alloc::Global;

/// What is stated of a user to a peer that asked for a login.
#[derive(Clone, Copy, Debug)]
pub struct Statement<'a> {
    /// The ID of the Assertion.
    pub assertion: &'a Text,
    /// The index of the user's session (SAML Core, 2.7.2).
    pub index: &'a Text,
    /// The name of the user.
    pub user: &'a Text,
    /// What is stated of the user (SAML Core, 2.7.3).
    pub attributes: &'a Attributes,
    /// The name of the peer.
    pub peer: &'a Text,
    /// The address to which the answer goes.
    pub consumer: &'a Text,
    /// The ID of the peer's request.
    pub request: &'a Text,
    /// When the Assertion is issued, in milliseconds since 1970-01-01T00:00:00Z, as each moment here.
    pub moment: u64,
    /// Until when the Assertion may be presented.
    pub until: u64,
    /// When the user's session ends.
    pub session_end: u64,
}

/// A list of one text.
pub fn just(alloc: Global, text: &Text) -> Result<Texts, NoMemory>
    ensures { IfOk result (λ texts. texts ≡ text.now ∷ []) }
{
    let mut texts = Texts::new(alloc);
    texts.push(text.copy()?)?;
    Ok(texts)
}

/// The one audience of an Assertion: the peer that asked (SAML Core, 2.5.1.4).
fn audiences_of(alloc: Global, peer: &Text) -> Result<Audiences, NoMemory>
    ensures { IfOk result (λ audiences. audiences ≡ (peer.now ∷ []) ∷ []) }
{
    let mut audiences = Audiences::new(alloc);
    audiences.push(just(alloc, peer)?)?;
    Ok(audiences)
}

/// The login of what is stated, with this issuer (SAML Profiles, 4.1.4.2).
///
/// # Errors
///
/// `NoMemory` alone.
pub fn stated_login(alloc: Global, issuer: &str, stated: &Statement<'_>) -> Result<Login, NoMemory>
    requires stated { CanBeStated (stated_view stated.now) }
    requires issuer { IsText issuer.now }
    ensures is { IfOk result (λ login. login ≡ spec.stated_login issuer.now (stated_view stated.now)) }
    ensures can { IfOk result CanBeMade }
{
    Ok(Login {
        id: stated.assertion.copy()?,
        issuer: Text::of(alloc, issuer)?,
        issued: stated.moment,
        audiences: audiences_of(alloc, stated.peer)?,
        recipient: stated.consumer.copy()?,
        request: stated.request.copy()?,
        confirm_until: stated.until,
        not_before: Some(stated.moment),
        not_on_or_after: Some(stated.until),
        name: stated.user.copy()?,
        index: Some(stated.index.copy()?),
        session_until: Some(stated.session_end),
        attributes: stated.attributes.copy()?,
    })
}
