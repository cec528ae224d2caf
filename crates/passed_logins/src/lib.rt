//! Where the logins come from that a hub passes on. If only the provider above makes HMACs that match for what it
//! signed, and only the hub for what it signs, and no hash collides, each session that a provider below opens has the
//! name and the attributes of a login that the provider above recorded for the hub, or of a record that the hub had at
//! the start (SAML Core, 3.4.1.5; SAML Profiles, 4.1.4.5).
//!
//! To those below a hub is an identity provider, and what it signs for a record is what an identity provider signs for an issued
//! one: so what `recorded_logins` says of these holds here. Each function does nothing: what it ensures is a law of the
//! definitions in `specs/Passed.antt`. That a login was sent is not said.
//!
//! # What is proved
//!
//! Laws on the logins that a hub passes on, under the premises that no HMAC is forged and no hash collides: a session of a
//! provider below is that of a login which the hub passed on, to this provider, its address and in its time
//! (`a_session_below_was_passed_on`); a login that is passed on is one that the provider above recorded for the hub
//! (`a_login_that_is_passed_on_was_recorded`); and over both hops a session below has the name and the attributes of such a
//! login, or of a record that the hub had at the start (`a_session_below_is_of_a_login_above`).
#![tactic(auto)]

ghost use Rattle.passed_logins.specs.Passed.{ALoginThatIsPassedOnWasRecorded, ASessionBelowIsOfALoginAbove, ASessionBelowWasPassedOn};

/// A session that a provider below opens is that of a login which the hub passed on to it, where nobody but the hub makes HMACs
/// that match for what it signed for these records, and no hash collides.
pub fn a_session_below_was_passed_on()
    ensures { ASessionBelowWasPassedOn }
{
    recorded_logins::a_session_that_is_opened_was_recorded();
}

/// A login that a hub passes on is one that the provider above recorded for it, where nobody else makes HMACs that match for
/// what that signed, and no hash collides.
pub fn a_login_that_is_passed_on_was_recorded()
    ensures { ALoginThatIsPassedOnWasRecorded }
{
    identity_hub::laws::a_login_is_passed_on_exactly();
    recorded_logins::a_session_that_is_opened_was_recorded();
    sp_rules::laws::each_form_is_judged();
    sp_rules::laws::a_form_has_one_verdict();
}

/// Over both hops: a session that a provider below opens has the name and the attributes of a login that the provider above
/// recorded for the hub, or of a record that the hub had at the start.
pub fn a_session_below_is_of_a_login_above()
    ensures { ASessionBelowIsOfALoginAbove }
{
    a_session_below_was_passed_on();
    a_login_that_is_passed_on_was_recorded();
}
