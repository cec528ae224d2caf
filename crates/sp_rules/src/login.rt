// Whether a login is meant for this provider, and answers a request that waits for it (SAML Profiles, 4.1.4.2 and 4.1.4.3).

ghost use Rattle.std.specs.Prelude.{◌≡◌, ◌≤◌, IfOk, option_copied};
ghost use Rattle.sp_rules.specs.Meant.{consumer, is_if_any, is_from, names_provider, is_for, is_destination, is_sent_to, is_before_with, is_from_with, is_in_time};
ghost use Rattle.sp_rules.specs.Outstanding.{is_outstanding, is_unspent, is_unseen, is_relayed};

use crate::config::SpConfig;
use assertion_model::Login;
use owned_values::{NoMemory, Text, Texts};
use protocol_messages::ResponseHead;
use request_rows::{AskedRow, Rows};
use saml_time::{GREATEST_SKEW, LAST};
use std::alloc::Global;

/// The path below a provider's base to which responses go.
const CONSUMER_PATH: &str = "/acs";

/// The address to which Responses to a service provider go: its base with `/acs` behind it (SAML Metadata, 2.4.4).
///
/// # Errors
///
/// Want of memory alone.
pub fn consumer_address(alloc: Global, config: &SpConfig) -> Result<Text, NoMemory>
    ensures { IfOk result (λ address. address ≡ consumer config.now) }
{
    let mut address = Text::of(alloc, config.base.as_str())?;
    address.push(CONSUMER_PATH)?;
    Ok(address)
}

/// Whether the text is this one, where it stands.
fn is_if_any(wanted: &Text, text: &Option<Text>) -> bool
    ensures { result ≡ is_if_any wanted.now text.now }
{
    match text {
        Some(text) => text.as_str() == wanted.as_str(),
        None => true,
    }
}

/// Whether the identity provider issued the Assertion, and the Response where it names an Issuer.
pub(crate) fn is_from(config: &SpConfig, head: &ResponseHead, login: &Login) -> bool
    ensures { result ≡ is_from config.now head.now login.now }
{
    login.issuer.as_str() == config.idp.entity.as_str()
        && is_if_any(&config.idp.entity, &head.issuer)
}

/// Whether one of the audiences is this provider (SAML Core, 2.5.1.4).
fn names_provider(config: &SpConfig, audiences: &Texts) -> bool
    ensures { result ≡ names_provider config.now audiences.now }
{
    let entity = config.entity.as_str();
    for audience in audiences.as_slice() {
        if audience.as_str() == entity {
            return true;
        }
    }
    false
}

/// Whether there is an AudienceRestriction, and each includes this provider.
pub(crate) fn is_for(config: &SpConfig, login: &Login) -> bool
    ensures { result ≡ is_for config.now login.now }
{
    for audiences in login.audiences.as_slice() {
        if !names_provider(config, audiences) {
            return false;
        }
    }
    !login.audiences.is_empty()
}

/// Whether the Destination of a Response is this address; a signed Response has to name it (SAML Bindings, 3.5.5.2).
fn is_destination(address: &str, head: &ResponseHead) -> bool
    ensures { result ≡ is_destination address.now head.now.has_signature head.now.destination }
{
    match &head.destination {
        Some(destination) => {
            if destination.is_empty() {
                !head.has_signature
            } else {
                destination.as_str() == address
            }
        }
        None => !head.has_signature,
    }
}

/// Whether the Assertion and the Response were sent to this address.
pub(crate) fn is_sent_to(address: &str, head: &ResponseHead, login: &Login) -> bool
    ensures { result ≡ is_sent_to address.now head.now login.now }
{
    login.recipient.as_str() == address && is_destination(address, head)
}

/// Whether now is before the moment, where there is one, by the clock of another provider.
fn is_before_with(skew: u64, now: u64, end: Option<u64>) -> bool
    requires { now ≤ LAST }
    ensures { result ≡ is_before_with skew now end }
{
    match end {
        Some(end) => now < end.saturating_add(skew),
        None => true,
    }
}

/// Whether now is at or behind the moment, where there is one, by the clock of another provider.
fn is_from_with(skew: u64, now: u64, start: Option<u64>) -> bool
    requires now { now ≤ LAST }
    requires skew { skew ≤ GREATEST_SKEW }
    ensures { result ≡ is_from_with skew now start }
{
    match start {
        Some(start) => start <= now + skew,
        None => true,
    }
}

/// Whether the Assertion is valid now, may still be presented, and its session has not ended.
pub(crate) fn is_in_time(config: &SpConfig, now: u64, login: &Login) -> bool
    requires now { now ≤ LAST }
    requires skew { config.now.skew ≤ GREATEST_SKEW }
    ensures { result ≡ is_in_time config.now now login.now }
{
    is_from_with(config.skew, now, login.not_before)
        && is_before_with(config.skew, now, login.not_on_or_after)
        && is_before_with(config.skew, now, Some(login.confirm_until))
        && is_before_with(0, now, login.session_until)
}

/// Whether the request is outstanding, and the Response says no other one.
pub(crate) fn is_outstanding(asked: Option<&AskedRow>, head: &ResponseHead, login: &Login) -> bool
    ensures { result ≡ is_outstanding (option_copied asked.entry) head.now login.now }
{
    asked.is_some() && is_if_any(&login.request, &head.request)
}

/// Whether no session was opened for the request.
pub(crate) fn is_unspent(rows: &Rows, login: &Login) -> bool
    ensures { result ≡ is_unspent rows.now login.now }
{
    !rows.is_spent(login.request.as_str())
}

/// Whether no session was opened by the Assertion, as long as it may be presented.
pub(crate) fn is_unseen(rows: &Rows, horizon: u64, now: u64, login: &Login) -> bool
    ensures { result ≡ is_unseen rows.now horizon now login.now }
{
    !rows.is_seen(login.issuer.as_str(), login.id.as_str(), now, horizon)
}

/// Whether the relay is the one that was given with the request.
pub(crate) fn is_relayed(asked: Option<&AskedRow>, relay: &Option<Text>) -> bool
    ensures { result ≡ is_relayed (option_copied asked.entry) relay.now }
{
    match (asked, relay) {
        (Some(asked), Some(relay)) => relay.as_str() == asked.relay.as_str(),
        _ => false,
    }
}
