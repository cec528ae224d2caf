// Whether a message is meant for this provider, here and now.

ghost use Rattle.std.specs.Prelude.{◌≡◌, ◌≤◌, OnOk, IfErr, None, Some};
ghost use Rattle.logout_profile.specs.Verdict.{is_sent_to, is_in_time, message_refusal};

use crate::message::Message;
use owned_values::Text;
use saml_time::LAST;
use verdict_codes::Verdict;

/// Whether a Destination stands and is this address (SAML Bindings, 3.5.5.2).
fn is_sent_to(address: &str, destination: &Option<Text>) -> bool
    ensures { result ≡ is_sent_to address.now destination.now }
{
    match destination {
        Some(destination) => destination.as_str() == address,
        None => false,
    }
}

/// Whether now is before the moment, where there is one, by the clock of another provider (SAML Core, 3.7.1).
fn is_in_time(skew: u64, now: u64, until: Option<u64>) -> bool
    requires { now ≤ LAST }
    ensures { result ≡ is_in_time skew now until }
{
    match until {
        Some(until) => now < until.saturating_add(skew),
        None => true,
    }
}

/// Asks that a message is meant for the provider at this address, now.
///
/// # Errors
///
/// `LogoutDestination`, exactly where it is sent to another address or to none; else `LogoutNotInTime`, exactly where it has expired.
pub(crate) fn ask_meant(
    address: &str,
    skew: u64,
    now: u64,
    message: &Message,
) -> Result<(), Verdict>
    requires { now ≤ LAST }
    ensures ok { OnOk result (message_refusal address.now skew now message.now ≡ None) }
    ensures err { IfErr result (λ verdict. message_refusal address.now skew now message.now ≡ Some verdict) }
{
    if !is_sent_to(address, message.destination()) {
        return Err(Verdict::LogoutDestination);
    }
    if !is_in_time(skew, now, message.until()) {
        return Err(Verdict::LogoutNotInTime);
    }
    Ok(())
}
