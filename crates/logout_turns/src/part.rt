//! What a session was used for, and who asks for its end.
ghost use Rattle.std.specs.Prelude.{◌≡◌, IfOk, option_copied};

use owned_values::{NoMemory, Text, copy_if_any};

/// A provider to which an Assertion was issued in a session (a session participant; SAML Profiles, 4.4.1).
#[derive(Debug, Drop)]
pub struct Part {
    /// The entity of the provider.
    pub peer: Text,
    /// The name of the user, as it was told to the provider.
    pub name: Text,
    /// The index of the session, as it was told to the provider (SAML Core, 2.7.2).
    pub index: Text,
}

/// A provider that asks for a logout, and waits for an answer (SAML Core, 3.7.1).
#[derive(Debug, Drop)]
pub struct Asker {
    /// The entity of the provider.
    pub peer: Text,
    /// The ID of its request.
    pub request: Text,
    /// The relay state of its request, where it has one (SAML Bindings, 3.5.3).
    pub relay: Option<Text>,
}

/// A copy of a provider that asks, where one does.
pub fn copy_of_asker(asker: Option<&Asker>) -> Result<Option<Asker>, NoMemory>
    ensures { IfOk result (λ copy. copy ≡ option_copied asker.entry) }
{
    let Some(asker) = asker else {
        return Ok(None);
    };
    Ok(Some(Asker {
        peer: asker.peer.copy()?,
        request: asker.request.copy()?,
        relay: copy_if_any(&asker.relay)?,
    }))
}
