//! Which services a hub has.
ghost use Rattle.std.specs.Prelude.{◌≡◌};
ghost use Rattle.identity_hub.specs.Routes as spec;

use http_wire::Method;
use metadata::Role;

/// A service of a hub.
#[derive(Clone, Copy, Debug, PartialEq, Eq)]
pub enum Service {
    /// The address to which providers below post requests for a login (SAML Metadata, 2.4.3, SingleSignOnService).
    SignOn,
    /// The address to which the provider above sends its responses (SAML Metadata, 2.4.4, AssertionConsumerService).
    Consumer,
    /// The metadata of the hub in a role: as those below see it, and as the one above does.
    Metadata(Role),
}

/// The service of a path, and the method that it takes.
pub(crate) fn service_at(path: &str) -> Option<(Method, Service)>
    ensures { result ≡ spec.service_at path.now }
{
    if path == "/sso" {
        Some((Method::Post, Service::SignOn))
    } else if path == "/acs" {
        Some((Method::Post, Service::Consumer))
    } else if path == "/metadata" {
        Some((Method::Get, Service::Metadata(Role::Idp)))
    } else if path == "/metadata/sp" {
        Some((Method::Get, Service::Metadata(Role::Sp)))
    } else {
        None
    }
}
