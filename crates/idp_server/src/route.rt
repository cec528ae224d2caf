//! Which services an identity provider has.
ghost use Rattle.std.specs.Prelude.{◌≡◌};
ghost use Rattle.idp_server.specs.Routes as spec;

use http_wire::Method;
use service_routes::common_at;

/// A service of an identity provider.
#[derive(Clone, Copy, Debug, PartialEq, Eq)]
pub enum Service {
    /// The address to which requests for a login are posted (SAML Metadata, 2.4.3, SingleSignOnService).
    SignOn,
    /// The address to which the page of a pending login is posted.
    Login,
    /// The metadata of the provider.
    Metadata,
    /// The address to which a user posts who leaves (SAML Profiles, 4.4.3.1).
    Logout,
    /// The address to which messages of a logout are posted (SAML Metadata, 2.4.2, SingleLogoutService).
    SingleLogout,
}

/// The service of a path, and the method that it takes.
pub(crate) fn service_at(path: &str) -> Option<(Method, Service)>
    ensures { result ≡ spec.service_at path.now }
{
    use Service::{Login, Logout, Metadata, SignOn, SingleLogout};

    if path == "/sso" {
        return Some((Method::Post, SignOn));
    }
    if path == "/login" {
        return Some((Method::Post, Login));
    }
    common_at(path, Metadata, Logout, SingleLogout)
}
