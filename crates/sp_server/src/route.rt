//! Which requests are served.
ghost use Rattle.std.specs.Prelude.{◌≡◌};
ghost use Rattle.http_wire.specs.Views.{request_view};
ghost use Rattle.sp_server.specs.Routes as spec;

use access_policy::{are_path_bytes, is_app};
use http_wire::{HttpRequest, Method};
use service_routes::{Route, common_at, route_to};

/// A service of a service provider.
#[derive(Clone, Copy, Debug, PartialEq, Eq)]
pub enum Service {
    /// A page of the application.
    App,
    /// The address to which responses are posted (SAML Metadata, 2.4.4, AssertionConsumerService).
    Consumer,
    /// The metadata of the provider.
    Metadata,
    /// Where a user leaves (SAML Profiles, 4.4.3.1).
    Logout,
    /// The address to which messages of a logout are posted (SAML Metadata, 2.4.2, SingleLogoutService).
    SingleLogout,
    /// Where a proxy asks who a request comes from.
    Guard,
}

/// The longest path to which a user can be sent back, in bytes.
const LONGEST_TARGET: usize = 256;

/// Whether a user can be sent back to a path.
pub(crate) fn is_target(path: &str) -> bool
    ensures { result ≡ spec.is_target path.now }
{
    path.len() <= LONGEST_TARGET && are_path_bytes(path.as_bytes())
}

/// Whether a path is one behind `/auth`.
fn is_guarded(path: &str) -> bool
    ensures { result ≡ spec.is_guarded path.now }
{
    path.starts_with("/auth/")
}

/// The service of a path, and the method that it takes.
fn service_at(path: &str) -> Option<(Method, Service)>
    ensures { result ≡ spec.service_at path.now }
{
    if is_app(path.as_bytes()) {
        Some((Method::Get, Service::App))
    } else if path == "/acs" {
        Some((Method::Post, Service::Consumer))
    } else {
        common_at(
            path,
            Service::Metadata,
            Service::Logout,
            Service::SingleLogout,
        )
    }
}

/// Where a request for a path goes that is one to which a user can be sent back, or not.
fn at_target(path: &str, route: Route<Service>) -> Route<Service>
    ensures { result ≡ spec.at_target path.now route }
{
    match route {
        Route::To(Service::App) if !is_target(path) => Route::Refused(404),
        route => route,
    }
}

/// Where a request goes.
pub(crate) fn route_of(request: &HttpRequest<'_>) -> Route<Service>
    ensures { result ≡ spec.route (request_view request.now) }
{
    if is_guarded(request.path) {
        return Route::To(Service::Guard);
    }
    at_target(request.path, route_to(request, service_at(request.path)))
}
