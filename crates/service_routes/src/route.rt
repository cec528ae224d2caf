//! Routes.
ghost use Rattle.std.specs.Prelude.{◌≡◌};
ghost use Rattle.std.specs.Option.{option_map};
ghost use Rattle.http_wire.specs.Views.{request_view};
ghost use Rattle.service_routes.specs.Routes as spec;
ghost use Rattle.service_routes.specs.Routes.{IsAnswered, checked};

use http_wire::{HttpRequest, Method, is_form_type};

/// Where a request goes.
#[derive(Clone, Copy, Debug, PartialEq, Eq)]
pub enum Route<S> {
    /// To this service.
    To(S),
    /// Nowhere: this status is answered in its place.
    Refused(u16),
}

/// The service at a path that both providers have, and the method that it takes: the metadata (SAML Metadata, 4.1.1), where
/// a user leaves (SAML Profiles, 4.4.3.1), and the address to which messages of a logout are posted (SAML Metadata, 2.4.2,
/// SingleLogoutService).
pub fn common_at<S: Copy>(
    path: &str,
    metadata: S,
    logout: S,
    single_logout: S,
) -> Option<(Method, S)>
    ensures { result ≡ spec.common_at metadata logout single_logout path.now }
{
    if path == "/metadata" {
        Some((Method::Get, metadata))
    } else if path == "/logout" {
        Some((Method::Post, logout))
    } else if path == "/slo" {
        Some((Method::Post, single_logout))
    } else {
        None
    }
}

/// Whether a request has the method that a service takes.
fn is_method(takes: Method, method: Method) -> bool
    ensures { result ≡ spec.is_method takes method }
{
    match takes {
        Method::Get => method == Method::Get,
        Method::Post => method == Method::Post,
        Method::Other => false,
    }
}

/// Whether a form is posted, where a service takes one.
fn is_typed(takes: Method, content_type: Option<&str>) -> bool
    ensures { result ≡ spec.is_typed takes (option_map (λ text. text.now) content_type.entry) }
{
    match takes {
        Method::Post => content_type.is_some_and(|content_type| is_form_type(content_type)),
        _ => true,
    }
}

/// Where a request goes whose path is that of this service, which takes this method; or is that of none.
pub fn route_to<S: Copy>(request: &HttpRequest<'_>, service: Option<(Method, S)>) -> Route<S>
    ensures routed { result ≡ checked (request_view request.now) service }
    ensures answered { IsAnswered result }
{
    let Some((takes, service)) = service else {
        return Route::Refused(404);
    };
    if !is_method(takes, request.method) {
        return Route::Refused(405);
    }
    if !is_typed(takes, request.content_type) {
        return Route::Refused(415);
    }
    Route::To(service)
}
