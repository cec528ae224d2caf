//! Where a request goes: to the service at its path, or a status is answered in its place (RFC 9110, 15.5).
//!
//! ```
//! match route_to(&request, service_at(request.path)) {
//!     Route::To(service) => { /* reply */ }
//!     Route::Refused(status) => { /* 404, 405 or 415 */ }
//! }
//! ```
//!
//! Which services a provider has, at which paths and by which methods, its role says.
//!
//! # What is proved
//!
//! `common_at`: the services that both providers have at one path each (`common_at` of `Routes.antt`).
//! `route_to`: 404 exactly where there is no service, 405 where the request has another method than the service takes,
//! 415 where the service takes a form and something else is posted, else the service (`routed`: `checked` of
//! `Routes.antt`). Each of the three has an answer that stands alone (`answered`).
#![tactic(auto)]

mod route;

pub use route::{Route, common_at, route_to};
