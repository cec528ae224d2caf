//! Methods of requests.
ghost use Rattle.std.specs.Prelude.{◌≡◌};
ghost use Rattle.http_wire.specs.Heads.{method_of};

/// The method of a request, as far as it is told apart (RFC 9110, 9). Methods are compared with case.
#[derive(Clone, Copy, Debug, PartialEq, Eq)]
pub enum Method {
    /// `GET`
    Get,
    /// `POST`
    Post,
    /// Any other.
    Other,
}

/// The method of this name.
pub(crate) fn method_of(name: &[u8]) -> Method
    ensures { result ≡ method_of name.now }
{
    if name == b"GET".as_slice() {
        Method::Get
    } else if name == b"POST".as_slice() {
        Method::Post
    } else {
        Method::Other
    }
}
