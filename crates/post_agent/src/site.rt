// The two nodes that a user agent reaches.

ghost use Rattle.std.specs.Prelude.{◌≡◌, ◌++◌, codes};
ghost use Rattle.std.specs.Option.{option_map};
ghost use Rattle.post_agent.specs.Sites as spec;

use crate::cut::behind;

/// A node of a deployment: the service provider at `127.0.0.1:8081`, or the identity provider at `127.0.0.1:8080`.
#[derive(Clone, Copy, Debug, PartialEq, Eq)]
pub enum Site {
    /// The service provider.
    Sp,
    /// The identity provider.
    Idp,
}

/// The host and the port of a node.
pub(crate) fn host_of(site: Site) -> &'static str
    ensures { result.now ≡ spec.host_of site }
{
    match site {
        Site::Sp => "127.0.0.1:8081",
        Site::Idp => "127.0.0.1:8080",
    }
}

/// What each URL of a node begins with.
fn base_of(site: Site) -> &'static str
    ensures { result.now ≡ codes "http://" ++ spec.host_of site }
{
    match site {
        Site::Sp => "http://127.0.0.1:8081",
        Site::Idp => "http://127.0.0.1:8080",
    }
}

/// The path of a URL of this node; none where the URL is not its.
fn path_of(site: Site, url: &[u8]) -> Option<&[u8]>
    ensures { option_map (λ path. path.now) result ≡ spec.path_of site url.now }
{
    match behind(url, base_of(site).as_bytes()) {
        Some(path) if path.starts_with(b"/") => Some(path),
        _ => None,
    }
}

/// The node of a URL, and the path there; none where the URL is neither node's.
pub(crate) fn place_of(url: &[u8]) -> Option<(Site, &[u8])>
    ensures { option_map (λ place. (place.0, place.1.now)) result ≡ spec.place_of url.now }
{
    if let Some(path) = path_of(Site::Sp, url) {
        return Some((Site::Sp, path));
    }
    match path_of(Site::Idp, url) {
        Some(path) => Some((Site::Idp, path)),
        None => None,
    }
}
