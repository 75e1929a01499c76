//! Base URLs.

ghost use Rattle.std.specs.Prelude.{◌≡◌, option_map, position};
ghost use Rattle.iiif_answers.specs.BaseUrl.{is_authority, is_base_url, is_hierarchy, is_host, is_host_byte, is_path, is_port, is_segment};
ghost use Rattle.iiif_answers.specs.BaseUrl.{is_slash, behind_scheme, path_of, path_in};
ghost use Rattle.iiif_canonical.specs.Escapes.{is_unreserved};

use iiif_request::numerals::numeral;

/// Whether a text is one to five digits that write a port.
#[tactic(auto, unfolding(crate::specs::BaseUrl::is_port))]
fn is_port(text: &str) -> bool
    ensures { result ≡ is_port text.now }
{
    match numeral(text.as_bytes(), 5) {
        Some(port) => port <= 65535,
        None => false,
    }
}

/// Whether a character may stand in a host's name.
fn is_host_byte(b: &u8) -> bool
    ensures { result ≡ is_host_byte b.now }
{
    b.is_ascii_alphanumeric() || *b == b'-' || *b == b'.'
}

/// Whether a text is a host's name or address.
#[tactic(auto, unfolding(crate::specs::BaseUrl::is_host))]
fn is_host(text: &[u8]) -> bool
    ensures { result ≡ is_host text.now }
{
    0 < text.len() && text.iter().all(is_host_byte)
}

/// Whether a text is a host, perhaps with a port.
#[tactic(auto, unfolding(crate::specs::BaseUrl::is_authority))]
fn is_authority(text: &str) -> bool
    ensures { result ≡ is_authority text.now }
{
    match text.split_once(':') {
        Some((host, port)) => is_host(host.as_bytes()) && is_port(port),
        None => is_host(text.as_bytes()),
    }
}

/// Whether a character needs no escape in a path.
fn is_unreserved(b: &u8) -> bool
    ensures { result ≡ is_unreserved b.now }
{
    b.is_ascii_alphanumeric() || *b == b'-' || *b == b'.' || *b == b'_' || *b == b'~'
}

/// Whether a text is a segment of a path.
#[tactic(auto, unfolding(crate::specs::BaseUrl::is_segment))]
fn is_segment(text: &[u8]) -> bool
    ensures { result ≡ is_segment text.now }
{
    0 < text.len() && text.iter().all(is_unreserved)
}

/// Whether a text is segments with slashes between them.
fn is_path(text: &[u8]) -> bool
    ensures { result ≡ is_path text.now }
{
    text.split(|b| *b == b'/').all(is_segment)
}

/// Whether a text is a host, perhaps a port, and a path.
#[tactic(auto, unfolding(crate::specs::BaseUrl::is_hierarchy))]
fn is_hierarchy(rest: &str) -> bool
    ensures { result ≡ is_hierarchy rest.now }
{
    match rest.split_once('/') {
        Some((authority, path)) => is_authority(authority) && is_path(path.as_bytes()),
        None => is_authority(rest),
    }
}

/// Returns the part behind the scheme.
#[tactic(auto, unfolding(crate::specs::BaseUrl::behind_scheme))]
fn behind_scheme(url: &str) -> Option<&str>
    ensures { option_map (λ s. s.now) result ≡ behind_scheme url.now }
{
    match url.strip_prefix("http://") {
        Some(rest) => Some(rest),
        None => url.strip_prefix("https://"),
    }
}

/// Whether a text is a base URL.
#[tactic(auto, unfolding(crate::specs::BaseUrl::is_base_url))]
pub fn is_base_url(url: &str) -> bool
    ensures { result ≡ is_base_url url.now }
{
    match behind_scheme(url) {
        Some(rest) => is_hierarchy(rest),
        None => false,
    }
}

/// The place of the first slash.
fn slash_at(text: &[u8]) -> Option<usize>
    ensures { result ≡ position is_slash text.now }
{
    text.iter().position(|b| *b == b'/')
}

/// The path behind a host, from the first slash on.
fn path_in(rest: &[u8]) -> &[u8]
    ensures { result.now ≡ path_in rest.now }
{
    match slash_at(rest) {
        Some(at) => {
            let (_, path) = rest.split_at(at);
            path
        }
        None => &[],
    }
}

/// The path of a base URL.
#[tactic(auto, unfolding(crate::specs::BaseUrl::path_of))]
pub(crate) fn path_of(url: &str) -> &[u8]
    ensures { result.now ≡ path_of url.now }
{
    match behind_scheme(url) {
        Some(rest) => path_in(rest.as_bytes()),
        None => &[],
    }
}
