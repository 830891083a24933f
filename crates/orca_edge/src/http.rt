//! How a request of HTTP begins, which no player sends.

ghost use Rattle.std.specs.Prelude.{◌≡◌};
ghost use Rattle.orca_edge.specs.Http.{begins_as_http, begins_with_target, is_sent_by};

/// Whether bytes begin as a request of HTTP does: with one of its methods, a blank, and a target
/// (RFC 9110, 9.1; RFC 9112, 3). Bytes that end before that can be told do not.
pub fn begins_as_http(bytes: &[u8]) -> bool
    ensures { result ≡ begins_as_http bytes.now }
{
    is_sent_by(bytes, b"GET ")
        || is_sent_by(bytes, b"HEAD ")
        || is_sent_by(bytes, b"POST ")
        || is_sent_by(bytes, b"PUT ")
        || is_sent_by(bytes, b"DELETE ")
        || is_sent_by(bytes, b"CONNECT ")
        || is_sent_by(bytes, b"OPTIONS ")
        || is_sent_by(bytes, b"TRACE ")
        || is_sent_by(bytes, b"PATCH ")
}

/// Whether bytes begin with this method and its blank, and then with a target.
fn is_sent_by(bytes: &[u8], method: &[u8]) -> bool
    ensures { result ≡ is_sent_by bytes.now method.now }
{
    bytes.starts_with(method) && begins_with_target(&bytes[method.len()..])
}

/// Whether bytes begin as the target of a request does: a path, a star, or an address of the web.
fn begins_with_target(bytes: &[u8]) -> bool
    ensures { result ≡ begins_with_target bytes.now }
{
    bytes.starts_with(b"/") || bytes.starts_with(b"*") || bytes.starts_with(b"http")
}
