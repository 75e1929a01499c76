//! The fields of a request: whether they announce a body or close the connection.

ghost use Rattle.std.specs.Prelude.{◌≡◌, ◌≤◌, ◌==◌, ◌||◌, All, map, length};
ghost use Rattle.std.specs.List.{list_any};
ghost use Rattle.httparse.specs.Grammar.{is_ows, trim_ows};
ghost use Rattle.httparse.specs.Spans.{IsHeaderWithin, header_bytes};
ghost use Rattle.iiif_http_front.specs.RequestHeads.{is_same_word, is_body_field, has_close, is_close_field};

use httparse::spans::HeaderSpan;

/// Returns whether two texts are equal but for the case of ASCII letters.
fn is_same_word(a: &[u8], b: &[u8]) -> bool
    ensures { result ≡ is_same_word a.now b.now }
{
    a.eq_ignore_ascii_case(b)
}

/// Returns whether a byte is optional white space (RFC 9110, section 5.6.3).
fn is_space_or_tab(byte: u8) -> bool
    ensures { result ≡ is_ows byte }
{
    byte == b' ' || byte == b'\t'
}

/// Strips spaces and tabs from both ends.
fn trimmed(bytes: &[u8]) -> &[u8]
    ensures { result.now ≡ trim_ows bytes.now }
{
    let mut start = 0;
    let mut end = bytes.len();
    while start < end && is_space_or_tab(bytes[start]) {
        start += 1;
    }
    while start < end && is_space_or_tab(bytes[end - 1]) {
        end -= 1;
    }
    &bytes[start..end]
}

/// Returns whether a list of connection options has `close`.
fn has_close(value: &[u8]) -> bool
    ensures { result ≡ has_close value.now }
{
    value
        .split(|byte| *byte == b',')
        .any(|option| is_same_word(trimmed(option), b"close"))
}

/// Returns whether a field announces a body (RFC 9112, section 6).
fn is_body_field(name: &[u8], value: &[u8]) -> bool
    ensures { result ≡ is_body_field (name.now, value.now) }
{
    is_same_word(name, b"Transfer-Encoding")
        || (is_same_word(name, b"Content-Length") && value != b"0".as_slice())
}

/// Returns whether a field asks to close the connection (RFC 9112, section 9.6).
fn is_close_field(name: &[u8], value: &[u8]) -> bool
    ensures { result ≡ is_close_field (name.now, value.now) }
{
    is_same_word(name, b"Connection") && has_close(value)
}

/// Returns whether a field of the head announces a body.
pub fn announce_body(bytes: &[u8], headers: &[HeaderSpan]) -> bool
    requires { All (IsHeaderWithin (length bytes.now)) headers.now }
    ensures { result ≡ list_any is_body_field (map (header_bytes bytes.now) headers.now) }
{
    for header in headers {
        if is_body_field(header.name.of(bytes), header.value.of(bytes)) {
            return true;
        }
    }
    false
}

/// Returns whether the connection closes after the answer: in HTTP/1.0 always, else where a field asks for it.
pub fn close_connection(minor: u8, bytes: &[u8], headers: &[HeaderSpan]) -> bool
    requires { All (IsHeaderWithin (length bytes.now)) headers.now }
    ensures { result ≡ (minor == 0 || list_any is_close_field (map (header_bytes bytes.now) headers.now)) }
{
    if minor == 0 {
        return true;
    }
    for header in headers {
        if is_close_field(header.name.of(bytes), header.value.of(bytes)) {
            return true;
        }
    }
    false
}
