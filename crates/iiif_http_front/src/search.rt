//! The search for a call in the buffer.

ghost use Rattle.std.specs.Prelude.{◌≡◌, ◌≤◌, ◌==◌, ◌||◌, ◌&&◌, cond, not, length};
ghost use Rattle.std.specs.List.{list_any};
ghost use Rattle.iiif_http_front.specs.Code.{Finds};
ghost use Rattle.iiif_http_front.specs.Reading.{whole_lines};

use crate::call::Call;
use crate::fields::{announce_body, close_connection};
use crate::head_fault::HeadFault;
use crate::method::Method;
use httparse::Status;
use httparse::spans::{EMPTY_HEADER_SPAN, parse_request};
use std::alloc::Global;

/// A result of the search.
#[derive(Drop)]
pub enum Found {
    /// A call, and the length of its head in bytes.
    Whole(Call, usize),
    /// No whole head yet.
    Partial,
}

/// Returns whether a head has begun, with this byte or before it.
fn has_begun(begun: bool, byte: u8) -> bool
    ensures { result ≡ (begun || not (byte == 13 || byte == 10)) }
{
    begun || !(byte == b'\r' || byte == b'\n')
}

/// Counts the lines of a head, none or one, that end with this byte.
fn ended_lines(begun: bool, byte: u8) -> usize
    ensures { result ≡ cond (begun && byte == 10) 1 0 }
{
    usize::from(begun && byte == b'\n')
}

/// Counts the lines of a head that are whole, without the empty lines before it.
#[tactic(auto, using(crate::proofs::LineLemmas::none_begun))]
fn whole_lines(bytes: &[u8]) -> usize
    ensures { result ≡ whole_lines bytes.now }
{
    let mut begun = false;
    let mut lines = 0;
    for byte in bytes {
        lines += ended_lines(begun, *byte);
        begun = has_begun(begun, *byte);
    }
    lines
}

/// Returns whether a line ends in these bytes.
pub fn has_line_feed(bytes: &[u8]) -> bool
    ensures { result ≡ list_any (λ b. b == 10) bytes.now }
{
    bytes.contains(&b'\n')
}

/// Looks for a call at the front of the bytes.
pub fn find_call(alloc: Global, bytes: &[u8]) -> Result<Found, HeadFault>
    requires { length bytes.now ≤ 8192 }
    ensures { Finds bytes.now result }
{
    let mut headers = [EMPTY_HEADER_SPAN; 64];
    match parse_request(bytes, &mut headers) {
        Ok(Status::Complete(head)) => {
            let fields = &headers[..head.headers];
            if announce_body(bytes, fields) {
                return Err(HeadFault::Bad);
            }
            let close = close_connection(head.version, bytes, fields);
            let Ok(method) = Method::from_bytes(alloc, head.method.of(bytes)) else {
                return Err(HeadFault::NoMemory);
            };
            let Ok(target) = Vec::from_slice(alloc, head.path.of(bytes)) else {
                return Err(HeadFault::NoMemory);
            };
            let call = Call {
                method,
                target,
                close,
            };
            Ok(Found::Whole(call, head.len))
        }
        // More fields than the parser has room for. It refuses them only in a whole head.
        Ok(Status::Partial) if whole_lines(bytes) > 65 => Err(HeadFault::Bad),
        Ok(Status::Partial) => Ok(Found::Partial),
        Err(_) => Err(HeadFault::Bad),
    }
}
