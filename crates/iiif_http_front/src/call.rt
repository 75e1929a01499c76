//! Calls.

use crate::method::Method;

/// A request, as far as its head tells: the request line, and whether the connection closes. No other field changes an answer.
#[derive(Drop)]
pub struct Call {
    /// Method (RFC 9110, section 9).
    pub method: Method,
    /// Request target, as the request line spells it (RFC 9112, section 3.2).
    pub target: Vec<u8>,
    /// Whether the connection closes after the answer (RFC 9112, section 9.3).
    pub close: bool,
}
