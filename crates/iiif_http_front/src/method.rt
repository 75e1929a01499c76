//! Methods of requests.

use crate::heads::NoMemory;
use crate::other_method::OtherMethod;
use std::alloc::Global;

/// A method (RFC 9110, section 9). Names of methods are compared with case.
#[derive(Drop)]
pub enum Method {
    /// `GET` (RFC 9110, section 9.3.1).
    Get,
    /// `HEAD` (RFC 9110, section 9.3.2).
    Head,
    /// Any other method, by its name.
    Other(OtherMethod),
}

impl Method {
    ghost use Rattle.std.specs.Prelude.{◌≡◌, IfOk};
    ghost use Rattle.httparse.specs.Grammar.{IsToken};
    ghost use Rattle.iiif_http_front.specs.Methods.{method_text};

    /// Finds the method of a name. The only error is lack of memory.
    pub fn from_bytes(alloc: Global, name: &[u8]) -> Result<Method, NoMemory>
        requires token { IsToken name.now }
        ensures { IfOk result (λ method. method_text method ≡ name.now) }
    {
        // `http` refuses no token, so it fails for lack of memory alone.
        match http::Method::from_bytes(alloc, name) {
            Ok(method) => Method::from_http(alloc, &method),
            Err(_) => Err(NoMemory),
        }
    }

    /// Converts a method of the crate `http`, which clauses see as its name.
    fn from_http(alloc: Global, method: &http::Method) -> Result<Method, NoMemory>
        ensures { IfOk result (λ own. method_text own ≡ method.now) }
    {
        let name = method.as_str();
        if name == "GET" {
            return Ok(Method::Get);
        }
        if name == "HEAD" {
            return Ok(Method::Head);
        }
        Ok(Method::Other(OtherMethod {
            name: Vec::from_slice(alloc, name.as_bytes())?,
        }))
    }

    /// Returns the method's name.
    pub fn as_bytes(&self) -> &[u8]
        ensures { result.now ≡ method_text self.now }
    {
        match self {
            Method::Get => b"GET",
            Method::Head => b"HEAD",
            Method::Other(method) => method.name.as_slice(),
        }
    }
}
