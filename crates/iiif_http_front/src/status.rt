//! Statuses of answers.

use http::StatusCode;

/// A status that the server answers (RFC 9110, section 15).
#[derive(Clone, Copy, Debug, PartialEq, Eq)]
pub enum Status {
    /// 200: the answer is what was asked for.
    Ok,
    /// 303: the answer stands at another URI.
    SeeOther,
    /// 400: the request is malformed.
    BadRequest,
    /// 404: nothing stands at the target.
    NotFound,
    /// 405: the target has no such method.
    MethodNotAllowed,
    /// 500: the server lacks memory, or can't read the image.
    InternalServerError,
    /// 501: the server lacks the feature that was asked for.
    NotImplemented,
    /// 503: a part of the server has stopped.
    ServiceUnavailable,
}

impl Status {
    ghost use Rattle.std.specs.Prelude.{◌≡◌, [], IfSome, IfNone};
    ghost use Rattle.iiif_http_front.specs.Statuses.{code_of, reason_phrase};

    /// Returns the status's number.
    pub const fn code(self) -> u16
        ensures { result ≡ code_of self }
    {
        match self {
            Status::Ok => 200,
            Status::SeeOther => 303,
            Status::BadRequest => 400,
            Status::NotFound => 404,
            Status::MethodNotAllowed => 405,
            Status::InternalServerError => 500,
            Status::NotImplemented => 501,
            Status::ServiceUnavailable => 503,
        }
    }

    /// Finds the status of a number. `None` where the server has no such status.
    pub const fn from_code(code: u16) -> Option<Status>
        ensures some { IfSome result (λ status. code_of status ≡ code) }
        ensures none { IfNone result (reason_phrase code ≡ []) }
    {
        match code {
            200 => Some(Status::Ok),
            303 => Some(Status::SeeOther),
            400 => Some(Status::BadRequest),
            404 => Some(Status::NotFound),
            405 => Some(Status::MethodNotAllowed),
            500 => Some(Status::InternalServerError),
            501 => Some(Status::NotImplemented),
            503 => Some(Status::ServiceUnavailable),
            _ => None,
        }
    }

    /// Returns the registered phrase, which the crate `http` has.
    #[tactic(auto, using(crate::proofs::StatusLemmas::same_phrase, crate::proofs::StatusLemmas::has_three_digits))]
    pub(crate) fn reason(self) -> &'static str
        ensures { result.now ≡ reason_phrase (code_of self) }
    {
        let Ok(code) = StatusCode::from_u16(self.code()) else {
            return "";
        };
        match code.canonical_reason() {
            Some(reason) => reason,
            None => "",
        }
    }
}
