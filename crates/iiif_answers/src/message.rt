//! Answers as they are written.

ghost use Rattle.std.specs.Prelude.{◌≡◌, ℕ, Bool, List, true, false, map, IfOk, string_bytes};
ghost use Rattle.iiif_http_front.specs.AnswerHeads.{name_and_value};
ghost use Rattle.iiif_http_front.specs.Statuses.{code_of};
ghost use Rattle.iiif_request.specs.Refusals.{status_of};
ghost use Rattle.iiif_tile_group.specs.Collection.{Item};
ghost use Rattle.iiif_answers.specs.Allowed.{MayTell};
ghost use Rattle.iiif_answers.specs.Answers.{Replies};
ghost use Rattle.iiif_answers.specs.Outcomes.{ComesTo};
ghost use Rattle.iiif_answers.specs.Sent.{answer_of};
ghost use Rattle.iiif_answers.specs.declared.part.Part.TheVariants.{Whole};
ghost use Rattle.iiif_answers.specs.Responses.{Response, head_in, body_in, line, line_response, refusal_response, redirect_response};
ghost use Rattle.iiif_answers.specs.Responses.{information_response, information_uri, source_fault, want_of_memory, written};

use crate::config::Config;
use crate::outcome::Outcome;
use crate::part::Part;
use iiif_canonical::image_uri;
use iiif_http_front::{Field, Status, head_bytes};
use iiif_info::info;
use iiif_pixel::{Dim, NoMemory};
use iiif_request::Refusal;
use iiif_source::Source;
use std::alloc::{AllocError, Global};

const TEXT: Field<'static> = Field {
    name: "Content-Type",
    value: "text/plain",
};

const JSON_LD: Field<'static> = Field {
    name: "Content-Type",
    value: "application/ld+json;profile=\"http://iiif.io/api/image/3/context.json\"",
};

/// Pages of every origin may read an answer.
pub(crate) const ANY_ORIGIN: Field<'static> = Field {
    name: "Access-Control-Allow-Origin",
    value: "*",
};

const ALLOW: Field<'static> = Field {
    name: "Allow",
    value: "GET, HEAD",
};

/// An answer as it is written: its status, and the head and the body that are sent.
#[derive(Drop)]
pub struct Message {
    pub status: u16,
    pub head: Vec<u8>,
    pub body: Vec<u8>,
}

/// The head that is written with a part of an answer whose body has this length in bytes.
pub(crate) fn head_in(
    alloc: Global,
    part: Part,
    status: Status,
    fields: &[Field<'_>],
    length: u64,
) -> Result<Vec<u8>, NoMemory>
    ensures { IfOk result (λ head. head.items ≡ head_in part (code_of status) (map name_and_value fields.now) length) }
{
    match part {
        Part::Body => Ok(Vec::new(alloc)),
        Part::Whole { closes: close } => head_bytes(alloc, status, fields, length, close),
        Part::Head { closes: close } => head_bytes(alloc, status, fields, length, close),
    }
}

/// A line and a line feed.
fn line_bytes(alloc: Global, text: &str) -> Result<Vec<u8>, NoMemory>
    ensures { IfOk result (λ bytes. bytes.items ≡ line text.now) }
{
    let mut bytes = Vec::new(alloc);
    bytes.extend_from_slice(text.as_bytes())?;
    bytes.push(b'\n')?;
    Ok(bytes)
}

/// The body that is written, of one that is there.
fn body_in(alloc: Global, part: Part, body: Vec<u8>) -> Vec<u8>
    ensures { result.items ≡ body_in part body.items }
{
    match part {
        Part::Body | Part::Whole { .. } => body,
        Part::Head { .. } => Vec::new(alloc),
    }
}

/// An answer of a status, with fields and a body.
fn make_message(
    alloc: Global,
    part: Part,
    status: Status,
    fields: &[Field<'_>],
    body: Vec<u8>,
) -> Result<Message, NoMemory>
    ensures { IfOk result (λ m. answer_of m ≡ written part
        (record { status = code_of status; fields = map name_and_value fields.now; body = body.items })) }
{
    let head = head_in(alloc, part, status, fields, body.len() as u64)?;
    Ok(Message {
        status: status.code(),
        head,
        body: body_in(alloc, part, body),
    })
}

/// Returns the status of a refusal's answer.
fn status_code(refusal: Refusal) -> Status
    ensures { code_of result ≡ status_of refusal }
{
    match Status::from_code(refusal.status()) {
        Some(status) => status,
        None => Status::BadRequest,
    }
}

/// The answer to a refused call.
pub fn refusal_message(alloc: Global, part: Part, refusal: Refusal) -> Result<Message, NoMemory>
    ensures { IfOk result (λ m. answer_of m ≡ written part (refusal_response refusal)) }
{
    let status = status_code(refusal);
    let body = line_bytes(alloc, refusal.line())?;
    match refusal {
        Refusal::Method => make_message(alloc, part, status, &[TEXT, ANY_ORIGIN, ALLOW], body),
        _ => make_message(alloc, part, status, &[TEXT, ANY_ORIGIN], body),
    }
}

/// The answer where a read of the source failed.
pub(crate) fn source_message(alloc: Global, part: Part) -> Result<Message, NoMemory>
    ensures { IfOk result (λ m. answer_of m ≡ written part source_fault) }
{
    let body = line_bytes(alloc, "L1 source")?;
    make_message(
        alloc,
        part,
        Status::InternalServerError,
        &[TEXT, ANY_ORIGIN],
        body,
    )
}

/// The URI of an image's information.
fn information_uri(alloc: Global, base: &str, name: &str) -> Result<String, NoMemory>
    ensures { IfOk result (λ s. string_bytes s ≡ information_uri base.now name.now) }
{
    let mut uri = image_uri(alloc, base, name)?;
    uri.push_str("/info.json")?;
    Ok(uri)
}

/// The answer to a base URI: where the image's information is.
fn redirect_message(alloc: Global, part: Part, base: &str, name: &str) -> Result<Message, NoMemory>
    ensures { IfOk result (λ m. answer_of m ≡ written part (redirect_response base.now name.now)) }
{
    let uri = information_uri(alloc, base, name)?;
    let location = Field {
        name: "Location",
        value: uri.as_str(),
    };
    make_message(
        alloc,
        part,
        Status::SeeOther,
        &[ANY_ORIGIN, location],
        Vec::new(alloc),
    )
}

/// The information about an image with these sides.
fn information_message(
    alloc: Global,
    part: Part,
    config: &Config,
    name: &str,
    dim: Dim,
) -> Result<Message, NoMemory>
    ensures { IfOk result (λ m. answer_of m ≡ written part (information_response config.now name.now dim)) }
{
    let text = info(
        alloc,
        config.base(),
        name,
        dim,
        &config.limits(),
        config.edge(),
    )?;
    make_message(
        alloc,
        part,
        Status::Ok,
        &[JSON_LD, ANY_ORIGIN],
        text.into_bytes(),
    )
}

/// Makes the answer to a target that comes to no image. The only error is lack of memory.
pub fn message_of<R, S: Source<R>>(
    alloc: Global,
    part: Part,
    config: &Config,
    outcome: &Outcome<'_, R, S>,
) -> Result<Message, NoMemory>
    ensures { (honest : Bool) (items : List (Item S)) (target : List ℕ) →
        ComesTo S.bytes S.keeps honest (Replies S.bytes S.keeps honest config.now items target) outcome.now
        → IfOk result (λ m. (a : Response) × MayTell config.now part S.gave (Replies S.bytes S.keeps honest config.now items target) a ×
        (answer_of m ≡ written part a)) }
{
    match outcome {
        Outcome::Refused(refusal) => refusal_message(alloc, part, *refusal),
        Outcome::Redirect(entry) => {
            redirect_message(alloc, part, config.base(), entry.name.as_str())
        }
        Outcome::Information(entry, dim) => {
            information_message(alloc, part, config, entry.name.as_str(), *dim)
        }
        _ => Err(AllocError),
    }
}

/// The head of the answer to lack of memory, where the connection goes on.
fn memory_head_stays() -> &'static [u8]
    ensures { result.now ≡ head_in (Whole false) 500 want_of_memory.fields 10 }
{
    b"HTTP/1.1 500 Internal Server Error\r\nContent-Type: text/plain\r\nAccess-Control-Allow-Origin: *\r\nContent-Length: 10\r\n\r\n"
}

/// The head of the answer to lack of memory, where the connection closes.
fn memory_head_closes() -> &'static [u8]
    ensures { result.now ≡ head_in (Whole true) 500 want_of_memory.fields 10 }
{
    b"HTTP/1.1 500 Internal Server Error\r\nContent-Type: text/plain\r\nAccess-Control-Allow-Origin: *\r\n\
        Content-Length: 10\r\nConnection: close\r\n\r\n"
}

/// The head of the answer to lack of memory, which stands ready.
pub(crate) fn memory_head(part: Part) -> &'static [u8]
    ensures { result.now ≡ (written part want_of_memory).head }
{
    match part {
        Part::Body => b"",
        Part::Whole { closes: true } => memory_head_closes(),
        Part::Whole { closes: false } => memory_head_stays(),
        Part::Head { closes: true } => memory_head_closes(),
        Part::Head { closes: false } => memory_head_stays(),
    }
}

/// The body of the answer to lack of memory, which stands ready.
pub(crate) fn memory_body(part: Part) -> &'static [u8]
    ensures { result.now ≡ (written part want_of_memory).body }
{
    match part {
        Part::Body | Part::Whole { .. } => b"L2 memory\n",
        Part::Head { .. } => b"",
    }
}
