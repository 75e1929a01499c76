//! Heads of answers.

ghost use Rattle.std.specs.Prelude.{◌≡◌, ◌++◌, IfOk, OnOk, map, string_bytes};
ghost use Rattle.iiif_http_front.specs.Statuses.{code_of};
ghost use Rattle.iiif_http_front.specs.AnswerHeads.{head_text, status_line, field_line, length_line, close_line, name_and_value};

use crate::heads::NoMemory;
use crate::status::Status;
use std::alloc::Global;
use std::fmt::Write;

/// The capacity in bytes of a buffer for a head, enough for most.
const USUAL_LENGTH: usize = 512;

/// A field of an answer's head (RFC 9110, section 6.3). Its parts are written as they are, so neither may have a line end in it.
#[derive(Clone, Copy, Debug, PartialEq, Eq)]
pub struct Field<'a> {
    /// The name, as `Content-Type`.
    pub name: &'a str,
    /// The value, with no space around it.
    pub value: &'a str,
}

/// Writes the status line (RFC 9112, section 4).
#[tactic(auto, unfolding(crate::specs::AnswerHeads::status_line))]
fn push_status(text: &mut String, status: Status) -> Result<(), NoMemory>
    ensures { OnOk result (string_bytes text.new ≡ string_bytes text.old ++ status_line (code_of status)) }
{
    let code = status.code();
    let reason = status.reason();
    write!(text, "HTTP/1.1 {code} {reason}\r\n")
}

/// Writes a field line (RFC 9112, section 5).
#[tactic(auto, unfolding(crate::specs::AnswerHeads::field_line))]
fn push_field(text: &mut String, field: Field<'_>) -> Result<(), NoMemory>
    ensures { OnOk result (string_bytes text.new ≡ string_bytes text.old ++ field_line (name_and_value field.entry)) }
{
    let Field { name, value } = field;
    write!(text, "{name}: {value}\r\n")
}

/// Writes the length of the body (RFC 9110, section 8.6).
#[tactic(auto, unfolding(crate::specs::AnswerHeads::length_line))]
fn push_length(text: &mut String, length: u64) -> Result<(), NoMemory>
    ensures { OnOk result (string_bytes text.new ≡ string_bytes text.old ++ length_line length) }
{
    write!(text, "Content-Length: {length}\r\n")
}

/// Writes the field `Connection: close`, where the connection closes (RFC 9112, section 9.6).
#[tactic(auto, unfolding(crate::specs::AnswerHeads::close_line))]
fn push_close(text: &mut String, close: bool) -> Result<(), NoMemory>
    ensures { OnOk result (string_bytes text.new ≡ string_bytes text.old ++ close_line close) }
{
    if close {
        text.push_str("Connection: close\r\n")?;
    }
    Ok(())
}

/// Formats the head of an answer: the status line with the registered reason phrase, the fields in their order, the length of the body,
/// `Connection: close` where the connection closes, and the empty line (RFC 9112, sections 2 and 4).
#[tactic(auto, unfolding(crate::specs::AnswerHeads::head_text))]
pub fn head_bytes(
    alloc: Global,
    status: Status,
    fields: &[Field<'_>],
    length: u64,
    close: bool,
) -> Result<Vec<u8>, NoMemory>
    ensures { IfOk result (λ bytes. bytes.items ≡ head_text (code_of status) (map name_and_value fields.now) length close) }
{
    let mut text = String::with_capacity(alloc, USUAL_LENGTH)?;
    push_status(&mut text, status)?;
    for field in fields {
        push_field(&mut text, *field)?;
    }
    push_length(&mut text, length)?;
    push_close(&mut text, close)?;
    text.push_str("\r\n")?;
    Ok(text.into_bytes())
}
