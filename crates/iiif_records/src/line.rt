//! The line of a step.

ghost use Rattle.std.specs.Prelude.{◌≡◌, ◌<◌, ◌++◌, OnOk, string_bytes};
ghost use Rattle.std.specs.List.{flat_map};
ghost use Rattle.iiif_records.specs.Lines.{class_word, hex_digit, hex_of, record_line, step_line, ticket_words};

use iiif_tables::Class;
use std::alloc::AllocError;

/// Step of a node, as its record tells it.
#[derive(Clone, Copy)]
pub struct Step<'a> {
    /// The words for what happened.
    pub words: &'a str,
    pub class: Class,
    /// The number of the flight, where there is one.
    pub ticket: Option<u64>,
    /// The bytes of the key.
    pub key: &'a [u8],
}

/// A hexadecimal digit.
fn hex_digit(value: u8) -> char
    requires { value < 16 }
    ensures { result ≡ hex_digit value }
{
    if value < 10 {
        char::from(b'0' + value)
    } else {
        char::from(b'a' + (value - 10))
    }
}

/// Writes a byte in hexadecimal.
fn push_byte(text: &mut String, byte: u8) -> Result<(), AllocError>
    ensures { OnOk result (string_bytes text.new ≡ string_bytes text.old ++ hex_of byte) }
{
    text.push(hex_digit(byte / 16))?;
    text.push(hex_digit(byte % 16))
}

/// Writes bytes in hexadecimal.
fn push_bytes(text: &mut String, bytes: &[u8]) -> Result<(), AllocError>
    ensures { OnOk result (string_bytes text.new ≡ string_bytes text.old ++ flat_map hex_of bytes.now) }
{
    for byte in bytes {
        push_byte(text, *byte)?;
    }
    Ok(())
}

/// Returns the word for a class.
pub fn class_word(class: Class) -> &'static str
    ensures { result.now ≡ class_word class }
{
    match class {
        Class::Wide => "wide",
        Class::Local => "local",
    }
}

/// Writes the number of a flight, where there is one.
fn push_ticket(text: &mut String, ticket: Option<u64>) -> Result<(), AllocError>
    ensures { OnOk result (string_bytes text.new ≡ string_bytes text.old ++ ticket_words ticket) }
{
    match ticket {
        Some(ticket) => write!(text, " {ticket}"),
        None => Ok(()),
    }
}

/// Writes a step, as a record and a replay tell it: its words, the class, the number of the flight and the key.
pub fn push_step(text: &mut String, step: &Step<'_>) -> Result<(), AllocError>
    ensures { OnOk result (string_bytes text.new ≡ string_bytes text.old
        ++ step_line step.now.words.now step.now.class step.now.ticket step.now.key.now) }
{
    text.push_str(step.words)?;
    text.push_str(" ")?;
    text.push_str(class_word(step.class))?;
    push_ticket(text, step.ticket)?;
    text.push_str(" ")?;
    push_bytes(text, step.key)
}

/// Writes the line of a record: the number of the pass that counts the call, and the step.
pub fn push_line(text: &mut String, pass: u64, step: &Step<'_>) -> Result<(), AllocError>
    ensures { OnOk result (string_bytes text.new ≡ string_bytes text.old
        ++ record_line pass step.now.words.now step.now.class step.now.ticket step.now.key.now) }
{
    write!(text, "{pass} ")?;
    push_step(text, step)?;
    text.push_str("\n")
}
