//! Bytes of any kind as a word of a line.

ghost use Rattle.std.specs.Prelude.{◌≡◌, ◌<◌, ◌++◌, OnOk, string_bytes};
ghost use Rattle.iiif_log.specs.Escapes.{escaped, escape_of, hex_digit as digit_of, is_plain as plain};

use crate::moment::NoMemory;

/// Whether a byte stands for itself.
fn is_plain(byte: u8) -> bool
    ensures { result ≡ plain byte }
{
    byte.is_ascii_graphic() && byte != b'"' && byte != b'\'' && byte != b'\\'
}

/// A hexadecimal digit.
fn hex_digit(value: u8) -> char
    requires { value < 16 }
    ensures { result ≡ digit_of value }
{
    if value < 10 {
        char::from(b'0' + value)
    } else {
        char::from(b'A' + (value - 10))
    }
}

/// Writes a byte that stands for itself, or else its escape.
fn push_byte(text: &mut String, byte: u8) -> Result<(), NoMemory>
    ensures { OnOk result (string_bytes text.new ≡ string_bytes text.old ++ escape_of byte) }
{
    if is_plain(byte) {
        return text.push(char::from(byte));
    }
    text.push_str("\\x")?;
    text.push(hex_digit(byte / 16))?;
    text.push(hex_digit(byte % 16))
}

/// Writes bytes as one word of visible ASCII, which no other bytes have: each other byte, and quotes and the backslash, as `\xHH`,
/// and no bytes at all as two quotes.
pub fn push_escaped(text: &mut String, bytes: &[u8]) -> Result<(), NoMemory>
    ensures { OnOk result (string_bytes text.new ≡ string_bytes text.old ++ escaped bytes.now) }
{
    if bytes.is_empty() {
        return text.push_str("\"\"");
    }
    for byte in bytes {
        push_byte(text, *byte)?;
    }
    Ok(())
}
