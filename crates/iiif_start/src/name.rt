//! Names in lines of text.

ghost use Rattle.std.specs.Prelude.{◌≡◌, ◌<◌, Some};
ghost use Rattle.std.specs.Fmt.{WritesOnOk};
ghost use Rattle.iiif_log.specs.Escapes.{escaped, escape_of, hex_digit as digit_of, is_plain as plain};

use std::fmt;
use std::fmt::{Display, Formatter};

/// A name as one word of visible ASCII, as the log writes a target: so it can't end a line, nor say anything to a terminal. It is written
/// without memory, so that a line which names an image comes where memory runs out, too.
#[derive(Clone, Copy, Debug)]
pub struct Word<'a>(pub &'a str);

/// Returns whether a byte stands for itself.
fn is_plain(byte: u8) -> bool
    ensures { result ≡ plain byte }
{
    byte.is_ascii_graphic() && byte != b'"' && byte != b'\'' && byte != b'\\'
}

/// Returns a hexadecimal digit.
fn hex_digit(value: u8) -> char
    requires { value < 16 }
    ensures { result ≡ digit_of value }
{
    if value < 10 {
        char::from(b'0' + value)
    } else {
        char::from(b'A' + (value - 10))
    }
}

/// Writes a byte that stands for itself, or else its escape.
fn put_byte<W: fmt::Write>(f: &mut Formatter<W>, byte: u8) -> fmt::Result
    ensures { WritesOnOk W.write_str_gives f.old result (escape_of byte) f.new }
{
    if is_plain(byte) {
        return f.write_char(char::from(byte));
    }
    f.write_str("\\x")?;
    f.write_char(hex_digit(byte / 16))?;
    f.write_char(hex_digit(byte % 16))
}

impl Display for Word<'_> {
    ghost output = { λ w. Some (escaped w.0.now) };

    fn fmt<W: fmt::Write>(&self, f: &mut Formatter<W>) -> fmt::Result {
        let bytes = self.0.as_bytes();
        if bytes.is_empty() {
            return f.write_str("\"\"");
        }
        for byte in bytes {
            put_byte(f, *byte)?;
        }
        Ok(())
    }
}
