//! Bytes as text.

ghost use Rattle.std.specs.Prelude.{◌<◌};

use std::io;
use std::io::Write;

/// How many bytes stand on a line.
const LINE: usize = 16;

/// Writes bytes as lines of up to sixteen, two lower-case hexadecimal digits each, one space between, a line feed at the end of
/// each line.
pub fn write_hex<W: Write>(out: &mut W, bytes: &[u8]) -> io::Result<()> {
    for line in bytes.chunks(LINE) {
        let mut separator = "";
        for byte in line {
            write!(out, "{separator}{byte:02x}")?;
            separator = " ";
        }
        writeln!(out)?;
    }
    Ok(())
}
