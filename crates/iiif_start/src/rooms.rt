//! Warnings of caches that their entries can't fill.

ghost use Rattle.std.specs.Prelude.{◌≡◌, OnOk};
ghost use Rattle.std.specs.Io.KnownBytes.{Appends};
ghost use Rattle.std.specs.NonZero.{non_zero_usize_get};
ghost use Rattle.iiif_start.specs.Rooms.{is_unfilled, tile_of, warning_of_room};

use std::io;
use std::io::Write;
use std::num::NonZeroUsize;

/// The bytes of each group's cache where none are given.
const DEFAULT: u64 = 67_108_864;

/// Counts the bytes of a whole gray tile of 8 bits.
fn tile_of(edge: u32) -> u64
    ensures { result ≡ tile_of edge }
{
    let edge = u64::from(edge);
    edge.saturating_mul(edge)
}

/// Returns whether a cache is allowed more bytes than the most entries of a list have, where each is a whole gray tile of 8 bits, and more
/// than by default.
pub fn is_unfilled(bytes: u64, entries: NonZeroUsize, edge: u32) -> bool
    ensures { result ≡ is_unfilled bytes (non_zero_usize_get entries) edge }
{
    let most = (entries.get() as u64).saturating_mul(tile_of(edge));
    bytes > DEFAULT && most < bytes
}

/// Warns in a line of a cache that its entries can't fill. It needs no memory.
pub fn warn_of_room<W: Write>(
    err: &mut W,
    bytes: u64,
    entries: NonZeroUsize,
    edge: u32,
) -> io::Result<()>
    ensures { OnOk result (Appends (W.contents err.old) (W.contents err.new)
        (warning_of_room bytes (non_zero_usize_get entries) edge)) }
{
    if is_unfilled(bytes, entries, edge) {
        writeln!(
            err,
            "warning: --cache-bytes is more than --cache-entries gray tiles of --edge have: of such images the rest isn't used"
        )?;
    }
    Ok(())
}
