//! The line of a read of a file that failed.

ghost use Rattle.std.specs.Prelude.{◌≡◌, IfOk};
ghost use Rattle.iiif_log.specs.FailedLines.{IsFailedLineOf};

use crate::escape::push_escaped;
use crate::moment::{Moment, NoMemory, push_moment};
use std::alloc::Global;
use std::fmt::Write;

/// Room for a line of the usual length.
const USUAL_LENGTH: usize = 128;

/// A read of a file that failed, as a line tells it.
#[derive(Clone, Copy)]
pub struct FailedRead<'a> {
    /// When it is told.
    pub at: Moment,
    /// The path of the file.
    pub path: &'a [u8],
    /// The offset where the read began, in bytes.
    pub place: u64,
    /// A word for why it failed.
    pub reason: &'a [u8],
}

/// The line of it, as `2026-11-23T11:42:05.123Z read-failed /srv/a.tif 65536 changed`. It has five words, and no other line has as many.
pub fn failed_line_bytes(alloc: Global, told: &FailedRead<'_>) -> Result<Vec<u8>, NoMemory>
    ensures { IfOk result (λ bytes. IsFailedLineOf told.now bytes.items) }
{
    let mut text = String::with_capacity(alloc, USUAL_LENGTH)?;
    push_moment(&mut text, told.at)?;
    text.push_str(" read-failed ")?;
    push_escaped(&mut text, told.path)?;
    let place = told.place;
    write!(text, " {place} ")?;
    push_escaped(&mut text, told.reason)?;
    text.push_str("\n")?;
    Ok(text.into_bytes())
}
