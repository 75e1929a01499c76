//! The line of another node that asks for another version of a file.

ghost use Rattle.std.specs.Prelude.{◌≡◌, IfOk};
ghost use Rattle.iiif_log.specs.VersionLines.{IsVersionLineOf};

use crate::escape::push_escaped;
use crate::moment::{Moment, NoMemory, push_moment};
use std::alloc::Global;

/// Room for a line of the usual length.
const USUAL_LENGTH: usize = 64;

/// An ask of a node for another version of an image's file, as a line tells it.
#[derive(Clone, Copy)]
pub struct OtherVersion<'a> {
    /// When it asked.
    pub at: Moment,
    /// The address from which it did.
    pub address: &'a [u8],
    /// The image's name.
    pub image: &'a [u8],
}

/// The line of it, as `2026-11-23T11:42:05.123Z other-version 192.0.2.7 scan`. It has four words, and the second is no other line's.
pub fn version_line_bytes(alloc: Global, told: &OtherVersion<'_>) -> Result<Vec<u8>, NoMemory>
    ensures { IfOk result (λ bytes. IsVersionLineOf told.now bytes.items) }
{
    let mut text = String::with_capacity(alloc, USUAL_LENGTH)?;
    push_moment(&mut text, told.at)?;
    text.push_str(" other-version ")?;
    push_escaped(&mut text, told.address)?;
    text.push_str(" ")?;
    push_escaped(&mut text, told.image)?;
    text.push_str("\n")?;
    Ok(text.into_bytes())
}
