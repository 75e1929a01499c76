//! The line of another node that refuses asks for an image.

ghost use Rattle.std.specs.Prelude.{◌≡◌, IfOk};
ghost use Rattle.iiif_log.specs.RefusedLines.{IsRefusedLineOf};

use crate::escape::push_escaped;
use crate::moment::{Moment, NoMemory, push_moment};
use std::alloc::Global;

/// Room for a line of the usual length.
const USUAL_LENGTH: usize = 64;

/// A node's first refusal of an ask for an image, as a line tells it: it knows no such image, or another one.
#[derive(Clone, Copy)]
pub struct RefusedImage<'a> {
    /// When it refused.
    pub at: Moment,
    /// The node's name.
    pub name: &'a [u8],
    /// The image's name.
    pub image: &'a [u8],
}

/// The line of it, as `2026-11-23T11:42:05.123Z refused-image two scan`. It has four words, and the second is no other line's.
pub fn refused_line_bytes(alloc: Global, told: &RefusedImage<'_>) -> Result<Vec<u8>, NoMemory>
    ensures { IfOk result (λ bytes. IsRefusedLineOf told.now bytes.items) }
{
    let mut text = String::with_capacity(alloc, USUAL_LENGTH)?;
    push_moment(&mut text, told.at)?;
    text.push_str(" refused-image ")?;
    push_escaped(&mut text, told.name)?;
    text.push_str(" ")?;
    push_escaped(&mut text, told.image)?;
    text.push_str("\n")?;
    Ok(text.into_bytes())
}
