//! Image requests that are accepted.

ghost use Rattle.std.specs.Prelude.{◌≡◌, length, IfOk};
ghost use Rattle.iiif_request.specs.Words.{texts};
ghost use Rattle.iiif_tile_group.specs.Items.{item_of};
ghost use Rattle.iiif_answers.specs.Outcomes.{Accepts, IsReady};
ghost use Rattle.iiif_answers.specs.Settings.{AreLegal};

use iiif_canonical::{Limits, Resolved, canonical, resolve};
use iiif_request::{Refusal, Request, Words, parse};
use iiif_source::Source;
use iiif_tiff::shows_one_picture;
use iiif_tiff_write::OutKind;
use iiif_tiff_write::laws::lengths_fit;
use iiif_tile_group::ImageEntry;

/// An image request that is accepted: the values that it comes to, its canonical form, and the kind of the file that is
/// answered.
#[derive(Clone, Copy)]
pub struct Accepted {
    pub resolved: Resolved,
    pub canonical: Request,
    pub kind: OutKind,
}

/// Accepts or refuses the words of a request for an image, of which nothing is loaded.
pub(crate) fn accept<R, S: Source<R>>(
    entry: &ImageEntry<R, S>,
    limits: &Limits,
    words: &Words,
) -> Result<Accepted, Refusal>
    requires limits { AreLegal limits.now }
    ensures accepts { Accepts S.bytes S.keeps (item_of entry.now) limits.now (texts words.now) result }
    ensures ready { IfOk result (IsReady entry.now.layout) }
{
    let layout = &entry.layout;
    // Laws: the file that was opened shows one picture, and the file of each image that may be asked for has a length.
    shows_one_picture();
    lengths_fit();
    // Read, so that the source's bytes are known to be bytes.
    let _len = entry.source.len();
    let request = parse(words)?;
    let kind = layout.kind();
    let dim = layout.dim();
    let resolved = resolve(&request, dim, kind, limits)?;
    Ok(Accepted {
        resolved,
        canonical: canonical(&resolved, dim, kind, limits),
        kind: OutKind::for_quality(kind, layout.depth(), request.quality),
    })
}
