//! Answers that are images.

ghost use Rattle.std.specs.Prelude.{◌≡◌, ◌<◌, ◌^◌, ◌++◌, IfOk, string_bytes};
ghost use Rattle.iiif_canonical.specs.Texts.{uri_of};
ghost use Rattle.iiif_pixel.specs.Picture.{Picture, dim_of};
ghost use Rattle.iiif_pixel.specs.TurnPlaces.{turned_dim};
ghost use Rattle.iiif_keys.specs.Blocks.{IsEdge};
ghost use Rattle.iiif_keys.specs.Names.{IsSource};
ghost use Rattle.iiif_keys.specs.Shapes.{shape_of};
ghost use Rattle.iiif_assemble.specs.Jobs.{HasPlan, IsJob};
ghost use Rattle.iiif_request.specs.Requests.{HasShortDecimals};
ghost use Rattle.iiif_tiff_write.specs.File.{file_len};
ghost use Rattle.iiif_tile_group.specs.Items.{item_of};
ghost use Rattle.iiif_tile_group.specs.Named.{picture_in};
ghost use Rattle.iiif_answers.specs.Answers.{IsPictureOf};
ghost use Rattle.iiif_answers.specs.Sent.{answer_of};
ghost use Rattle.iiif_answers.specs.Outcomes.{IsReady};
ghost use Rattle.iiif_answers.specs.Responses.{canonical_link, image_response, written};
ghost use Rattle.iiif_answers.specs.declared.part.Part.TheVariants.{Head};

use crate::accepted::Accepted;
use crate::config::Config;
use crate::message::{ANY_ORIGIN, Message, head_in};
use crate::part::Part;
use iiif_assemble::Job;
use iiif_canonical::uri;
use iiif_http_front::{Field, Status};
use iiif_pixel::{Dim, NoMemory, Turn};
use iiif_request::Request;
use iiif_source::Source;
use iiif_tiff::shows_one_picture;
use iiif_tiff_write::total_len;
use iiif_tile_group::ImageEntry;
use std::alloc::Global;

/// How many sums a block of a plan has at most.
const ROOM: u64 = 65_536;

const TIFF: Field<'static> = Field {
    name: "Content-Type",
    value: "image/tiff",
};

/// The sides of a picture that is turned.
fn turned_dim(turn: Turn, dim: Dim) -> Dim
    ensures { result ≡ turned_dim turn dim }
{
    if turn.quarters % 2 == 0 {
        dim
    } else {
        Dim { w: dim.h, h: dim.w }
    }
}

/// The value of the field that gives a canonical URI.
fn link_to(alloc: Global, uri: &str) -> Result<String, NoMemory>
    ensures { IfOk result (λ s. string_bytes s ≡ canonical_link uri.now) }
{
    let mut link = String::new(alloc);
    link.push_str("<")?;
    link.push_str(uri)?;
    link.push_str(">;rel=\"canonical\"")?;
    Ok(link)
}

/// The value of the field that gives a request's canonical URI.
fn canonical_link(
    alloc: Global,
    base: &str,
    name: &str,
    canonical: &Request,
) -> Result<String, NoMemory>
    requires { HasShortDecimals canonical.now }
    ensures { IfOk result (λ s. string_bytes s ≡ canonical_link (uri_of base.now name.now canonical.now)) }
{
    let uri = uri(alloc, base, name, canonical)?;
    link_to(alloc, uri.as_str())
}

/// The head of an image's answer.
pub fn image_head(
    alloc: Global,
    part: Part,
    base: &str,
    name: &str,
    accepted: &Accepted,
) -> Result<Vec<u8>, NoMemory>
    requires short { HasShortDecimals accepted.now.canonical }
    requires len { file_len accepted.now.kind (turned_dim accepted.now.resolved.turn accepted.now.resolved.size) < 2 ^ 32 }
    ensures { IfOk result (λ h. (p : Picture) → dim_of p ≡ turned_dim accepted.now.resolved.turn accepted.now.resolved.size
        → h.items ≡ (written part (image_response base.now name.now accepted.now.canonical p accepted.now.kind)).head) }
{
    let dim = turned_dim(accepted.resolved.turn, accepted.resolved.size);
    let link = canonical_link(alloc, base, name, &accepted.canonical)?;
    let link = Field {
        name: "Link",
        value: link.as_str(),
    };
    let length = total_len(accepted.kind, dim);
    head_in(alloc, part, Status::Ok, &[TIFF, ANY_ORIGIN, link], length)
}

/// The answer to a HEAD of an image. Nothing is loaded for it.
pub fn head_message<R, S: Source<R>>(
    alloc: Global,
    close: bool,
    config: &Config,
    entry: &ImageEntry<R, S>,
    accepted: &Accepted,
) -> Result<Message, NoMemory>
    requires ready { IsReady entry.now.layout accepted.now }
    ensures { IfOk result (λ m. (p : Picture) → dim_of p ≡ turned_dim accepted.now.resolved.turn accepted.now.resolved.size
        → answer_of m ≡ written (Head close) (image_response config.now.base entry.now.name accepted.now.canonical p accepted.now.kind)) }
{
    let part = Part::Head { closes: close };
    let head = image_head(alloc, part, config.base(), entry.name.as_str(), accepted)?;
    Ok(Message {
        status: 200,
        head,
        body: Vec::new(alloc),
    })
}

/// Plans the job of an accepted request of an image, of tiles with this edge.
pub fn job_of<R, S: Source<R>>(
    alloc: Global,
    edge: u32,
    entry: &ImageEntry<R, S>,
    accepted: &Accepted,
) -> Result<Job, NoMemory>
    requires edge { IsEdge edge }
    requires ready { IsReady entry.now.layout accepted.now }
    ensures job { IfOk result IsJob }
    ensures name { IfOk result (λ j. j.name ≡ entry.now.name) }
    ensures edge { IfOk result (λ j. j.edge ≡ edge) }
    ensures resolved { IfOk result (λ j. j.resolved ≡ accepted.now.resolved) }
    ensures shape { IfOk result (λ j. shape_of (picture_in S.bytes (item_of entry.now)) ≡ j.shape) }
    ensures plan { IfOk result (HasPlan 65536) }
    ensures source { IsSource (picture_in S.bytes (item_of entry.now)) }
{
    let shape = entry.shape();
    let name = entry.name.copy()?;
    Job::new(alloc, name, edge, shape, accepted.resolved, ROOM)
}

/// Computes nothing: its contract says that the picture which the bytes of an image show is the one of its name, where they are kept.
pub fn picture_is_shown<R, S: Source<R>>(entry: &ImageEntry<R, S>)
    ensures { (p : Picture) → S.keeps entry.now.source → IsPictureOf S.bytes S.keeps (item_of entry.now) p →
        picture_in S.bytes (item_of entry.now) ≡ p }
{
    // A law of files.
    shows_one_picture();
    // Read, so that the source's bytes are known to be bytes.
    let _len = entry.source.len();
}
