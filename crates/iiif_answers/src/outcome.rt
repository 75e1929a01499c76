//! Outcomes of targets, before anything is loaded or sent.

ghost use Rattle.std.specs.Prelude.{◌≡◌, ℕ, Bool, List};
ghost use Rattle.iiif_pixel.specs.Picture.{Picture, dim_of};
ghost use Rattle.iiif_request.specs.Targets.{AsksFor, resource_of};
ghost use Rattle.iiif_answers.specs.Answers.{identifier_of, IsPictureOf, Replies};
ghost use Rattle.iiif_answers.specs.BaseUrl.{path_of};
ghost use Rattle.iiif_answers.specs.Outcomes.{CanBeMade, ComesTo, IsFound};
ghost use Rattle.iiif_tile_group.specs.Items.{item_of};

use crate::accepted::{Accepted, accept};
use crate::config::Config;
use iiif_pixel::Dim;
use iiif_request::{Refusal, SplitFault, Target, split};
use iiif_source::Source;
use iiif_tiff::shows_one_picture;
use iiif_tile_group::{Catalogue, ImageEntry};
use std::alloc::Global;

/// Outcome of a target: a refusal; the place of an image's information; that information, with the image's sides; an
/// accepted request of an image; or lack of memory.
#[derive(Drop)]
pub enum Outcome<'a, R, S: Source<R>> {
    Refused(Refusal),
    Redirect(&'a ImageEntry<R, S>),
    Information(&'a ImageEntry<R, S>, Dim),
    Image(&'a ImageEntry<R, S>, Accepted),
    NoMemory,
}

/// The identifier in a target.
fn identifier(target: &Target) -> &str
    ensures { result.now ≡ identifier_of (resource_of target.now) }
{
    match target {
        Target::Base(id) => id.as_str(),
        Target::Info(id) => id.as_str(),
        Target::Image(id, _) => id.as_str(),
    }
}

/// The sides of an image.
fn sides<R, S: Source<R>>(entry: &ImageEntry<R, S>) -> Dim
    ensures { (p : Picture) × IsPictureOf S.bytes S.keeps (item_of entry.now) p × (dim_of p ≡ result) }
{
    // A law: the file that was opened shows one picture.
    shows_one_picture();
    // Read, so that the source's bytes are known to be bytes.
    let _len = entry.source.len();
    entry.layout.dim()
}

/// Returns the outcome of a resource on a server with these settings and images.
fn outcome_for<'a, R, S: Source<R> + Drop>(
    config: &Config,
    images: &'a Catalogue<R, S>,
    resource: &Target,
) -> Outcome<'a, R, S>
    ensures comes { (honest : Bool) (target : List ℕ) → AsksFor (path_of config.now.base) target (resource_of resource.now)
        → ComesTo S.bytes S.keeps honest (Replies S.bytes S.keeps honest config.now images.now target) result }
    ensures made { CanBeMade result }
    ensures found { IsFound images.now result }
{
    let Some(entry) = images.find(identifier(resource)) else {
        return Outcome::Refused(Refusal::Identifier);
    };
    match resource {
        Target::Base(_) => Outcome::Redirect(entry),
        Target::Info(_) => Outcome::Information(entry, sides(entry)),
        Target::Image(_, words) => match accept(entry, &config.limits(), words) {
            Ok(accepted) => Outcome::Image(entry, accepted),
            Err(refusal) => Outcome::Refused(refusal),
        },
    }
}

/// Returns the outcome of a target on a server with these settings and images. Nothing is loaded for it.
pub fn outcome_of<'a, R, S: Source<R> + Drop>(
    alloc: Global,
    config: &Config,
    images: &'a Catalogue<R, S>,
    target: &[u8],
) -> Outcome<'a, R, S>
    ensures comes { (honest : Bool) → ComesTo S.bytes S.keeps honest (Replies S.bytes S.keeps honest config.now images.now target.now)
        result }
    ensures made { CanBeMade result }
    ensures found { IsFound images.now result }
{
    match split(alloc, config.prefix(), target) {
        Ok(resource) => outcome_for(config, images, &resource),
        Err(SplitFault::Path) => Outcome::Refused(Refusal::Path),
        Err(SplitFault::NoMemory) => Outcome::NoMemory,
    }
}
