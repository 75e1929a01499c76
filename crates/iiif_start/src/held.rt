//! The images' files that are held in memory.

ghost use Rattle.std.specs.Prelude.{◌≡◌, option_map};
ghost use Rattle.iiif_tile_group.specs.Items.{item_of};
ghost use Rattle.iiif_io.specs.Counting.{capped};
ghost use Rattle.iiif_start.specs.Held.{all_bytes_held, bytes_in, count_in, images_held};

use crate::stored::Stored;
use iiif_open_files::Opens;
use iiif_source::Source;
use iiif_tile_group::{Catalogue, ImageEntry};
use std::sync::Wait;

/// The images whose files are held in memory. Each number stops at the greatest that its type holds.
#[derive(Clone, Copy, PartialEq, Eq)]
pub struct Held {
    /// How many images they are.
    pub images: u64,
    /// The bytes of their files.
    pub bytes: u64,
}

/// The images that a start named: how many are served, how many can't be and are left out, and what is held of them.
#[derive(Clone, Copy, PartialEq, Eq)]
pub struct Images {
    pub served: u64,
    pub unfit: u64,
    pub held: Held,
}

impl Held {
    /// Counts those of these names and files in a catalogue.
    #[tactic(auto, using(crate::proofs::SourceLemmas::added))]
    pub fn among<R: Opens + Wait>(
        catalogue: &Catalogue<R, Stored<R>>,
        images: &[(&str, &str)],
    ) -> Held
        ensures images { result.images ≡ capped (images_held catalogue.now images.now) }
        ensures bytes { result.bytes ≡ capped (all_bytes_held catalogue.now images.now) }
    {
        let mut held = Held {
            images: 0,
            bytes: 0,
        };
        for image in images {
            let more = held_of(catalogue.find(image.0));
            held.images = held.images.saturating_add(more.images);
            held.bytes = held.bytes.saturating_add(more.bytes);
        }
        held
    }
}

/// Returns the part of an image that is held, where there is one.
fn held_of<R: Opens + Wait>(entry: Option<&ImageEntry<R, Stored<R>>>) -> Held
    ensures images { result.images ≡ count_in (option_map (λ e. item_of e.now) entry.entry) }
    ensures bytes { result.bytes ≡ bytes_in (option_map (λ e. item_of e.now) entry.entry) }
{
    let nothing = Held {
        images: 0,
        bytes: 0,
    };
    let Some(entry) = entry else {
        return nothing;
    };
    match &entry.source {
        Stored::Memory(source) => Held {
            images: 1,
            bytes: Source::<R>::len(source),
        },
        Stored::File(_) => nothing,
    }
}
