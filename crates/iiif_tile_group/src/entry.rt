//! An image of a catalogue.

ghost use Rattle.std.specs.Prelude.{◌≡◌, None, length};
ghost use Rattle.iiif_tiff.specs.Tiff.{refusal_of, scheme};
ghost use Rattle.iiif_tiff_read.specs.Layouts.{FitsIn};

use iiif_keys::{Name, Shape};
use iiif_source::Source;
use iiif_tiff_read::Layout;
use std::marker::PhantomData;

/// An image: its name, its source, and what its file says of it, which is right where the source's bytes don't change.
#[derive(Drop)]
pub struct ImageEntry<R, S: Source<R>> {
    pub name: Name,
    pub source: S,
    pub layout: Layout,
    pub of: PhantomData<R>,
    pub ghost in_file: { FitsIn layout (length (S.bytes source)) },
    pub ghost accepted: { S.keeps source → refusal_of (S.bytes source) ≡ None },
    pub ghost shown: { S.keeps source → layout ≡ scheme (S.bytes source) },
}

impl<R, S: Source<R>> ImageEntry<R, S> {
    ghost use Rattle.iiif_keys.specs.Names.{IsSource};
    ghost use Rattle.iiif_keys.specs.Shapes.{shape_of};
    ghost use Rattle.iiif_tile_group.specs.Items.{item_of};
    ghost use Rattle.iiif_tile_group.specs.Named.{picture_in};

    /// The shape of the image's picture.
    pub fn shape(&self) -> Shape
        ensures shape { shape_of (picture_in S.bytes (item_of self.now)) ≡ result }
        ensures source { IsSource (picture_in S.bytes (item_of self.now)) }
    {
        // Read, so that what the source has is known to be bytes.
        let _len = self.source.len();
        Shape {
            dim: self.layout.dim(),
            kind: self.layout.kind(),
            depth: self.layout.depth(),
        }
    }
}
