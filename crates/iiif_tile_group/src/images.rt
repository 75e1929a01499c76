//! The images that a node has, and tiles read from their sources.

ghost use Rattle.std.specs.Prelude.{◌≡◌, ℕ, List, Some, IfOk, IfErr, IsTrue};
ghost use Rattle.iiif_pixel.specs.Geometry.{channels_of};
ghost use Rattle.iiif_source.specs.declared.ReadFault.{ReadFault};
ghost use Rattle.iiif_keys.specs.Blocks.{TileFitsIn};
ghost use Rattle.iiif_keys.specs.Meaning.{tile_is_shaped, tile_meaning};
ghost use Rattle.iiif_keys.specs.Names.{IsSource};
ghost use Rattle.iiif_keys.specs.Shapes.{shape_of};
ghost use Rattle.iiif_outcome.specs.Outcomes.{is_given};
ghost use Rattle.iiif_tile_group.specs.Collection.{Item, item_named};
ghost use Rattle.iiif_tile_group.specs.Finding.{FindsImage, FindsShape};
ghost use Rattle.iiif_tile_group.specs.Items.{item_of};
ghost use Rattle.iiif_tile_group.specs.Named.{gave_of, picture_in, pictures_of, IsImageOf};

use crate::catalogue::Catalogue;
use crate::entry::ImageEntry;
use iiif_keys::{CacheKey, Fault, Shape, System, TileKey, TileVal};
use iiif_source::Source;
use iiif_tiff_read::LoadFault;
use std::marker::PhantomData;

/// A catalogue, and the side of a tile. J says what its names stand for: the pictures that its sources show, the faults that these
/// gave, and which of them are stable.
#[derive(Drop)]
pub struct Images<R, S: Source<R>, J: System> {
    catalogue: Catalogue<R, S>,
    edge: u32,
    of: PhantomData<J>,
    pub ghost pictures: { (name : List ℕ) → J.pictures name ≡ pictures_of S.bytes catalogue name },
    pub ghost gave: { (name : List ℕ) (f : ReadFault) → J.gave name f ≡ gave_of S.gave catalogue name f },
    pub ghost stable: { (name : List ℕ) (item : Item S) → item_named catalogue name ≡ Some item → J.stable name →
        ∥ S.keeps item.source ∥₁ },
    pub ghost edge_is: { edge ≡ J.edge },
}

impl<R, S: Source<R> + Drop, J: System> Images<R, S, J> {
    ghost use Rattle.iiif_pixel.specs.Operations.{crop};
    ghost use Rattle.iiif_keys.specs.Blocks.{tile_of};
    ghost use Rattle.iiif_keys.specs.Meaning.{TileHasShape};
    ghost use Rattle.iiif_pixel.specs.Geometry.{top_of};
    ghost use Rattle.iiif_tiff.specs.Tiff.{white_of};
    ghost use Rattle.iiif_tiff_read.specs.Layouts as layouts;
    ghost use Rattle.iiif_tile_group.specs.Views.{items_in};

    /// Makes images of a catalogue at this edge. The names stand for what it has.
    pub fn new(catalogue: Catalogue<R, S>, edge: u32) -> Images<R, S, J>
        requires pictures { (name : List ℕ) → J.pictures name ≡ pictures_of S.bytes catalogue name }
        requires gave { (name : List ℕ) (f : ReadFault) → J.gave name f ≡ gave_of S.gave catalogue name f }
        requires stable { (name : List ℕ) (item : Item S) → item_named catalogue name ≡ Some item → J.stable name →
            ∥ S.keeps item.source ∥₁ }
        requires edge { edge ≡ J.edge }
        ensures { items_in result ≡ catalogue }
    {
        Images {
            catalogue,
            edge,
            of: PhantomData,
        }
    }

    /// Lends the catalogue.
    pub fn catalogue(&self) -> &Catalogue<R, S>
        ensures items { result.now ≡ items_in self.now }
        ensures pictures { (name : List ℕ) → J.pictures name ≡ pictures_of S.bytes result.now name }
        ensures gave { (name : List ℕ) (f : ReadFault) → J.gave name f ≡ gave_of S.gave result.now name f }
        ensures stable { (name : List ℕ) (item : Item S) → item_named result.now name ≡ Some item → J.stable name →
            ∥ S.keeps item.source ∥₁ }
    {
        &self.catalogue
    }

    /// Returns the side of a tile, in places.
    pub fn edge(&self) -> u32
        ensures { result ≡ J.edge }
    {
        self.edge
    }

    /// Finds the image of a key, and its shape. It takes no memory.
    pub fn image_of<K: CacheKey>(&self, key: &K) -> Result<(&ImageEntry<R, S>, Shape), Fault>
        ensures { FindsImage K.CacheKey.own S.Source J.System key.now result }
    {
        let Some(entry) = self.catalogue.find(key.name().as_str()) else {
            return Err(Fault::UnknownName);
        };
        let shape = entry.shape();
        if !key.fits(self.edge, &shape) {
            return Err(Fault::BadKey);
        }
        Ok((entry, shape))
    }

    /// Finds the shape of the image of a key. It lends nothing of the image's source, and takes no memory.
    pub fn shape_of<K: CacheKey>(&self, key: &K) -> Result<Shape, Fault>
        ensures { FindsShape K.CacheKey.own J.System key.now result }
    {
        let (_entry, shape) = self.image_of(key)?;
        Ok(shape)
    }

    /// Reads a tile from its image's source.
    fn read(
        &self,
        rt: &R,
        entry: &ImageEntry<R, S>,
        shape: &Shape,
        key: &TileKey,
    ) -> Result<TileVal, Fault>
        requires source { IsSource (picture_in S.bytes (item_of entry.now)) }
        requires dim { shape.now.dim ≡ layouts.dim_of entry.now.layout }
        requires kind { channels_of shape.now.kind ≡ entry.now.layout.channels }
        requires depth { top_of shape.now.depth ≡ white_of entry.now.layout.bits }
        requires fits { TileFitsIn shape.now.dim (channels_of shape.now.kind) key.now }
        ensures crop { IfOk result (λ v. S.keeps entry.now.source →
            v.raster ≡ crop (picture_in S.bytes (item_of entry.now)) (tile_of shape.now.dim key.now)) }
        ensures shaped { IfOk result (TileHasShape shape.now key.now) }
        ensures fault { IfErr result (λ f. IsTrue (is_given (S.gave entry.now.source) f)) }
    {
        let at = key.rect_in(shape.dim);
        match entry.layout.read_rect(rt, &entry.source, at) {
            Ok(raster) => Ok(TileVal { raster }),
            Err(LoadFault::Source(fault)) => Err(Fault::Source(fault)),
            Err(LoadFault::NoMemory) => Err(Fault::NoMemory),
        }
    }

    /// Reads the tile that a key names, of the image that `image_of` found for it.
    pub(crate) fn read_tile(
        &self,
        rt: &R,
        entry: &ImageEntry<R, S>,
        shape: &Shape,
        key: &TileKey,
    ) -> Result<TileVal, Fault>
        requires image { IsImageOf S.Source J.System key.now.name (item_of entry.now) }
        requires shape { shape_of (picture_in S.bytes (item_of entry.now)) ≡ shape.now }
        requires fits { TileFitsIn shape.now.dim (channels_of shape.now.kind) key.now }
        ensures meant { J.stable key.now.name → IfOk result (λ v. v ≡ tile_meaning J.pictures key.now) }
        ensures shaped { IfOk result (λ v. IsTrue (tile_is_shaped J.pictures key.now v)) }
        ensures given { IfErr result (λ f. IsTrue (is_given (J.gave key.now.name) f)) }
    {
        // Laws of keys.
        TileKey::laws();
        self.read(rt, entry, shape, key)
    }
}
