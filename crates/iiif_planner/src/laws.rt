//! Laws of plans and bands. The functions compute nothing: their contracts are the laws, for the crates above.

ghost use Rattle.iiif_planner.specs.BandLaws.{BandsAreEach, BandsAreLow, BandsCutPictures, PlacesAreThose, PlacesRise};
ghost use Rattle.iiif_planner.specs.Laws.{EachBlockOnce, EachTileOnce, LevelIsGreatest};

use iiif_pixel::laws::bands_follow;

/// A plan lists each tile, or each block of its level, that has a place of the region once, and no other.
pub fn each_is_listed_once()
    ensures tiles { EachTileOnce }
    ensures blocks { EachBlockOnce }
{}

/// The level of a plan's blocks can be computed, so a plan is a function of the request.
pub fn level_is_greatest()
    ensures { LevelIsGreatest }
{}

/// A band lists each item that has a place of it once, in the plan's order, and no other.
pub fn items_in_order<K>()
    ensures rise { PlacesRise K }
    ensures those { PlacesAreThose K }
{}

/// An image can be made and sent band by band, and each band holds only its own rows.
pub fn bands_cut_results()
    ensures cut { BandsCutPictures }
    ensures low { BandsAreLow }
{
    // A law of pictures.
    bands_follow();
}

/// `band_at` gives the bands of `bands`, one by one.
pub fn bands_are_each()
    ensures { BandsAreEach }
{}
